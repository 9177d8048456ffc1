//! The check of one line.

ghost use Rattle.std.specs.Prelude.{◌≡◌, drop, IfOk};
ghost use Rattle.hu_proof.specs.Judged.{children_fault_at, line_fault_at, missing_fault, token_items, Judges, SaysTokens};
ghost use Rattle.hu_proof.specs.Judged.{node_at};
ghost use Rattle.hu_proof.specs.Places.{places_of, Apart, Follows, HasRoom};
ghost use Rattle.hu_proof.specs.Text.{said_of};
ghost use Rattle.hu_proof.specs.Words.{numbers_of};

use crate::children::{check_bounds, check_cuts, child_tokens, items_of, missing};
use crate::fault::CheckFault;
use crate::order::Order;
use crate::place::{Place, earned};
use crate::said::{is_prefix, line_of};
use crate::token::Token;
use hu_kind::{Item, NoMemory};
use std::alloc::Global;

/// A prefix whose line comes next: how many items of the order stand before those that may follow it, and its places.
#[derive(Drop)]
pub(crate) struct Opened<'a> {
    pub from: usize,
    pub places: Vec<Place<'a>>,
}

/// What every line is judged by: the order of the text, and the minimum.
#[derive(Clone, Copy)]
pub(crate) struct Terms<'a> {
    pub order: &'a Order,
    pub least: i128,
}

/// A line of the text, with its number.
#[derive(Clone, Copy)]
pub(crate) struct Line<'a> {
    pub number: u64,
    pub text: &'a [u8],
}

/// The tokens of the line of a prefix, where the line has no fault.
pub(crate) fn check_line(
    alloc: Global,
    terms: Terms<'_>,
    line: Line<'_>,
    prefix: &[Item],
    node: &Opened<'_>,
) -> Result<Vec<Token>, CheckFault>
    requires apart { Apart terms.order.now }
    requires room { HasRoom (drop node.now.from terms.order.now) (places_of node.now.places.items) }
    ensures fault { Judges result (line_fault_at terms.entry.least line.entry.number
        (node_at terms.entry.order.now (numbers_of prefix.now) node.now.from)
        (places_of node.now.places.items) (said_of line.entry.text.now)) }
    ensures tokens { IfOk result (λ tokens. SaysTokens line.entry.text.now tokens.items) }
    ensures later { IfOk result (λ tokens. Follows (drop node.now.from terms.entry.order.now)
        (token_items tokens.items)) }
{
    let number = line.number;
    let Some(said) = line_of(line.text) else {
        return Err(CheckFault::NotOfForm { line: number });
    };
    if !is_prefix(said.prefix, prefix) {
        return Err(CheckFault::WrongPrefix { line: number });
    }
    let stated = said.utility;
    let summed = earned(&node.places);
    if stated != summed {
        return Err(CheckFault::WrongUtility {
            line: number,
            stated,
            summed,
        });
    }
    let tokens = child_tokens(alloc, terms.order, node.from, said.tokens, number)?;
    match check_children(alloc, terms, number, node, &tokens) {
        Ok(()) => Ok(tokens),
        Err(fault) => Err(fault),
    }
}

/// Whether the tokens leave no item out, and each bound is the sum and below the minimum.
fn check_children(
    alloc: Global,
    terms: Terms<'_>,
    line: u64,
    node: &Opened<'_>,
    tokens: &[Token],
) -> Result<(), CheckFault>
    requires apart { Apart terms.order.now }
    requires room { HasRoom (drop node.now.from terms.order.now) (places_of node.now.places.items) }
    requires later { Follows (drop node.now.from terms.order.now) (token_items tokens.now) }
    ensures { Judges result (children_fault_at terms.entry.least line
        (drop node.now.from terms.entry.order.now) (places_of node.now.places.items) tokens.now) }
{
    let named = named_items(alloc, tokens)?;
    check_missing(terms.order, node, &named, line)?;
    check_bounds(alloc, &named, &node.places, tokens, line)?;
    check_cuts(tokens, terms.least, line)
}

/// The items of tokens, none of which stands twice, in their order.
fn named_items(alloc: Global, tokens: &[Token]) -> Result<Order, NoMemory>
    requires { Apart (token_items tokens.now) }
    ensures { IfOk result (λ named. named ≡ token_items tokens.now) }
{
    Order::of(alloc, &items_of(alloc, tokens)?)
}

/// Whether each later item that stands with the prefix in some record is named.
fn check_missing(
    order: &Order,
    node: &Opened<'_>,
    named: &Order,
    line: u64,
) -> Result<(), CheckFault>
    requires { Apart order.now }
    ensures { Judges result (missing_fault line (drop node.now.from order.now) named.now
        (places_of node.now.places.items)) }
{
    match missing(order, node.from, named, &node.places) {
        Some(item) => Err(CheckFault::LeftOut { line, item }),
        None => Ok(()),
    }
}
