//! The walk over the lines of prefixes.

ghost use Rattle.std.specs.Prelude.{◌≡◌, ◌≤◌, ◌≤ℤ◌, ◌++◌, None, ◌∷◌, [], drop, take, length, pos, map, ℕ, List, IfOk, OnOk, IfSome, IfNone};
ghost use Rattle.std.specs.Ordering.{nat_cmp};
ghost use Rattle.hu_kind.specs.Order.{ranking};
ghost use Rattle.hu_proof.specs.Bounds.{after};
ghost use Rattle.hu_base.specs.Base.{records_of};
ghost use Rattle.hu_proof.specs.Check.{root, walk};
ghost use Rattle.hu_proof.specs.Opened.{answer_of_lines};
ghost use Rattle.hu_collect.specs.State.{offered, Takes};
ghost use Rattle.hu_proof.specs.Judged.{line_fault_at, token_items, Judges, SaysTokens, node_at};
ghost use Rattle.hu_proof.specs.Text.{pieces, said_of};
ghost use Rattle.hu_proof.specs.declared.token.Token.{Token};
ghost use Rattle.hu_proof.specs.Places.{narrowed, places_of, AllAscend, Apart, Follows, HasRoom, IsOneOf};
ghost use Rattle.hu_proof.specs.Waiting.{entry_at, stack_of, PushesChildren, Steps};
ghost use Rattle.hu_proof.specs.Words.{numbers_of};

use crate::fault::CheckFault;
use crate::line::{Line, Opened, Terms, check_line};
use crate::order::{Order, push_items, rank};
use crate::place::{earned, first_places, later_rank, narrowed};
use crate::token::Token;
use crate::words::cut;
use hu_base::Base;
use hu_collect::{All, Collect};
use hu_kind::{Entry, Item, Key, NoMemory, Record};
use std::alloc::Global;

/// A prefix that waits for its line: it is so many items of the path, and one more.
#[derive(Drop)]
pub(crate) struct Waiting<'a> {
    pub depth: usize,
    pub item: Item,
    pub node: Opened<'a>,
}

/// How far a walk has come: the prefix whose line comes next, those that wait, and the entries that were found.
#[derive(Drop)]
struct Progress<'a> {
    path: Vec<Item>,
    waiting: Vec<Waiting<'a>>,
    found: All,
}

/// Takes the prefix that comes next, and makes it the path.
fn next<'a>(progress: &mut Progress<'a>) -> Result<Option<Opened<'a>>, NoMemory>
    ensures some { IfOk result (λ next. IfSome next (λ node.
        Steps (numbers_of progress.old.path.items) (stack_of progress.old.waiting.items)
        (numbers_of progress.new.path.items) (stack_of progress.new.waiting.items) node.from
        (places_of node.places.items))) }
    ensures none { IfOk result (λ next. IfNone next ((stack_of progress.old.waiting.items ≡ [])
        × (stack_of progress.new.waiting.items ≡ []))) }
    ensures found { progress.new.found ≡ progress.old.found }
{
    let Some(Waiting { depth, item, node }) = progress.waiting.pop() else {
        return Ok(None);
    };
    progress.path.truncate(depth);
    progress.path.push(item)?;
    Ok(Some(node))
}

/// Lets the children of a prefix wait that are opened, the first one to come next.
pub(crate) fn push_children<'a>(
    alloc: Global,
    waiting: &mut Vec<Waiting<'a>>,
    order: &Order,
    depth: usize,
    node: &Opened<'a>,
    tokens: &[Token],
) -> Result<(), NoMemory>
    requires apart { Apart order.now }
    requires room { HasRoom (drop node.now.from order.now) (places_of node.now.places.items) }
    requires later { Follows (drop node.now.from order.now) (token_items tokens.now) }
    ensures { OnOk result (PushesChildren order.now depth node.now.from
        (places_of node.now.places.items) tokens.now
        (stack_of waiting.old.items) (stack_of waiting.new.items)) }
{
    let mut i = tokens.len();
    'tokens: while i > 0 {
        i -= 1;
        push_child(alloc, waiting, order, depth, node, &tokens[i])?;
    }
    Ok(())
}

/// Lets a child wait, where it is opened.
fn push_child<'a>(
    alloc: Global,
    waiting: &mut Vec<Waiting<'a>>,
    order: &Order,
    depth: usize,
    node: &Opened<'a>,
    token: &Token,
) -> Result<(), NoMemory>
    requires apart { Apart order.now }
    requires room { HasRoom (drop node.now.from order.now) (places_of node.now.places.items) }
    requires later { IsOneOf token.now.item.0 (drop node.now.from order.now) }
    ensures { OnOk result (PushesChildren order.now depth node.now.from
        (places_of node.now.places.items) (token.now ∷ [])
        (stack_of waiting.old.items) (stack_of waiting.new.items)) }
{
    if token.bound.is_none() {
        waiting.push(Waiting {
            depth,
            item: token.item,
            node: child_node(alloc, order, node, token.item)?,
        })?;
    }
    Ok(())
}

/// The node of a prefix with an item more.
fn child_node<'a>(
    alloc: Global,
    order: &Order,
    node: &Opened<'a>,
    item: Item,
) -> Result<Opened<'a>, NoMemory>
    requires apart { Apart order.now }
    requires room { HasRoom (drop node.now.from order.now) (places_of node.now.places.items) }
    requires later { IsOneOf item.0 (drop node.now.from order.now) }
    ensures places { IfOk result (λ child. places_of child.places.items
        ≡ narrowed item.0 (places_of node.now.places.items)) }
    ensures after { IfOk result (λ child. drop child.from order.now
        ≡ after item.0 (drop node.now.from order.now)) }
{
    let Some(rank) = later_rank(order, node.from, item) else {
        unreachable!()
    };
    Ok(Opened {
        from: rank + 1,
        places: narrowed(alloc, &node.places, item)?,
    })
}

/// The key of a prefix: its items ascending.
pub(crate) fn key_of(alloc: Global, prefix: &[Item]) -> Result<Key, NoMemory>
    ensures { IfOk result (λ key. key ≡ map pos (ranking nat_cmp (numbers_of prefix.now))) }
{
    let mut numbers = Vec::new(alloc);
    push_items(&mut numbers, prefix)?;
    rank(&mut numbers);
    let mut key = Key::new(alloc);
    for number in &numbers {
        key.push(i64::from(*number))?;
    }
    Ok(key)
}

/// Checks the line of the path, lets its children wait, and offers its entry.
fn visit<'a>(
    alloc: Global,
    terms: Terms<'_>,
    line: Line<'_>,
    node: &Opened<'a>,
    progress: &mut Progress<'a>,
) -> Result<(), CheckFault>
    requires apart { Apart terms.order.now }
    requires room { HasRoom (drop node.now.from terms.order.now) (places_of node.now.places.items) }
    ensures fault { Judges result (line_fault_at terms.entry.least line.entry.number
        (node_at terms.entry.order.now (numbers_of progress.old.path.items) node.now.from)
        (places_of node.now.places.items) (said_of line.entry.text.now)) }
    ensures path { OnOk result (progress.new.path ≡ progress.old.path) }
    ensures pushed { OnOk result ((tokens : List Token) × SaysTokens line.entry.text.now tokens
        × Follows (drop node.now.from terms.entry.order.now) (token_items tokens)
        × PushesChildren terms.entry.order.now (length progress.old.path.items) node.now.from
        (places_of node.now.places.items) tokens
        (stack_of progress.old.waiting.items) (stack_of progress.new.waiting.items)) }
    ensures found { OnOk result (⟦<All as Collect>⟧.state progress.new.found
        ≡ offered (⟦<All as Collect>⟧.state progress.old.found)
        (entry_at (numbers_of progress.old.path.items) (places_of node.now.places.items) ∷ [])) }
{
    let depth = progress.path.len();
    let tokens = check_line(alloc, terms, line, &progress.path, node)?;
    push_children(
        alloc,
        &mut progress.waiting,
        terms.order,
        depth,
        node,
        &tokens,
    )?;
    offer(alloc, &progress.path, node, &mut progress.found)?;
    Ok(())
}

/// Offers the entry of the path, where it reaches the floor. No key is built for another, which would change nothing.
fn offer(alloc: Global, path: &[Item], node: &Opened<'_>, found: &mut All) -> Result<(), NoMemory>
    requires { (later : List ℕ) × HasRoom later (places_of node.now.places.items) }
    ensures { Takes (⟦<All as Collect>⟧.state found.old) (entry_at (numbers_of path.now)
        (places_of node.now.places.items) ∷ [])
        (⟦<All as Collect>⟧.state found.new) result }
{
    let utility = earned(&node.places);
    if utility < found.floor() {
        return Ok(());
    }
    found.offer(Entry {
        key: key_of(alloc, path)?,
        utility,
        support: node.places.len() as u64,
    })
}

/// Checks the lines of prefixes, the first of them line 3, and answers the entries of those that reach the minimum. The
/// prefixes that wait stand in a vector, each with its records narrowed from those of the one before, so that a deep text
/// needs no stack.
pub(crate) fn walk(
    alloc: Global,
    base: &Base<Record>,
    order: &Order,
    least: i128,
    text: &[u8],
) -> Result<Vec<Entry>, CheckFault>
    requires apart { Apart order.now }
    requires least { pos 1 ≤ℤ least }
    requires small { length text.now ≤ 268435456 }
    ensures fault { Judges result (walk (records_of base.now) least 3 (root order.now ∷ [])
        (pieces text.now)) }
    ensures answer { IfOk result (λ entries. entries.items
        ≡ answer_of_lines (records_of base.now) least (pieces text.now)) }
{
    // This tells the proof that no sum overflows.
    let _sum = base.sum();
    let terms = Terms { order, least };
    let mut progress = Progress {
        path: Vec::new(alloc),
        waiting: Vec::new(alloc),
        found: All::new(alloc, least),
    };
    let mut current = Some(root(alloc, base.records())?);
    let mut rest = text;
    let mut number = 3u64;
    'lines: while let Some(node) = current {
        let Some((text, more)) = cut(b'\n', rest) else {
            return Err(CheckFault::NotOfForm { line: number });
        };
        visit(alloc, terms, Line { number, text }, &node, &mut progress)?;
        current = next(&mut progress)?;
        rest = more;
        number += 1;
    }
    if rest.is_empty() {
        Ok(progress.found.into_entries()?)
    } else {
        Err(CheckFault::NotOfForm { line: number })
    }
}

/// The node of the empty prefix.
fn root(alloc: Global, records: &[Record]) -> Result<Opened<'_>, NoMemory>
    ensures from { IfOk result (λ node. node.from ≡ 0) }
    ensures places { IfOk result (λ node. places_of node.places.items
        ≡ map (λ r. (r, pos 0)) records.now) }
    ensures rises { IfOk result (λ _. AllAscend records.now) }
{
    Ok(Opened {
        from: 0,
        places: first_places(alloc, records)?,
    })
}
