//! What a line says of the children of its prefix.

ghost use Rattle.std.specs.Prelude.{◌≡◌, ◌≢◌, ◌<◌, ◌≤◌, ◌||◌, ℕ, Bool, true, false, is_some, drop, length, map, option_map, slice_index, IfOk, IfSome, IfNone};
ghost use Rattle.std.specs.List.{list_any};
ghost use Rattle.hu_kind.specs.Cell.{pairs_of};
ghost use Rattle.hu_kind.specs.First.{first_some};
ghost use Rattle.hu_kind.specs.Record.{has};
ghost use Rattle.hu_proof.specs.Bounds.{is_among};
ghost use Rattle.hu_proof.specs.Check.{not_cut, wrong_bound_of, wrong_child};
ghost use Rattle.hu_proof.specs.Judged.{bound_faults, missing, token_items, IsLower, IsLowest, Judges};
ghost use Rattle.hu_proof.specs.Places.{places_of, Apart, Follows, HasRoom};
ghost use Rattle.hu_proof.specs.Text.{each, token_of, words};
ghost use Rattle.hu_proof.specs.Words.{told};

use crate::fault::CheckFault;
use crate::order::Order;
use crate::place::{Place, later_rank};
use crate::slots::bounds;
use crate::token::{Token, token_of};
use crate::words::{begin, next_word};
use hu_kind::{Cell, Item, NoMemory};
use std::alloc::Global;

/// The tokens of a text, each of an item before which more items of the order stand than before the last one's.
pub(crate) fn child_tokens(
    alloc: Global,
    order: &Order,
    from: usize,
    text: &[u8],
    line: u64,
) -> Result<Vec<Token>, CheckFault>
    requires apart { Apart order.now }
    requires form { is_some (each token_of (words text.now)) ≡ true }
    ensures value { IfOk result (λ tokens. tokens.items ≡ told (each token_of (words text.now))) }
    ensures later { IfOk result (λ tokens. Follows (drop from order.now)
        (token_items tokens.items)) }
    ensures fault { Judges result (option_map
        (λ item. CheckFault.WrongChild line (record { 0 = item }))
        (wrong_child (drop from order.now) (told (each token_of (words text.now))))) }
{
    let mut tokens = Vec::new(alloc);
    let mut from = from;
    let mut left = begin(text);
    'words: while let Some((word, more)) = next_word(left) {
        let Some(token) = token_of(word) else {
            unreachable!()
        };
        let Some(rank) = later_rank(order, from, token.item) else {
            return Err(CheckFault::WrongChild {
                line,
                item: token.item,
            });
        };
        tokens.push(token)?;
        from = rank + 1;
        left = more;
    }
    Ok(tokens)
}

/// The items of tokens.
pub(crate) fn items_of(alloc: Global, tokens: &[Token]) -> Result<Vec<Item>, NoMemory>
    ensures { IfOk result (λ items. map (λ item. item.0) items.items ≡ token_items tokens.now) }
{
    let mut items = Vec::with_capacity(alloc, tokens.len())?;
    for token in tokens {
        items.push(token.item)?;
    }
    Ok(items)
}

/// The first item in the order, from a rank on, that isn't named and stands in some of these places.
pub(crate) fn missing(
    order: &Order,
    from: usize,
    named: &Order,
    places: &[Place<'_>],
) -> Option<Item>
    requires { Apart order.now }
    ensures { option_map (λ item. item.0) result
        ≡ missing (drop from order.now) named.now (places_of places.now) }
{
    let mut low = order.len();
    for place in places {
        low = lowest(order, from, named, low, place.cells);
    }
    order.item_at(low)
}

/// The lowest rank, from one on, of those of cells' items that aren't named and of an earlier one.
fn lowest(order: &Order, from: usize, named: &Order, before: usize, cells: &[Cell]) -> usize
    requires apart { Apart order.now }
    requires within { before ≤ length order.now }
    ensures within { result ≤ length order.now }
    ensures value { (test : ℕ → Bool) → IsLowest order.now named.now from test before
        → IsLowest order.now named.now from
        (λ item. test item || has item (pairs_of cells.now)) result }
{
    let mut low = before;
    for cell in cells {
        if let Some(rank) = lower(order, from, named, low, cell.item) {
            low = rank;
        }
    }
    low
}

/// The rank of an item that isn't named, where it lies from one on and below another.
fn lower(order: &Order, from: usize, named: &Order, low: usize, item: Item) -> Option<usize>
    requires apart { Apart order.now }
    requires within { low ≤ length order.now }
    ensures some { IfSome result (λ rank. IsLower order.now named.now from low item.0 rank) }
    ensures none { IfNone result ((rank : ℕ) → from ≤ rank → rank < low
        → is_among (slice_index order.now rank) named.now ≡ false
        → slice_index order.now rank ≢ item.0) }
{
    let rank = order.rank_of(item)?;
    if from <= rank && rank < low && named.rank_of(item).is_none() {
        Some(rank)
    } else {
        None
    }
}

/// Whether each stated bound is the sum of the shares, where the named items are those of the tokens.
pub(crate) fn check_bounds(
    alloc: Global,
    named: &Order,
    places: &[Place<'_>],
    tokens: &[Token],
    line: u64,
) -> Result<(), CheckFault>
    requires apart { Apart named.now }
    requires items { named.now ≡ token_items tokens.now }
    requires room { HasRoom named.now (places_of places.now) }
    ensures { Judges result (bound_faults line named.now (places_of places.now) tokens.now) }
{
    if !have_bound(tokens) {
        return Ok(());
    }
    let sums = bounds(alloc, named, places)?;
    for slot in 0..tokens.len() {
        check_bound(&tokens[slot], sums[slot], line)?;
    }
    Ok(())
}

/// Whether some token states a bound.
fn have_bound(tokens: &[Token]) -> bool
    ensures { result ≡ list_any (λ token. is_some token.bound) tokens.now }
{
    tokens.iter().any(|token| token.bound.is_some())
}

/// Whether a stated bound is the sum.
fn check_bound(token: &Token, summed: i128, line: u64) -> Result<(), CheckFault>
    ensures { Judges result (wrong_bound_of line token.now.item token.now.bound summed) }
{
    match token.bound {
        Some(stated) if stated != summed => Err(CheckFault::WrongBound {
            line,
            item: token.item,
            stated,
            summed,
        }),
        _ => Ok(()),
    }
}

/// Whether each stated bound is below the minimum.
pub(crate) fn check_cuts(tokens: &[Token], least: i128, line: u64) -> Result<(), CheckFault>
    ensures { Judges result (first_some (map (not_cut line least) tokens.now)) }
{
    for token in tokens {
        if let Some(bound) = token.bound
            && bound >= least
        {
            return Err(CheckFault::NotCut {
                line,
                item: token.item,
                bound,
            });
        }
    }
    Ok(())
}
