//! Which items close a key: they are outside it, and stand in every record that holds it.

ghost use Rattle.std.specs.Prelude.{◌≡◌, ◌≤◌, ◌||◌, ◌&&◌, pos, not, true, take, length, is_some, IfSome};
ghost use Rattle.std.specs.List.{list_any};
ghost use Rattle.hu_kind.specs.Order.{Ascend};
ghost use Rattle.hu_totals.specs.Weights.{numbers_of};
ghost use Rattle.hu_closed.specs.Keys.{is_among, is_outside, is_set_key};
ghost use Rattle.hu_closed.specs.Holders.{lists_of};
ghost use Rattle.hu_closed.specs.Candidates.{has_rank_below, is_tried};
ghost use Rattle.hu_closed.specs.Found.{closes_at, IsHolding};

use crate::found::Found;
use crate::keys::{is_among, is_outside};
use hu_kind::Item;
use hu_totals::Ranked;

/// Which items are tried: all of them, or those that have a rank below `last`.
#[derive(Drop)]
pub(crate) enum Tried<'a> {
    All,
    Below { ranked: &'a Ranked, last: u32 },
}

impl<'a> Tried<'a> {
    /// Whether an item is tried.
    fn has(&self, item: Item) -> bool
        ensures { result ≡ is_tried self.now item.0 }
    {
        match self {
            Tried::All => true,
            Tried::Below { ranked, last } => has_rank_below(ranked, item, *last),
        }
    }
}

/// Whether an item has a rank below `last`.
fn has_rank_below(ranked: &Ranked, item: Item, last: u32) -> bool
    ensures { result ≡ has_rank_below ranked.now.items last item.0 }
{
    match ranked.rank_of(item) {
        Some(rank) => rank < last,
        None => false,
    }
}

/// Whether one of these items that is tried is outside a key and stands in each record found that holds it. The items are
/// those of such a record. The last record that was found to lack an item is looked at first for the next one.
pub(crate) fn any_closes<'a>(
    found: &Found<'a>,
    key: &[i64],
    items: &'a [Item],
    tried: &Tried<'_>,
) -> bool
    requires key { is_set_key key.now ≡ true }
    requires holding { IsHolding found.now key.now (numbers_of items.now) }
    ensures { result ≡ list_any (λ item. is_tried tried.now item && closes_at found.now key.now item)
        (numbers_of items.now) }
{
    let mut witness = items;
    for item in items {
        let Some(next) = witness_against(found, key, *item, witness, tried) else {
            return true;
        };
        witness = next;
    }
    false
}

/// A record found that holds a key: the witness that is given, where the item isn't tried or the witness shows that it
/// doesn't close the key, else another one that shows it; none where the item closes the key.
fn witness_against<'a>(
    found: &Found<'a>,
    key: &[i64],
    item: Item,
    witness: &'a [Item],
    tried: &Tried<'_>,
) -> Option<&'a [Item]>
    requires key { is_set_key key.now ≡ true }
    requires holding { IsHolding found.now key.now (numbers_of witness.now) }
    ensures holding { IfSome result (λ items. IsHolding found.now key.now (numbers_of items.now)) }
    ensures value { is_some result
        ≡ not (is_tried tried.now item.0 && closes_at found.now key.now item.0) }
{
    if is_settled(key, item, witness) || !tried.has(item) {
        return Some(witness);
    }
    found.refuter(key, item)
}

/// Whether an item is in a key, or is none of these items.
fn is_settled(key: &[i64], item: Item, items: &[Item]) -> bool
    requires key { is_set_key key.now ≡ true }
    requires ascending { Ascend (numbers_of items.now) }
    ensures { result ≡ (not (is_outside key.now item.0)
        || not (is_among (numbers_of items.now) (pos item.0))) }
{
    !is_outside(key, item) || !is_among(items, i64::from(item.0))
}

/// Whether an item of some record is outside a key.
pub(crate) fn any_outside(lists: &[Vec<Item>], key: &[i64]) -> bool
    requires { is_set_key key.now ≡ true }
    ensures { result ≡ list_any (list_any (is_outside key.now)) (lists_of lists.now) }
{
    for items in lists {
        if has_outside(items, key) {
            return true;
        }
    }
    false
}

/// Whether one of these items is outside a key.
fn has_outside(items: &[Item], key: &[i64]) -> bool
    requires { is_set_key key.now ≡ true }
    ensures { result ≡ list_any (is_outside key.now) (numbers_of items.now) }
{
    for item in items {
        if is_outside(key, *item) {
            return true;
        }
    }
    false
}

/// Whether the item of some rank below `last` is outside a key.
pub(crate) fn any_outside_below(ranked: &Ranked, key: &[i64], last: u32) -> bool
    requires key { is_set_key key.now ≡ true }
    requires last { last ≤ length ranked.now.items }
    ensures { result ≡ list_any (is_outside key.now) (take last ranked.now.items) }
{
    for rank in 0..last {
        if is_outside(key, ranked.item_of(rank)) {
            return true;
        }
    }
    false
}
