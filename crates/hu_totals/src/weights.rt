//! Items in the order of their ranks.

ghost use Rattle.std.specs.Prelude.{◌≡◌, ◌<◌, ◌≤◌, ◌^◌, map, length, nat_eq, slice_get, option_map, option_to_list, IfOk, OnOk};
ghost use Rattle.std.specs.List.{IsDistinct};
ghost use Rattle.std.specs.Map.{keys_of};
ghost use Rattle.indexmap.specs.IndexSet.{insert_key};
ghost use Rattle.hu_totals.specs.Ranked.{mean_of, smallness_of};
ghost use Rattle.hu_totals.specs.Weights.{by_weight, numbers_of, same_item, weight_of, weights};

use crate::totals::{ItemTotal, Totals};
use hu_kind::{Item, NoMemory};
use indexmap::IndexSet;
use std::alloc::Global;

/// The order in which items take their ranks. Engines answer the same under each; what they leave out differs.
#[derive(Clone, Copy, Debug, PartialEq, Eq)]
pub enum RankOrder {
    /// By what the records gain that hold an item, ascending, then by item.
    Gain,
    /// By the size of an item's mean value above 0, falling, where sizes are powers of two; among those of one size by
    /// what the records gain, ascending, then by item. It serves dense records, of which most hold the same items.
    Value,
}

impl RankOrder {
    /// How small an item's mean value is under the order: the leading zeros of the mean as a number of 128 bits, or 0
    /// where the order doesn't ask.
    fn smallness(self, total: &ItemTotal) -> u32
        ensures { result ≡ smallness_of self total.now }
    {
        match self {
            RankOrder::Gain => 0,
            RankOrder::Value => mean_of(total).leading_zeros(),
        }
    }
}

/// What an item's values above 0 are in the mean, over the records that hold it.
fn mean_of(total: &ItemTotal) -> u128
    ensures { result ≡ mean_of total.now }
{
    total.positive.unsigned_abs() / u128::from(total.support.max(1))
}

/// An item with what it is ordered by.
#[derive(Clone, Copy, PartialEq, Eq, PartialOrd, Ord)]
struct Weighed {
    smallness: u32,
    twu: i128,
    item: Item,
}

/// The items whose transaction-weighted utility reaches a floor, in an order; at the floor 0 these are all. One sort.
pub fn items_by_weight(
    alloc: Global,
    totals: &Totals,
    floor: i128,
    order: RankOrder,
) -> Result<IndexSet<Item>, NoMemory>
    requires apart { IsDistinct nat_eq (keys_of totals.now) }
    ensures value { IfOk result (λ items. numbers_of items.keys ≡ by_weight order floor totals.now) }
    ensures few { IfOk result (λ items. length items.keys ≤ 2 ^ 32) }
{
    let mut weighed = weigh(alloc, totals, floor, order)?;
    weighed.sort_unstable();
    let mut items = IndexSet::new(alloc);
    for one in &weighed {
        put(&mut items, one.item)?;
    }
    Ok(items)
}

/// Puts an item into the set, last where it isn't there. That its number is small stands in its type; the caller's proof
/// learns it here.
fn put(items: &mut IndexSet<Item>, item: Item) -> Result<(), NoMemory>
    ensures keys { OnOk result (items.new.keys ≡ insert_key same_item items.old.keys item) }
    ensures small { item.0 < 2 ^ 32 }
{
    items.insert(item)?;
    Ok(())
}

/// The items that reach a floor, in first-seen order.
fn weigh(
    alloc: Global,
    totals: &Totals,
    floor: i128,
    order: RankOrder,
) -> Result<Vec<Weighed>, NoMemory>
    ensures { IfOk result (λ weighed. map weight_of weighed.items ≡ weights order floor totals.now) }
{
    let mut weighed = Vec::new(alloc);
    for index in 0..totals.len() {
        if let Some(one) = weighed_at(totals, index, floor, order) {
            weighed.push(one)?;
        }
    }
    Ok(weighed)
}

/// The item at a place, where it reaches a floor.
fn weighed_at(totals: &Totals, index: usize, floor: i128, order: RankOrder) -> Option<Weighed>
    ensures { option_to_list (option_map weight_of result)
        ≡ weights order floor (option_to_list (slice_get totals.now index)) }
{
    let (item, total) = totals.at(index)?;
    if total.twu < floor {
        return None;
    }
    Some(Weighed {
        smallness: order.smallness(&total),
        twu: total.twu,
        item,
    })
}
