//! The items that a search still takes.

ghost use Rattle.std.specs.Prelude.{◌≡◌, ◌==◌, ◌||◌, ◌<◌, ◌≤◌, ℕ, true, false, length, slice_index_or, IfOk};
ghost use Rattle.std.specs.List.{list_any, Contains};
ghost use Rattle.std.specs.List.Sorted.{IsNonDecreasingBy, IsPartitionPoint};
ghost use Rattle.hu_kind.specs.declared.item.Item.{Item};
ghost use Rattle.hu_span.specs.Kept.{counted, keeps, IsTable};

use hu_kind::{Item, NoMemory};
use std::alloc::Global;
use std::marker::Model;

/// The numbers below which a table is kept.
const TABLE: u32 = 65_536;

/// The items that a search still takes: all, or those of a list. Where the numbers of the list are small, a table tells of each.
#[derive(Drop)]
pub(crate) struct Kept {
    is_every: bool,
    items: Vec<Item>,
    table: Vec<bool>,
}

impl Model for Kept {
    ghost use Rattle.std.specs.Prelude.{Bool, List};
    ghost use Rattle.std.specs.List.Sorted.{IsNonDecreasingBy};
    ghost use Rattle.hu_kind.specs.declared.item.Item.{Item};
    ghost use Rattle.hu_span.specs.Kept.{IsTable};

    ghost Value = { Bool × List Item };

    ghost view = { λ k. (k.is_every, k.items.items) };

    ghost invariant = { λ k. IsNonDecreasingBy (λ item. item.0) k.items.items × IsTable k.items.items k.table.items };
}

impl Kept {
    /// All items.
    pub(crate) fn every(alloc: Global) -> Kept
        ensures { (item : ℕ) → keeps result item ≡ true }
    {
        Kept {
            is_every: true,
            items: Vec::new(alloc),
            table: Vec::new(alloc),
        }
    }

    /// The items of a list.
    pub(crate) fn of(alloc: Global, items: Vec<Item>) -> Result<Kept, NoMemory>
        ensures known { IfOk result (λ kept. (item : ℕ) → keeps kept item ≡ true
            → (one : Item) × Contains items.items one × (one.0 ≡ item)) }
        ensures all { IfOk result (λ kept. (item : Item) → Contains items.items item
            → keeps kept item.0 ≡ true) }
    {
        let mut items = items;
        items.sort_unstable_by_key(|item| item.0);
        let table = table_of(alloc, &items)?;
        Ok(Kept {
            is_every: false,
            items,
            table,
        })
    }

    /// Whether an item is kept. The table tells it, or the item is looked for by halves.
    pub(crate) fn has(&self, item: Item) -> bool
        ensures { result ≡ keeps self.now item.0 }
    {
        self.is_every || stands_in(&self.table, &self.items, item)
    }
}

/// A table of the numbers up to that of the last item, in which those of the items are marked; an empty one where that is large.
fn table_of(alloc: Global, items: &[Item]) -> Result<Vec<bool>, NoMemory>
    ensures { IfOk result (λ table. IsTable items.now table.items) }
{
    let mut table = vec![in alloc; false; table_len(items)]?;
    for item in items {
        mark(&mut table, *item);
    }
    Ok(table)
}

/// How long the table of items is.
fn table_len(items: &[Item]) -> usize
    ensures { result ≤ 65536 }
{
    match items.last() {
        Some(last) if last.0 < TABLE => last.0 as usize + 1,
        _ => 0,
    }
}

/// Marks an item in a table, if it has a place there.
fn mark(table: &mut [bool], item: Item)
    ensures length { length table.new ≡ length table.old }
    ensures marked { (number : ℕ) → number < length table.old → slice_index_or table.new number false
        ≡ (slice_index_or table.old number false || (number == item.0)) }
{
    let place = item.0 as usize;
    if place < table.len() {
        table[place] = true;
    }
}

/// Whether an item stands in a list, of which a table tells.
fn stands_in(table: &[bool], items: &[Item], item: Item) -> bool
    requires table { IsTable items.now table.now }
    requires sorted { IsNonDecreasingBy (λ one. one.0) items.now }
    ensures { result ≡ list_any (λ one. item.0 == one.0) items.now }
{
    match table.get(item.0 as usize) {
        Some(is_kept) => *is_kept,
        None => is_among(items, item),
    }
}

/// A value where it counts, else 0.
pub(crate) fn counted(counts: bool, value: i128) -> i128
    ensures { result ≡ counted counts value }
{
    if counts { value } else { 0 }
}

/// Whether an item stands in a list.
fn is_among(items: &[Item], item: Item) -> bool
    requires { IsNonDecreasingBy (λ one. one.0) items.now }
    ensures { result ≡ list_any (λ one. item.0 == one.0) items.now }
{
    match items.get(items_below(items, item)) {
        Some(found) => found.0 == item.0,
        None => false,
    }
}

/// How many items of a list are smaller.
fn items_below(items: &[Item], item: Item) -> usize
    requires { IsNonDecreasingBy (λ one. one.0) items.now }
    ensures splits { IsPartitionPoint (λ one. one.0 < item.0)
        (λ one. item.0 ≤ one.0) items.now result }
    ensures within { result ≤ length items.now }
{
    items.partition_point(|one| one.0 < item.0)
}
