//! Totals of single items.

ghost use Rattle.std.specs.Prelude.{◌≡◌, ℕ, ◌<◌, ◌^◌, max, unsigned_abs, length, nat_eq, slice_get, IfOk, OnOk};
ghost use Rattle.std.specs.Option.{option_map};
ghost use Rattle.std.specs.Map.{lookup};
ghost use Rattle.hu_kind.specs.Cell.{pair_of, pairs_of};
ghost use Rattle.hu_kind.specs.Record.{absolute_of, gain, items_in};
ghost use Rattle.hu_kind.specs.Order.{Ascend};
ghost use Rattle.hu_base.specs.Base.{records_of};
ghost use Rattle.hu_totals.specs.Totals.{item_totals, numbered};
ghost use Rattle.indexmap.specs.IndexMap.{set_value_at};
ghost use Rattle.hu_totals.specs.Adding.{grown, no_total, pairs_with, total_at, total_in, with_cell, with_record, HasRoom};

use hu_base::Base;
use hu_kind::{Cell, Item, NoMemory, Record, gain_of, positive_part};
use indexmap::IndexMap;
use std::alloc::Global;
use std::marker::Model;

/// What the records of a base say of one item.
#[derive(Clone, Copy, Debug, PartialEq, Eq)]
pub struct ItemTotal {
    /// The sum of its values.
    pub utility: i128,
    /// The sum of its values above 0.
    pub positive: i128,
    /// How many records hold it.
    pub support: u64,
    /// The sum of all values above 0 in the records that hold it: its transaction-weighted utility.
    pub twu: i128,
}

impl ItemTotal {
    /// What no record says.
    const NONE: ItemTotal = ItemTotal {
        utility: 0,
        positive: 0,
        support: 0,
        twu: 0,
    };

    /// The total with a record more, in which the item has a value and whose values above 0 sum to a gain.
    fn with(&self, value: i128, gain: i128) -> ItemTotal
        requires room { HasRoom self.now (max (unsigned_abs value) (unsigned_abs gain)) }
        ensures { result ≡ grown self.now value gain }
    {
        ItemTotal {
            utility: self.utility + value,
            positive: self.positive + positive_part(value),
            support: self.support + 1,
            twu: self.twu + gain,
        }
    }
}

/// The totals of all items that occur, in the order in which they are first seen. It is seen as a list of pairs (item, total).
#[derive(Drop)]
pub struct Totals {
    totals: IndexMap<Item, ItemTotal>,
}

impl Model for Totals {
    ghost use Rattle.std.specs.Prelude.{List, ℕ, map};
    ghost use Rattle.hu_totals.specs.declared.totals.ItemTotal.{ItemTotal};
    ghost use Rattle.hu_totals.specs.Totals.{numbered};

    ghost Value = { List (ℕ × ItemTotal) };

    ghost view = { λ t. map numbered t.totals.entries };
}

impl Totals {
    /// The totals of a base, in one pass over its cells: for each a look-up and a write in a hash table. After Two-Phase
    /// (Liu, Liao and Choudhary, 2005).
    pub fn of(alloc: Global, base: &Base<Record>) -> Result<Totals, NoMemory>
        ensures value { IfOk result (λ t. t ≡ item_totals (records_of base.now)) }
    {
        // This tells the proof that no sum overflows.
        let _sum = base.sum();
        let mut totals = IndexMap::new(alloc);
        for record in base.records() {
            add_record(&mut totals, record.cells())?;
        }
        Ok(Totals { totals })
    }

    /// How many items occur.
    pub fn len(&self) -> usize
        ensures value { result ≡ length self.now }
    {
        self.totals.len()
    }

    /// The item at a place, counted from 0 in first-seen order, and its total.
    pub fn at(&self, index: usize) -> Option<(Item, ItemTotal)>
        ensures value { option_map numbered result ≡ slice_get self.now index }
    {
        let (item, total) = self.totals.get_index(index)?;
        Some((*item, *total))
    }

    /// The total of an item, where it occurs.
    pub fn item(&self, item: Item) -> Option<ItemTotal>
        ensures value { result ≡ lookup (nat_eq item.0) self.now }
    {
        self.totals.get(&item).copied()
    }
}

/// Adds a record's cells to the totals.
fn add_record(totals: &mut IndexMap<Item, ItemTotal>, cells: &[Cell]) -> Result<(), NoMemory>
    requires ascending { Ascend (items_in (pairs_of cells.now)) }
    requires sum_fits { absolute_of (pairs_of cells.now) < 2 ^ 127 }
    requires room { (item : ℕ) → HasRoom (total_in (pairs_with totals.old.entries) item)
        (absolute_of (pairs_of cells.now)) }
    ensures { OnOk result (pairs_with totals.new.entries
        ≡ with_record (pairs_with totals.old.entries) (pairs_of cells.now)) }
{
    let gain = gain_of(cells);
    for cell in cells {
        add_cell(totals, cell, gain)?;
    }
    Ok(())
}

/// Adds a cell of a record with a gain to the totals, by one look-up where its item has occurred.
fn add_cell(totals: &mut IndexMap<Item, ItemTotal>, cell: &Cell, gain: i128) -> Result<(), NoMemory>
    requires room { HasRoom (total_in (pairs_with totals.old.entries) cell.now.item.0)
        (max (unsigned_abs cell.now.value) (unsigned_abs gain)) }
    ensures { OnOk result (pairs_with totals.new.entries
        ≡ with_cell gain (pairs_with totals.old.entries) (pair_of cell.now)) }
{
    match totals.get_index_of(&cell.item) {
        Some(place) => grow_at(totals, place, cell.value, gain),
        None => {
            totals.insert(cell.item, ItemTotal::NONE.with(cell.value, gain))?;
        }
    }
    Ok(())
}

/// Adds a value in a record with a gain to the total at a place.
fn grow_at(totals: &mut IndexMap<Item, ItemTotal>, place: usize, value: i128, gain: i128)
    requires within { place < length totals.old.entries }
    requires room { HasRoom (total_at totals.old.entries place) (max (unsigned_abs value) (unsigned_abs gain)) }
    ensures { totals.new.entries ≡ set_value_at totals.old.entries place
        (grown (total_at totals.old.entries place) value gain) }
{
    if let Some(total) = totals.get_index_mut(place) {
        *total = total.with(value, gain);
    }
}
