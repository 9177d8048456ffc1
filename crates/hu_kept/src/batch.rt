//! A batch while it is appended.

ghost use Rattle.std.specs.Prelude.{◌≡◌, ◌<◌, length, slice_index, IfOk};
ghost use Rattle.hu_base.specs.Base.{records_of};
ghost use Rattle.hu_kept.specs.Shared.{batch_items, occurs_in};

use hu_base::Base;
use hu_closed::RecordSets;
use hu_kind::{Item, NoMemory, Record};
use hu_totals::Totals;
use std::alloc::Global;
use std::marker::Model;

/// Which records of a batch hold which sets, and which items there are. It is seen as these records.
#[derive(Drop)]
pub(crate) struct Batch {
    sets: RecordSets,
    totals: Totals,
}

impl Model for Batch {
    ghost use Rattle.std.specs.Prelude.{◌≡◌, List, ℕ, ℤ};
    ghost use Rattle.hu_totals.specs.Totals.{item_totals};

    ghost Value = { List (List (ℕ × ℤ)) };

    ghost view = { λ b. b.sets };

    ghost invariant = { λ b. b.totals ≡ item_totals b.sets };
}

impl Batch {
    /// The batch of a base's records. It takes a copy of the items of each cell, one sort of these, and a look-up in a
    /// hash table for each.
    pub(crate) fn of(alloc: Global, base: &Base<Record>) -> Result<Batch, NoMemory>
        ensures { IfOk result (λ batch. batch ≡ records_of base.now) }
    {
        Ok(Batch {
            sets: RecordSets::of(alloc, base)?,
            totals: Totals::of(alloc, base)?,
        })
    }

    /// Which of its records hold which sets.
    pub(crate) fn sets(&self) -> &RecordSets
        ensures { result.now ≡ self.now }
    {
        &self.sets
    }

    /// Whether one of its records holds an item, by a look-up in a hash table.
    pub(crate) fn has(&self, item: Item) -> bool
        ensures { result ≡ occurs_in self.now item.0 }
    {
        self.totals.item(item).is_some()
    }

    /// How many items its records hold.
    pub(crate) fn len(&self) -> usize
        ensures { result ≡ length (batch_items self.now) }
    {
        self.totals.len()
    }

    /// The item at a place, counted from 0 in first-seen order.
    pub(crate) fn item(&self, index: usize) -> Item
        requires { index < length (batch_items self.now) }
        ensures { result.0 ≡ slice_index (batch_items self.now) index }
    {
        match self.totals.at(index) {
            Some((item, _)) => item,
            None => unreachable!(),
        }
    }
}
