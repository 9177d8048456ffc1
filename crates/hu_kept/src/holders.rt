//! Which records hold which items, noted as records come.

ghost use Rattle.std.specs.Prelude.{◌≡◌, ℕ, ◌≤◌, ◌<◌, pos, [], true, length, take, slice_index_or, IfOk, OnOk};
ghost use Rattle.std.specs.List.{Contains};
ghost use Rattle.std.specs.List.Sorted.{IsStrictlyIncreasing};
ghost use Rattle.hu_kind.specs.Cell.{pairs_of};
ghost use Rattle.hu_kind.specs.Record.{has};
ghost use Rattle.hu_base.specs.Base.{records_of};
ghost use Rattle.hu_closed.specs.Places.{places_at};
ghost use Rattle.hu_kept.specs.Holders.{IsFront, IsListed, ListsAll};
ghost use Rattle.hu_kept.specs.Shared.{occurs_in};

use crate::batch::Batch;
use hu_base::Base;
use hu_closed::Places;
use hu_kind::{Cell, NoMemory, Record};
use std::alloc::Global;
use std::marker::Model;
use std::snapshot::Snapshot;

/// For each item that was seen the places of the records that hold it. It is seen as the records that are noted.
#[derive(Drop)]
pub(crate) struct Holders {
    places: Places,
    upto: usize,
    seen: Snapshot<Base<Record>>,
}

impl Model for Holders {
    ghost use Rattle.std.specs.Prelude.{List, ℕ, ℤ};
    ghost use Rattle.hu_base.specs.Base.{records_of};
    ghost use Rattle.hu_kept.specs.Holders.{AreNoted};

    ghost Value = { List (List (ℕ × ℤ)) };

    ghost view = { λ h. records_of h.seen.value };

    ghost invariant = { λ h. AreNoted (records_of h.seen.value) h.upto h.places };
}

impl Holders {
    /// The holders of no records. It takes no memory.
    pub(crate) fn none(alloc: Global) -> Holders
        ensures { result ≡ [] }
    {
        Holders {
            places: Places::none(alloc),
            upto: 0,
            seen: Snapshot::of(&Base::after(alloc, 0)),
        }
    }

    /// Notes the records of a base, of which the first are noted: a look-up in a hash table for each cell of the others.
    fn noting(self, alloc: Global, base: &Base<Record>) -> Result<Holders, NoMemory>
        requires { IsFront self (records_of base.now) }
        ensures { IfOk result (λ holders. holders ≡ records_of base.now) }
    {
        let Holders { places, upto, .. } = self;
        Ok(Holders {
            places: all_listed(places, alloc, base.records(), upto)?,
            upto: base.records().len(),
            seen: Snapshot::of(base),
        })
    }

    /// Notes the records of a base, of which the first are noted, in place. After want of memory none is noted.
    pub(crate) fn note(&mut self, alloc: Global, base: &Base<Record>) -> Result<(), NoMemory>
        requires { IsFront self.old (records_of base.now) }
        ensures front { IsFront self.new (records_of base.now) }
        ensures ok { OnOk result (self.new ≡ records_of base.now) }
    {
        let holders = std::mem::replace(self, Holders::none(alloc));
        *self = holders.noting(alloc, base)?;
        Ok(())
    }

    /// The places of the noted records that hold an item of a batch, and those of the records after them, below `upto`. They
    /// rise.
    pub(crate) fn places(
        &self,
        alloc: Global,
        batch: &Batch,
        upto: usize,
    ) -> Result<Vec<usize>, NoMemory>
        ensures rising { IfOk result (λ places. IsStrictlyIncreasing places.items) }
        ensures held { IfOk result (λ places. (place item : ℕ) → occurs_in batch.now item ≡ true
            → has item (slice_index_or self.now place []) ≡ true → Contains places.items place) }
        ensures later { IfOk result (λ places. (place : ℕ) → length self.now ≤ place
            → place < upto → Contains places.items place) }
    {
        let mut places = held_places(alloc, &self.places, batch)?;
        add_range(&mut places, self.upto, upto)?;
        places.sort_unstable();
        places.dedup();
        Ok(places)
    }
}

/// The places of items with those of the records from a place on.
fn all_listed(
    places: Places,
    alloc: Global,
    records: &[Record],
    from: usize,
) -> Result<Places, NoMemory>
    requires { ListsAll (take from records.now) places }
    ensures { IfOk result (ListsAll records.now) }
{
    let mut places = places;
    for place in from..records.len() {
        list_cells(&mut places, alloc, records[place].cells(), place)?;
    }
    Ok(places)
}

/// Adds a place for each item of some cells.
fn list_cells(
    places: &mut Places,
    alloc: Global,
    cells: &[Cell],
    place: usize,
) -> Result<(), NoMemory>
    ensures { OnOk result (IsListed places.old (pairs_of cells.now) place places.new) }
{
    for cell in cells {
        places.add(alloc, i64::from(cell.item.0), place)?;
    }
    Ok(())
}

/// The places of the items of a batch, item by item.
fn held_places(alloc: Global, listed: &Places, batch: &Batch) -> Result<Vec<usize>, NoMemory>
    ensures { IfOk result (λ places. (place item : ℕ) → occurs_in batch.now item ≡ true
        → Contains (places_at listed.now (pos item)) place → Contains places.items place) }
{
    let mut places = Vec::new(alloc);
    for index in 0..batch.len() {
        places.extend_from_slice(listed.of(i64::from(batch.item(index).0)))?;
    }
    Ok(places)
}

/// Appends the places from one on, below another.
fn add_range(places: &mut Vec<usize>, from: usize, upto: usize) -> Result<(), NoMemory>
    ensures kept { OnOk result ((place : ℕ) → Contains places.old.items place
        → Contains places.new.items place) }
    ensures range { OnOk result ((place : ℕ) → from ≤ place → place < upto
        → Contains places.new.items place) }
{
    for place in from..upto {
        places.push(place)?;
    }
    Ok(())
}
