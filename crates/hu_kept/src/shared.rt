//! What records share with a batch.

ghost use Rattle.std.specs.Prelude.{◌≡◌, ◌+◌, ◌<◌, ◌^◌, ◌++◌, ◌∷◌, [], length, slice_index_or, IfOk, OnOk};
ghost use Rattle.std.specs.List.{sum_by};
ghost use Rattle.hu_kind.specs.Cell.{pair_of, pairs_of};
ghost use Rattle.hu_kind.specs.Record.{absolute_of, IsRecord};
ghost use Rattle.hu_base.specs.Base.{carried_of, records_of, sum_of};
ghost use Rattle.hu_kept.specs.Holders.{AreHolders};
ghost use Rattle.hu_kept.specs.Shared.{shared, shared_cells, some_of};

use crate::batch::Batch;
use hu_base::Base;
use hu_kind::{Cell, NoMemory, Record};
use std::alloc::Global;

/// The records of a base, of which only the cells with items of a batch are left. The records that have such cells stand at
/// these places; no others are looked at. One look-up in a hash table for each of their cells.
pub(crate) fn shared(
    alloc: Global,
    base: &Base<Record>,
    places: &[usize],
    batch: &Batch,
) -> Result<Base<Record>, NoMemory>
    requires { AreHolders batch.now (records_of base.now) places.now }
    ensures { IfOk result (λ narrow. records_of narrow ≡ shared batch.now (records_of base.now)) }
{
    // This tells the proof that no sum overflows.
    let _sum = base.sum();
    let mut narrow = Base::after(alloc, 0);
    for place in places {
        let cells = shared_at(alloc, base.records(), *place, batch)?;
        add_some(&mut narrow, cells)?;
    }
    Ok(narrow)
}

/// The cells with items of a batch of the record at a place, none where there is no record.
fn shared_at(
    alloc: Global,
    records: &[Record],
    place: usize,
    batch: &Batch,
) -> Result<Vec<Cell>, NoMemory>
    ensures value { IfOk result (λ cells. pairs_of cells.items ≡ shared_cells batch.now
        (slice_index_or records.now place [])) }
    ensures rules { IfOk result (λ cells. 0 < length cells.items → IsRecord (pairs_of cells.items)) }
{
    match records.get(place) {
        Some(one) => shared_cells(alloc, one.cells(), batch),
        None => Ok(Vec::new(alloc)),
    }
}

/// The cells with items of a batch.
fn shared_cells(alloc: Global, cells: &[Cell], batch: &Batch) -> Result<Vec<Cell>, NoMemory>
    ensures { IfOk result (λ shared. pairs_of shared.items ≡ shared_cells batch.now
        (pairs_of cells.now)) }
{
    let mut shared = Vec::new(alloc);
    for cell in cells {
        push_shared(&mut shared, cell, batch)?;
    }
    Ok(shared)
}

/// Appends a cell, if its item is one of a batch.
fn push_shared(cells: &mut Vec<Cell>, cell: &Cell, batch: &Batch) -> Result<(), NoMemory>
    ensures { OnOk result (pairs_of cells.new.items ≡ pairs_of cells.old.items
        ++ shared_cells batch.now (pair_of cell.now ∷ [])) }
{
    if batch.has(cell.item) {
        cells.push(*cell)?;
    }
    Ok(())
}

/// Adds the record of cells, if there are any.
fn add_some(base: &mut Base<Record>, cells: Vec<Cell>) -> Result<(), NoMemory>
    requires rules { 0 < length cells.items → IsRecord (pairs_of cells.items) }
    requires fits { sum_of absolute_of base.old + absolute_of (pairs_of cells.items) < 2 ^ 127 }
    ensures records { OnOk result (records_of base.new ≡ records_of base.old
        ++ some_of (pairs_of cells.items)) }
    ensures carried { OnOk result (carried_of base.new ≡ carried_of base.old) }
{
    match Record::new(cells) {
        Some(one) => base.add_fitting(one),
        None => Ok(()),
    }
}
