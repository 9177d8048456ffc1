//! What the numbers of a line say.

ghost use Rattle.std.specs.Prelude.{◌≡◌, ◌≤◌, ◌⊎◌, length, zip, Ok, Err, IfOk, IfErr};
ghost use Rattle.std.specs.List.{All};
ghost use Rattle.hu_kind.specs.Cell.{pairs_of};
ghost use Rattle.hu_kind.specs.Record.{IsRecord};
ghost use Rattle.hu_trans.specs.Reading.{judged};

use crate::checks::{checked_sum, item_fault};
use crate::fault::Fault;
use hu_kind::{Cell, Item, NoMemory, Record, ordered_cells};
use std::alloc::Global;

/// The record of the items with their utilities, or the first thing that is wrong with these numbers.
pub fn judge(
    alloc: Global,
    items: &[u128],
    stated: i128,
    utilities: &[i128],
) -> Result<Record, Fault>
    requires few_items { length items.now ≤ 1048576 }
    requires few_utilities { length utilities.now ≤ 1048576 }
    ensures ok { IfOk result (λ one. judged items.now stated utilities.now ≡ Ok one) }
    ensures err { IfErr result (λ fault. (fault ≡ Fault.NoMemory)
        ⊎ (judged items.now stated utilities.now ≡ Err fault)) }
{
    if let Some(fault) = item_fault(items, utilities) {
        return Err(fault);
    }
    let cells = cells_of(alloc, items, utilities)?;
    let sum = checked_sum(stated, &cells);
    let cells = match ordered_cells(cells) {
        Ok(cells) => cells,
        Err(item) => return Err(Fault::DuplicateItem { item }),
    };
    match sum {
        Ok(absolute) => Ok(Record::with_sum(cells, absolute)),
        Err(fault) => Err(fault),
    }
}

/// The cells of items with their utilities beside them.
fn cells_of(alloc: Global, items: &[u128], utilities: &[i128]) -> Result<Vec<Cell>, NoMemory>
    requires in_range { All (λ item. item ≤ 2147483647) items.now }
    requires same { length items.now ≡ length utilities.now }
    ensures { IfOk result (λ cells. pairs_of cells.items ≡ zip items.now utilities.now) }
{
    let mut cells = Vec::with_capacity(alloc, items.len())?;
    for (item, value) in items.iter().zip(utilities) {
        cells.push(Cell {
            item: Item(*item as u32),
            value: *value,
        })?;
    }
    Ok(cells)
}
