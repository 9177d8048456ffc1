//! Records of items, and bases of them.

ghost use Rattle.std.specs.Prelude.{◌≡◌, ◌↔◌, IfOk, IfSome, IsSome, map};
ghost use Rattle.hu_kind.specs.Cell.{pairs_of};
ghost use Rattle.hu_kind.specs.Record.{IsRecord};

use hu_base::{AddFault, Base};
use hu_kind::{Cell, Item, NoMemory, Record};
use std::alloc::Global;

/// Five records over seven items. Over the ranks of floor 30 its items are 6, 7, 4, 2, 1, 5 and 3.
pub const BASE_A: [&[(u32, i128)]; 5] = [
    &[(1, 5), (2, 10), (3, 1), (4, 6), (5, 3), (6, 5)],
    &[(2, 8), (3, 3), (4, 6), (5, 3)],
    &[(1, 5), (3, 1), (4, 2)],
    &[(1, 10), (3, 6), (5, 6), (7, 5)],
    &[(2, 4), (3, 2), (5, 3), (7, 2)],
];

/// Records that gain 3, 11 and 5, with a value below 0. Over the ranks of floor 1 its items are 1, 3 and 2.
pub const SIGNED: [&[(u32, i128)]; 3] = [
    &[(1, -10), (2, 3)],
    &[(1, 4), (2, 1), (3, 6)],
    &[(2, 2), (3, 3)],
];

/// Cells of these items with their values, in linear time.
pub(crate) fn cells_of(alloc: Global, pairs: &[(u32, i128)]) -> Result<Vec<Cell>, NoMemory>
    ensures { IfOk result (λ cells. pairs_of cells.items ≡ pairs.now) }
{
    let mut cells = Vec::new(alloc);
    'pairs: for (item, value) in pairs {
        cells.push(Cell {
            item: Item(*item),
            value: *value,
        })?;
    }
    Ok(cells)
}

/// The record of these items with their values, or nothing where they break a rule of records. Linear time.
pub fn record_of(alloc: Global, pairs: &[(u32, i128)]) -> Result<Option<Record>, NoMemory>
    ensures valid { IfOk result (λ made. IsSome made ↔ IsRecord pairs.now) }
    ensures value { IfOk result (λ made. IfSome made (λ one. one ≡ pairs.now)) }
{
    Ok(Record::new(cells_of(alloc, pairs)?))
}

/// The base of these records, or nothing where some of them break a rule of records. Linear time.
pub fn base_of(alloc: Global, records: &[&[(u32, i128)]]) -> Result<Option<Base<Record>>, AddFault>
    ensures { IfOk result (λ made. IfSome made (λ base. base
        ≡ (0, map (λ pairs. pairs.now) records.now))) }
{
    let mut base = Base::after(alloc, 0);
    'records: for pairs in records {
        match record_of(alloc, pairs)? {
            Some(record) => base.add(record)?,
            None => return Ok(None),
        }
    }
    Ok(Some(base))
}
