//! Rows: the records that hold a prefix, and what one more item makes of them.

ghost use Rattle.std.specs.Prelude.{◌≡◌, ◌<◌, ◌≤◌, ◌^◌, [], map, length, IfOk, OnOk};
ghost use Rattle.std.specs.List.{sum_by};
ghost use Rattle.hu_kind.specs.Cell.{pairs_of};
ghost use Rattle.hu_kind.specs.Record.{items_in, absolute_of};
ghost use Rattle.hu_kind.specs.Order.{Ascend};
ghost use Rattle.hu_collect.specs.Laws.{SameMembers};
ghost use Rattle.hu_plain.specs.Row.{earned, grown_row, weight_of, AreRows};
ghost use Rattle.hu_plain.specs.View.{row_of, rows_of, rows_in, first_row, Appends};

use hu_kind::{Cell, Item, NoMemory, Record, cells_below};
use std::alloc::Global;

/// A record that holds a prefix, or an itemset in which a sequence ends: what the prefix earns there, and the cells
/// after it.
#[derive(Clone, Copy)]
pub(crate) struct Row<'a> {
    pub earned: i128,
    pub tail: &'a [Cell],
}

impl<'a> Row<'a> {
    /// The row of the prefix with an item more, where the tail holds it.
    pub(crate) fn grown(&self, item: Item) -> Option<Row<'a>>
        requires ascending { Ascend (items_in (pairs_of self.now.tail.now)) }
        requires sum_fits { weight_of (row_of self.now) < 2 ^ 127 }
        ensures { rows_in result ≡ grown_row item.0 self.now.earned (pairs_of self.now.tail.now) }
    {
        let place = cells_below(self.tail, item);
        let cell = self.tail.get(place)?;
        if cell.item != item {
            return None;
        }
        Some(Row {
            earned: self.earned + cell.value,
            tail: &self.tail[place + 1..],
        })
    }
}

/// The rows of the empty prefix: each record with all its cells.
pub(crate) fn first_rows(alloc: Global, records: &[Record]) -> Result<Vec<Row<'_>>, NoMemory>
    requires { sum_by absolute_of records.now < 2 ^ 127 }
    ensures value { IfOk result (λ rows. rows_of rows.items ≡ map first_row records.now) }
    ensures rules { IfOk result (λ rows. AreRows (rows_of rows.items)) }
{
    let mut rows = Vec::new(alloc);
    for record in records {
        rows.push(Row {
            earned: 0,
            tail: record.cells(),
        })?;
    }
    Ok(rows)
}

/// The same items, ascending and each once.
pub(crate) fn distinct(items: Vec<Item>) -> Vec<Item>
    ensures { SameMembers items.items result.items }
{
    let mut items = items;
    items.sort_unstable();
    items.dedup();
    items
}

/// Appends the items of cells.
pub(crate) fn push_items(items: &mut Vec<Item>, cells: &[Cell]) -> Result<(), NoMemory>
    ensures { OnOk result
        (Appends items.old.items (items_in (pairs_of cells.now)) items.new.items) }
{
    for cell in cells {
        items.push(cell.item)?;
    }
    Ok(())
}

/// What the prefix earns in all rows.
pub(crate) fn total_earned(rows: &[Row<'_>]) -> i128
    requires { AreRows (rows_of rows.now) }
    ensures { result ≡ earned (rows_of rows.now) [] }
{
    let mut sum = 0;
    for row in rows {
        sum += row.earned;
    }
    sum
}
