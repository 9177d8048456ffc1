//! The rows that items make of the rows of a prefix, found by item.

ghost use Rattle.std.specs.Prelude.{◌≡◌, ◌==◌, ◌+◌, ◌<◌, ◌≤◌, ◌^◌, ◌∷◌, ◌++◌, map, length, filter, IfOk, OnOk};
ghost use Rattle.std.specs.List.Sorted.{IsNonDecreasingBy};
ghost use Rattle.hu_collect.specs.Laws.{SameMembers};
ghost use Rattle.hu_plain.specs.Grown.{grown_from, item_at, pairs_with, AreBelow, AreUpto, made_of, pair_with, AreGrown};
ghost use Rattle.hu_plain.specs.Row.{weight_of, AreRows};
ghost use Rattle.hu_plain.specs.View.{row_of, rows_of, numbers_of};

use crate::row::Row;
use hu_kind::{Item, NoMemory};
use std::alloc::Global;

/// A row that an item makes of a row of a prefix.
#[derive(Clone, Copy)]
pub(crate) struct Grown<'a> {
    pub item: Item,
    pub row: Row<'a>,
}

/// The rows that all items make, by item, those of one item in the order of the rows. One stable sort.
pub(crate) fn all_grown<'a>(alloc: Global, rows: &[Row<'a>]) -> Result<Vec<Grown<'a>>, NoMemory>
    requires { AreRows (rows_of rows.now) }
    ensures { IfOk result (λ grown. AreGrown (rows_of rows.now) grown.items) }
{
    let mut grown = Vec::new(alloc);
    for row in rows {
        push_grown(&mut grown, row)?;
    }
    grown.sort_by_key(|one| one.item.0)?;
    Ok(grown)
}

/// Appends the rows that its items make of a row.
fn push_grown<'a>(grown: &mut Vec<Grown<'a>>, row: &Row<'a>) -> Result<(), NoMemory>
    requires { weight_of (row_of row.now) < 2 ^ 127 }
    ensures { OnOk result (pairs_with grown.new.items ≡ pairs_with grown.old.items
        ++ grown_from row.now 0) }
{
    for place in 0..row.tail.len() {
        grown.push(grown_at(row, place))?;
    }
    Ok(())
}

/// The row that the cell at a place makes.
fn grown_at<'a>(row: &Row<'a>, place: usize) -> Grown<'a>
    requires within { place < length row.now.tail.now }
    requires fits { weight_of (row_of row.now) < 2 ^ 127 }
    ensures { pair_with result ∷ grown_from row.now (place + 1) ≡ grown_from row.now place }
{
    let cell = row.tail[place];
    Grown {
        item: cell.item,
        row: Row {
            earned: row.earned + cell.value,
            tail: &row.tail[place + 1..],
        },
    }
}

/// The items of grown rows, each once where they stand by item.
pub(crate) fn items_of(alloc: Global, grown: &[Grown<'_>]) -> Result<Vec<Item>, NoMemory>
    ensures { IfOk result (λ items. SameMembers (map item_at grown.now) (numbers_of items.items)) }
{
    let mut items = Vec::new(alloc);
    for one in grown {
        items.push(one.item)?;
    }
    items.dedup();
    Ok(items)
}

/// The rows that an item makes. They are found by halves.
pub(crate) fn grown_rows<'a>(
    alloc: Global,
    grown: &[Grown<'a>],
    item: Item,
) -> Result<Vec<Row<'a>>, NoMemory>
    requires { IsNonDecreasingBy item_at grown.now }
    ensures { IfOk result (λ rows. rows_of rows.items ≡ made_of item.0 grown.now) }
{
    let mut rows = Vec::new(alloc);
    for one in grown_by(grown, item) {
        rows.push(one.row)?;
    }
    Ok(rows)
}

/// The grown rows of an item.
fn grown_by<'b, 'a>(grown: &'b [Grown<'a>], item: Item) -> &'b [Grown<'a>]
    requires { IsNonDecreasingBy item_at grown.now }
    ensures { result.now ≡ filter (λ one. item.0 == one.item.0) grown.now }
{
    &grown[count_below(grown, item)..count_upto(grown, item)]
}

/// How many of their items are below an item.
fn count_below(grown: &[Grown<'_>], item: Item) -> usize
    requires { IsNonDecreasingBy item_at grown.now }
    ensures bound { result ≤ length grown.now }
    ensures splits { AreBelow item.0 grown.now result }
{
    grown.partition_point(|one| one.item.0 < item.0)
}

/// How many of their items are not above an item.
fn count_upto(grown: &[Grown<'_>], item: Item) -> usize
    requires { IsNonDecreasingBy item_at grown.now }
    ensures bound { result ≤ length grown.now }
    ensures splits { AreUpto item.0 grown.now result }
{
    grown.partition_point(|one| one.item.0 <= item.0)
}
