//! Rows of the same ranks made one.

ghost use Rattle.std.specs.Prelude.{◌≡◌, ◌<◌, ◌+◌, ◌^◌, ◌+ℤ◌, unsigned_abs, ◌↔◌, IfOk, IsTrue};
ghost use Rattle.std.specs.List.{fold, prefix_len, sum_by};
ghost use Rattle.std.specs.List.Sorted.{IsPermutation, IsSortedBy};
ghost use Rattle.hu_kind.specs.Record.{absolute_of};
ghost use Rattle.hu_totals.specs.View.{dense_pair, cells_of};
ghost use Rattle.hu_rows.specs.Rows.{AreRows, size_of, count_of};
ghost use Rattle.hu_rows.specs.Merging.{row_cmp, added, added_cells, merged, IsMerging};
ghost use Rattle.hu_rows.specs.View.{row_of, rows_of, row_below, same_ranks, sum_of};

use crate::rows::{Row, Rows};
use bumpalo::Bump;
use hu_kind::NoMemory;
use hu_totals::Dense;
use std::alloc::Global;
use std::cmp::Ordering;

/// Rows with those of the same ranks made one, in an arena.
pub(crate) fn merge<'a>(
    alloc: Global,
    mut rows: Vec<Row<'a>>,
    arena: &'a Bump<Global>,
) -> Result<Rows<'a>, NoMemory>
    requires { AreRows (rows_of rows.items) }
    ensures { IfOk result (IsMerging (rows_of rows.entry.items)) }
{
    put_in_order(&mut rows);
    let merged = merge_sorted(alloc, rows.as_slice(), arena)?;
    Ok(Rows::over(arena.try_alloc_slice_copy(merged.as_slice())?))
}

/// Sorts rows by their ranks from the last backwards, where they aren't in this order already.
fn put_in_order(rows: &mut Vec<Row<'_>>)
    ensures permutation { IsPermutation rows.old.items rows.new.items }
    ensures sorted { IsSortedBy row_below rows.new.items }
{
    if !is_in_order(rows) {
        rows.sort_unstable_by(|a, b| compare(a, b));
    }
}

/// Whether rows are in order by their ranks from the last backwards.
fn is_in_order(rows: &[Row<'_>]) -> bool
    ensures { IsTrue result ↔ IsSortedBy row_below rows.now }
{
    for i in 1..rows.len() {
        if compare(&rows[i], &rows[i - 1]) == Ordering::Less {
            return false;
        }
    }
    true
}

/// Compares rows by their ranks from the last backwards.
fn compare(a: &Row<'_>, b: &Row<'_>) -> Ordering
    ensures { result ≡ row_cmp (row_of a.now) (row_of b.now) }
{
    let mut left = a.cells.len();
    let mut right = b.cells.len();
    while left > 0 && right > 0 {
        left -= 1;
        right -= 1;
        match a.cells[left].rank.cmp(&b.cells[right].rank) {
            Ordering::Equal => {}
            order => return order,
        }
    }
    left.cmp(&right)
}

/// Rows with those of the same ranks that stand side by side made one.
fn merge_sorted<'a>(
    alloc: Global,
    rows: &[Row<'a>],
    arena: &'a Bump<Global>,
) -> Result<Vec<Row<'a>>, NoMemory>
    requires { AreRows (rows_of rows.now) }
    ensures { IfOk result (λ answer. rows_of answer.items ≡ merged (rows_of rows.now)) }
{
    let mut merged = Vec::new(alloc);
    let mut start = 0;
    while start < rows.len() {
        let first = rows[start];
        let rest = &rows[start + 1..];
        let same = same_at_front(&first, rest);
        merged.push(merge_run(alloc, first, &rest[..same], arena)?)?;
        start += 1 + same;
    }
    Ok(merged)
}

/// How many rows at the front have the ranks of another.
fn same_at_front(first: &Row<'_>, rest: &[Row<'_>]) -> usize
    ensures { result ≡ prefix_len (same_ranks (row_of first.now)) rest.now }
{
    let mut same = 0;
    while same < rest.len() && compare(first, &rest[same]) == Ordering::Equal {
        same += 1;
    }
    same
}

/// One row of the sums of rows with the same ranks. Its cells are new ones in the arena where there are several rows.
fn merge_run<'a>(
    alloc: Global,
    first: Row<'a>,
    rest: &[Row<'a>],
    arena: &'a Bump<Global>,
) -> Result<Row<'a>, NoMemory>
    requires sizes { size_of (row_of first) + sum_by size_of (rows_of rest.now) < 2 ^ 127 }
    requires counts { first.count + sum_by count_of (rows_of rest.now) < 2 ^ 64 }
    ensures { IfOk result (λ row. row_of row ≡ fold added (row_of first.entry) (rows_of rest.now)) }
{
    if rest.is_empty() {
        return Ok(first);
    }
    let mut sum = RowSum {
        before: first.before,
        count: first.count,
        cells: Vec::from_slice(alloc, first.cells)?,
    };
    for row in rest {
        sum.add(row);
    }
    let cells = arena.try_alloc_slice_copy(&sum.cells)?;
    Ok(Row {
        before: sum.before,
        count: sum.count,
        cells,
    })
}

/// The sums of rows with the same ranks.
#[derive(Drop)]
struct RowSum {
    before: i128,
    count: u64,
    cells: Vec<Dense>,
}

impl RowSum {
    /// Adds a row of the same ranks.
    fn add(&mut self, row: &Row<'_>)
        requires size { size_of (sum_of self.old) + size_of (row_of row.now) < 2 ^ 127 }
        requires count { self.old.count + row.now.count < 2 ^ 64 }
        ensures { sum_of self.new ≡ added (sum_of self.old) (row_of row.now) }
    {
        self.before += row.before;
        self.count += row.count;
        add_cells(&mut self.cells, row.cells);
    }
}

/// Adds the values of cells to those at the same places.
fn add_cells(cells: &mut [Dense], others: &[Dense])
    requires { absolute_of (cells_of cells.old) + absolute_of (cells_of others.now) < 2 ^ 127 }
    ensures { cells_of cells.new ≡ added_cells (cells_of cells.old) (cells_of others.now) }
{
    for i in 0..cells.len().min(others.len()) {
        cells[i] = add_cell(cells[i], others[i]);
    }
}

/// A cell with the value of another added.
fn add_cell(cell: Dense, other: Dense) -> Dense
    requires { unsigned_abs cell.value + unsigned_abs other.value < 2 ^ 127 }
    ensures { dense_pair result ≡ (cell.rank, cell.value +ℤ other.value) }
{
    Dense {
        rank: cell.rank,
        value: cell.value + other.value,
    }
}
