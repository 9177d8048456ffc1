//! Projection by a rank.

ghost use Rattle.std.specs.Prelude.{◌≡◌, ◌<◌, ◌^◌, false, ℕ, List, ◌∷◌, length, slice_index, option_map, option_to_list, IfOk, MatchOption};
ghost use Rattle.std.specs.List.{AllByRecursion, Contains};
ghost use Rattle.hu_kind.specs.Order.{Ascend};
ghost use Rattle.hu_kind.specs.Record.{items_in, has};
ghost use Rattle.hu_totals.specs.View.{cells_of};
ghost use Rattle.hu_rows.specs.Rows.{AreRows, AreApart, over, count_over, ranks_of, ranks_in, size_of};
ghost use Rattle.hu_rows.specs.Projection.{projected, projected_row};
ghost use Rattle.hu_rows.specs.Sums.{AreSums};
ghost use Rattle.hu_rows.specs.View.{row_of, rows_of};

use crate::merge::merge;
use crate::rows::{Row, Rows};
use bumpalo::Bump;
use hu_kind::NoMemory;
use hu_totals::Dense;
use std::alloc::Global;

/// The rows that hold a rank, each with its cells after it and `before` grown by the rank's value; rows of equal ranks
/// are merged. The rank is found by binary search. Rows that stand in the order that this leaves, as those of
/// `Rows::of` and of any projection do, are merged in one pass over their cells; others are sorted first. A row that
/// isn't merged borrows the tail of its parent's cells. After EFIM (Zida and others, 2015).
pub fn project<'a, 'b: 'a>(
    alloc: Global,
    rows: &Rows<'b>,
    z: u32,
    arena: &'a Bump<Global>,
) -> Result<Rows<'a>, NoMemory>
    ensures over { IfOk result (λ answer. (set : List ℕ) → AllByRecursion (λ rank. z < rank) set
        → over answer set ≡ over rows.now (z ∷ set)) }
    ensures count { IfOk result (λ answer. (set : List ℕ) → AllByRecursion (λ rank. z < rank) set
        → count_over answer set ≡ count_over rows.now (z ∷ set)) }
    ensures sums { IfOk result (AreSums (projected z rows.now)) }
    ensures apart { IfOk result AreApart }
    ensures after { IfOk result
        (λ answer. (rank : ℕ) → Contains (ranks_in answer) rank → z < rank) }
    ensures among { IfOk result (λ answer. (rank : ℕ) → Contains (ranks_in answer) rank
        → Contains (ranks_in rows.now) rank) }
{
    merge(alloc, projected_rows(alloc, rows, z)?, arena)
}

/// The rows that hold a rank, projected by it, unmerged.
fn projected_rows<'a, 'b: 'a>(
    alloc: Global,
    rows: &Rows<'b>,
    z: u32,
) -> Result<Vec<Row<'a>>, NoMemory>
    ensures value { IfOk result (λ answer. rows_of answer.items ≡ projected z rows.now) }
    ensures rules { IfOk result (λ answer. AreRows (rows_of answer.items)) }
{
    let mut projected = Vec::new(alloc);
    for row in rows.rows() {
        if let Some(one) = projected_row(row, z) {
            projected.push(one)?;
        }
    }
    Ok(projected)
}

/// A row projected by a rank, where it holds that.
fn projected_row<'a, 'b: 'a>(row: &Row<'b>, z: u32) -> Option<Row<'a>>
    requires ascending { Ascend (ranks_of (row_of row.now)) }
    requires size { size_of (row_of row.now) < 2 ^ 127 }
    ensures { option_to_list (option_map row_of result) ≡ projected_row z (row_of row.now) }
{
    let place = place_of(row.cells, z)?;
    Some(Row {
        before: row.before + row.cells[place].value,
        count: row.count,
        cells: &row.cells[place + 1..],
    })
}

/// Where a rank stands, by binary search.
fn place_of(cells: &[Dense], z: u32) -> Option<usize>
    requires { Ascend (items_in (cells_of cells.now)) }
    ensures { MatchOption result (has z (cells_of cells.now) ≡ false)
        (λ i. (i < length cells.now) × (slice_index (items_in (cells_of cells.now)) i ≡ z)) }
{
    cells.binary_search_by_key(&z, |cell| cell.rank).ok()
}
