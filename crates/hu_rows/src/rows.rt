//! Rows over ranks.

ghost use Rattle.std.specs.Prelude.{◌≡◌, ◌↔◌, ◌+◌, ◌<◌, ◌^◌, ℕ, unsigned_abs, List, [], ◌∷◌, ◌++◌, map, length, IfOk, OnOk, IsSome, IfSome, SomeIff, IsTrue};
ghost use Rattle.std.specs.List.{All, AllAdjacentBelow, sum_by};
ghost use Rattle.hu_kind.specs.Database.{utility, support};
ghost use Rattle.hu_totals.specs.Ranked.{IsRanking};
ghost use Rattle.hu_rows.specs.Rows.{AreRows, AreApart, AreCounted, over, count_over, size_of, count_of, unmerged};
ghost use Rattle.hu_rows.specs.Sums.{AreSums};
ghost use Rattle.hu_rows.specs.Tally.{AreBelow};
ghost use Rattle.hu_rows.specs.View.{row_of, row_with, rows_of, KeepRules};

use crate::merge::merge;
use bumpalo::Bump;
use hu_kind::NoMemory;
use hu_totals::{Dense, Ranked};
use std::alloc::Global;
use std::marker::Model;

/// A record over ranks, or several with the same ranks, without the ranks of a prefix.
#[derive(Clone, Copy)]
pub struct Row<'a> {
    /// What the prefix earned in it.
    pub before: i128,
    /// For how many records it stands.
    pub count: u64,
    /// The other cells, by rank ascending. Where there are several records their values are summed.
    pub cells: &'a [Dense],
}

/// Rows: ranks ascend strictly in each, the absolute values of all `before` and cells sum to at most 2^127 - 1, and all
/// counts to at most 2^64 - 1. They are seen as the list of (before, count, cells), cells as pairs (rank, value).
#[derive(Drop)]
pub struct Rows<'a> {
    rows: &'a [Row<'a>],
}

impl<'a> Model for Rows<'a> {
    ghost use Rattle.std.specs.Prelude.{List};
    ghost use Rattle.hu_rows.specs.Rows.{RowOf, AreRows};
    ghost use Rattle.hu_rows.specs.View.{rows_of};

    ghost Value = { List RowOf };

    ghost view = { λ r. rows_of r.rows.now };

    ghost invariant = { λ r. AreRows (rows_of r.rows.now) };
}

impl<'a> Rows<'a> {
    /// No row.
    pub fn none() -> Rows<'a>
        ensures value { result ≡ [] }
    {
        Rows { rows: &[] }
    }

    /// The rows.
    pub fn rows(&self) -> &'a [Row<'a>]
        ensures value { rows_of result.now ≡ self.now }
        ensures rules { AreRows self.now }
    {
        self.rows
    }

    /// These rows and then one more, unmerged, or nothing where they break a rule of the type. It takes time for each
    /// cell.
    pub fn more(
        &self,
        alloc: Global,
        before: i128,
        count: u64,
        cells: &'a [Dense],
        arena: &'a Bump<Global>,
    ) -> Result<Option<Rows<'a>>, NoMemory>
        ensures valid { IfOk result (λ rows. IsSome rows ↔ AreRows
            (self.now ++ row_with before count cells.now ∷ [])) }
        ensures value { IfOk result
            (λ rows. IfSome rows (λ r. r ≡ self.now ++ row_with before count cells.now ∷ [])) }
    {
        let row = Row {
            before,
            count,
            cells,
        };
        let rows = with_row(alloc, self.rows, row)?;
        if !are_rows(rows.as_slice()) {
            return Ok(None);
        }
        Ok(Some(Rows::over(arena.try_alloc_slice_copy(rows.as_slice())?)))
    }

    /// These rows, which keep the rules of the type.
    pub(crate) fn over(rows: &'a [Row<'a>]) -> Rows<'a>
        requires { AreRows (rows_of rows.now) }
        ensures { result ≡ rows_of rows.now }
    {
        Rows { rows }
    }

    /// The records of a ranked base, those of the same ranks merged. It takes one sort of the records, by their ranks.
    pub fn of(
        alloc: Global,
        ranked: &'a Ranked,
        arena: &'a Bump<Global>,
    ) -> Result<Rows<'a>, NoMemory>
        ensures over { IfOk result
            (λ rows. (set : List ℕ) → over rows set ≡ utility ranked.now.records set) }
        ensures count { IfOk result (λ rows. (set : List ℕ) → count_over rows set
            ≡ support ranked.now.records set) }
        ensures sums { IfOk result (AreSums (map unmerged ranked.now.records)) }
        ensures apart { IfOk result AreApart }
        ensures rules { IfOk result AreRows }
        ensures counted { IfOk result AreCounted }
        ensures ranks { IfOk result (AreBelow (length ranked.now.items)) }
    {
        merge(alloc, ranked_rows(alloc, ranked)?, arena)
    }
}

/// Rows and then one more.
fn with_row<'a>(alloc: Global, rows: &[Row<'a>], row: Row<'a>) -> Result<Vec<Row<'a>>, NoMemory>
    ensures { IfOk result
        (λ answer. rows_of answer.items ≡ rows_of rows.now ++ row_of row.entry ∷ []) }
{
    let mut answer = Vec::from_slice(alloc, rows)?;
    answer.push(row)?;
    Ok(answer)
}

/// A row for each record.
fn ranked_rows<'a>(alloc: Global, ranked: &'a Ranked) -> Result<Vec<Row<'a>>, NoMemory>
    ensures value { IfOk result (λ rows. rows_of rows.items ≡ map unmerged ranked.now.records) }
    ensures rules { IfOk result (λ rows. AreRows (rows_of rows.items)) }
    ensures ranking { IsRanking ranked.now }
{
    let mut rows = Vec::new(alloc);
    for record in ranked.records() {
        rows.push(Row {
            before: 0,
            count: 1,
            cells: record.as_slice(),
        })?;
    }
    Ok(rows)
}

/// Whether rows keep the rules of the type.
fn are_rows(rows: &[Row<'_>]) -> bool
    ensures { IsTrue result ↔ KeepRules rows.now }
{
    all_ascend(rows) && total_size(rows).is_some() && total_count(rows).is_some()
}

/// Whether ranks ascend strictly in each row.
fn all_ascend(rows: &[Row<'_>]) -> bool
    ensures { IsTrue result
        ↔ All (λ row. AllAdjacentBelow (λ a b. a.rank < b.rank) row.cells.now
        (length row.cells.now)) rows.now }
{
    rows.iter().all(|row| ascends(row.cells))
}

/// Whether ranks ascend strictly.
fn ascends(cells: &[Dense]) -> bool
    ensures { IsTrue result ↔ AllAdjacentBelow (λ a b. a.rank < b.rank) cells.now
        (length cells.now) }
{
    for i in 1..cells.len() {
        if cells[i].rank <= cells[i - 1].rank {
            return false;
        }
    }
    true
}

/// The absolute values of all `before` and cells together, where they are at most 2^127 - 1.
fn total_size(rows: &[Row<'_>]) -> Option<u128>
    ensures { SomeIff result (sum_by size_of (rows_of rows.now) < 2 ^ 127)
        (sum_by size_of (rows_of rows.now)) }
{
    let mut total = 0;
    for row in rows {
        total = size_after(total, row)?;
    }
    Some(total)
}

/// A sum with the absolute values of a row, where that is at most 2^127 - 1.
fn size_after(sum: u128, row: &Row<'_>) -> Option<u128>
    requires { sum < 2 ^ 127 }
    ensures { SomeIff result (sum + size_of (row_of row.now) < 2 ^ 127)
        (sum + size_of (row_of row.now)) }
{
    let mut total = plus(sum, row.before)?;
    for cell in row.cells {
        total = plus(total, cell.value)?;
    }
    Some(total)
}

/// A sum with an absolute value, where that is at most 2^127 - 1.
fn plus(sum: u128, value: i128) -> Option<u128>
    requires { sum < 2 ^ 127 }
    ensures { SomeIff result (sum + unsigned_abs value < 2 ^ 127) (sum + unsigned_abs value) }
{
    let total = sum + value.unsigned_abs();
    if total > i128::MAX as u128 {
        return None;
    }
    Some(total)
}

/// All counts together, where they are at most 2^64 - 1.
fn total_count(rows: &[Row<'_>]) -> Option<u64>
    ensures { SomeIff result (sum_by count_of (rows_of rows.now) < 2 ^ 64)
        (sum_by count_of (rows_of rows.now)) }
{
    let mut total = 0u64;
    for row in rows {
        total = total.checked_add(row.count)?;
    }
    Some(total)
}
