//! Rows with the cells of some ranks alone.

ghost use Rattle.std.specs.Prelude.{◌≡◌, ◌==◌, ◌<◌, ◌++◌, [], ◌∷◌, length, if◌then◌else◌, IfOk, OnOk};
ghost use Rattle.std.specs.List.{AllByRecursion};
ghost use Rattle.hu_kind.specs.Record.{items_in};
ghost use Rattle.hu_totals.specs.View.{cells_of};
ghost use Rattle.hu_rows.specs.Rows.{ranks_of};
ghost use Rattle.hu_rows.specs.Tally.{AreBelow};
ghost use Rattle.hu_rows.specs.Handed.{reaches, only, narrowed, narrowed_row};
ghost use Rattle.hu_rows.specs.View.{row_of, rows_of};

use crate::rows::{Row, Rows};
use crate::tally::Tallies;
use bumpalo::Bump;
use hu_kind::NoMemory;
use hu_totals::Dense;
use std::alloc::Global;

/// The rows with just the cells of ranks whose bound reaches a floor, without the rows that have fewer than two of these.
/// A row that loses no cell borrows its cells, others have new ones in the arena. It reads each cell once.
pub fn narrow<'a, 'b: 'a>(
    alloc: Global,
    rows: &Rows<'b>,
    tallies: &Tallies,
    floor: i128,
    arena: &'a Bump<Global>,
) -> Result<Rows<'a>, NoMemory>
    requires below { AreBelow (length tallies.now) rows.now }
    ensures { IfOk result (λ answer. answer ≡ narrowed (reaches tallies.now floor) rows.now) }
{
    let narrowed = narrowed_rows(alloc, rows.rows(), tallies, floor, arena)?;
    Ok(Rows::over(arena.try_alloc_slice_copy(narrowed.as_slice())?))
}

/// Rows with the cells that are kept, where these are two or more.
fn narrowed_rows<'a, 'b: 'a>(
    alloc: Global,
    rows: &[Row<'b>],
    tallies: &Tallies,
    floor: i128,
    arena: &'a Bump<Global>,
) -> Result<Vec<Row<'a>>, NoMemory>
    requires below { AreBelow (length tallies.now) (rows_of rows.now) }
    ensures { IfOk result (λ answer. rows_of answer.items
        ≡ narrowed (reaches tallies.now floor) (rows_of rows.now)) }
{
    let mut narrowed = Vec::new(alloc);
    let mut kept = Vec::new(alloc);
    for row in rows {
        push_narrowed(&mut narrowed, &mut kept, row, tallies, floor, arena)?;
    }
    Ok(narrowed)
}

/// Appends a row with the cells that are kept, where these are two or more. `kept` is room for them.
fn push_narrowed<'a, 'b: 'a>(
    narrowed: &mut Vec<Row<'a>>,
    kept: &mut Vec<Dense>,
    row: &Row<'b>,
    tallies: &Tallies,
    floor: i128,
    arena: &'a Bump<Global>,
) -> Result<(), NoMemory>
    requires below { AllByRecursion (λ rank. rank < length tallies.now)
        (ranks_of (row_of row.now)) }
    ensures { OnOk result (rows_of narrowed.new.items ≡ rows_of narrowed.old.items
        ++ narrowed_row (reaches tallies.now floor) (row_of row.now)) }
{
    keep_cells(kept, row.cells, tallies, floor)?;
    if kept.len() > 1 {
        narrowed.push(Row {
            before: row.before,
            count: row.count,
            cells: cells_in(kept.as_slice(), row.cells, arena)?,
        })?;
    }
    Ok(())
}

/// The cells that are kept of some cells: these themselves where all are.
fn cells_in<'a, 'b: 'a>(
    kept: &[Dense],
    cells: &'b [Dense],
    arena: &'a Bump<Global>,
) -> Result<&'a [Dense], NoMemory>
    ensures { IfOk result
        (λ r. r.now ≡ (if length kept.now == length cells.now then cells.now else kept.now)) }
{
    if kept.len() == cells.len() {
        return Ok(cells);
    }
    Ok(arena.try_alloc_slice_copy(kept)?)
}

/// Makes a list that of the cells whose ranks reach a floor.
fn keep_cells(
    kept: &mut Vec<Dense>,
    cells: &[Dense],
    tallies: &Tallies,
    floor: i128,
) -> Result<(), NoMemory>
    requires below { AllByRecursion (λ rank. rank < length tallies.now)
        (items_in (cells_of cells.now)) }
    ensures { OnOk result (cells_of kept.new.items ≡ only (reaches tallies.now floor)
        (cells_of cells.now)) }
{
    kept.clear();
    for cell in cells {
        push_cell(kept, *cell, tallies.reaches(cell.rank, floor))?;
    }
    Ok(())
}

/// Appends a cell that is kept.
fn push_cell(kept: &mut Vec<Dense>, cell: Dense, is_kept: bool) -> Result<(), NoMemory>
    ensures { OnOk result (kept.new.items ≡ kept.old.items ++ (if is_kept then cell ∷ [] else [])) }
{
    if is_kept {
        kept.push(cell)?;
    }
    Ok(())
}
