//! Walks over the cells of a trail behind a place, by which a pattern grows.

ghost use Rattle.std.specs.Prelude.{◌≡◌, ◌++◌, ◌^◌, ◌+◌, ◌<◌, ◌+ℤ◌, ◌-ℤ◌, length, reverse, OnOk};
ghost use Rattle.std.specs.List.{AllByRecursion};
ghost use Rattle.hu_chain.specs.Bound.{IsFit};
ghost use Rattle.hu_span.specs.Mark.{places_of};
ghost use Rattle.hu_span.specs.Trail.{behind_element, best_before, in_element, left_before, mark_of, row_beside, row_later, row_spans, trail_beside, trail_marks, trail_spans, values_in};

use crate::mark::Mark;
use crate::rows::Row;
use crate::trail::{Held, Span, TrailCell};
use hu_chain::Place;
use hu_kind::NoMemory;

/// Appends the marks of the cells behind a mark in its element. Of the cells behind it the last one comes first, at a place.
pub(crate) fn push_beside(
    held: &mut Held,
    cells: &[TrailCell],
    low: usize,
    mark: &Mark,
) -> Result<(), NoMemory>
    requires within { low + length cells.now < 2 ^ 64 }
    requires fit { AllByRecursion IsFit (places_of
        (trail_beside mark.now.row mark.now.place (reverse cells.now))) }
    ensures marks { OnOk result (held.new.marks.items ≡ held.old.marks.items
        ++ trail_beside mark.now.row mark.now.place (reverse cells.now)) }
    ensures spans { OnOk result (held.new.spans.items ≡ held.old.spans.items
        ++ trail_spans low (length (behind_element mark.now.place.element (reverse cells.now)))
        (in_element mark.now.place.element (reverse cells.now))) }
{
    let place = mark.place;
    let mut ahead = place.rest;
    let mut left = cells;
    'cells: while let Some((cell, before)) = left.split_last() {
        if cell.element != place.element {
            return Ok(());
        }
        let span = Span {
            low,
            high: low + before.len(),
        };
        held.push(marked(mark.row, place.best, ahead, cell), span)?;
        ahead -= cell.value;
        left = before;
    }
    Ok(())
}

/// Appends the marks of the cells in the elements behind the first mark of a row.
pub(crate) fn push_later(held: &mut Held, row: Row<'_>) -> Result<(), NoMemory>
    requires within { row.stretch.low + length row.stretch.cells.now < 2 ^ 64 }
    requires beside { AllByRecursion IsFit (places_of (row_beside row)) }
    requires later { AllByRecursion IsFit (places_of (row_later row)) }
    ensures marks { OnOk result
        (held.new.marks.items ≡ held.old.marks.items ++ row_later row.entry) }
    ensures spans { OnOk result
        (held.new.spans.items ≡ held.old.spans.items ++ row_spans row.entry) }
{
    let Later { cells, ahead } = behind(row.stretch.cells, row.first);
    let walk = Walk {
        best: row.first.place.best,
        ahead,
        left: row.others,
    };
    push_walk(held, cells, row.stretch.low, row.first.row, walk)
}

/// The cells behind an element, and the sum of their values.
#[derive(Clone, Copy)]
struct Later<'a> {
    cells: &'a [TrailCell],
    ahead: i128,
}

/// Of the cells behind a mark those behind its element.
fn behind<'a>(cells: &'a [TrailCell], mark: &Mark) -> Later<'a>
    requires fit { AllByRecursion IsFit (places_of
        (trail_beside mark.now.row mark.now.place (reverse cells.now))) }
    ensures cells { reverse result.cells.now
        ≡ behind_element mark.now.place.element (reverse cells.now) }
    ensures few { length result.cells.now < length cells.now + 1 }
    ensures ahead { result.ahead ≡ mark.now.place.rest -ℤ values_in
        (in_element mark.now.place.element (reverse cells.now)) }
{
    let mut ahead = mark.place.rest;
    let mut left = cells;
    'cells: while let Some((cell, before)) = left.split_last() {
        if cell.element != mark.place.element {
            return Later { cells: left, ahead };
        }
        ahead -= cell.value;
        left = before;
    }
    Later { cells: left, ahead }
}

/// What is known of a record before a cell.
#[derive(Clone, Copy)]
pub(crate) struct Walk<'a> {
    /// The greatest utility of an occurrence that ends before the cell's element.
    pub best: i128,
    /// The sum of all values from the cell on.
    pub ahead: i128,
    /// The marks that weren't passed.
    pub left: &'a [Mark],
}

impl<'a> Walk<'a> {
    /// The walk with the best utility before an element.
    fn upto(self, element: u32) -> Walk<'a>
        ensures best { result.best ≡ best_before element self.entry.best (places_of self.entry.left.now) }
        ensures left { places_of result.left.now ≡ left_before element (places_of self.entry.left.now) }
        ensures ahead { result.ahead ≡ self.entry.ahead }
    {
        let mut best = self.best;
        let mut left = self.left;
        'places: while let Some((mark, later)) = left.split_first() {
            if mark.place.element >= element {
                return Walk {
                    best,
                    ahead: self.ahead,
                    left,
                };
            }
            best = best.max(mark.place.best);
            left = later;
        }
        Walk {
            best,
            ahead: self.ahead,
            left,
        }
    }
}

/// Appends the marks of cells of a row, each after the best occurrence before its element. The last one comes first, at a place.
pub(crate) fn push_walk(
    held: &mut Held,
    cells: &[TrailCell],
    low: usize,
    row: usize,
    walk: Walk<'_>,
) -> Result<(), NoMemory>
    requires within { low + length cells.now < 2 ^ 64 }
    requires fit { AllByRecursion IsFit (places_of
        (trail_marks row walk.best walk.ahead (places_of walk.left.now) (reverse cells.now))) }
    ensures marks { OnOk result (held.new.marks.items ≡ held.old.marks.items
        ++ trail_marks row walk.entry.best walk.entry.ahead (places_of walk.entry.left.now) (reverse cells.now)) }
    ensures spans { OnOk result (held.new.spans.items ≡ held.old.spans.items
        ++ trail_spans low 0 (reverse cells.now)) }
{
    let mut walk = walk;
    let mut left = cells;
    'cells: while let Some((cell, before)) = left.split_last() {
        walk = walk.upto(cell.element);
        let span = Span {
            low,
            high: low + before.len(),
        };
        held.push(marked(row, walk.best, walk.ahead, cell), span)?;
        walk.ahead -= cell.value;
        left = before;
    }
    Ok(())
}

/// The mark of a cell, after occurrences that earn a sum; from the cell on another is left.
#[inline(always)]
fn marked(row: usize, best: i128, ahead: i128, cell: &TrailCell) -> Mark
    requires { IsFit (mark_of row best ahead cell.now).place }
    ensures { result ≡ mark_of row best ahead cell.now }
{
    Mark {
        item: cell.item,
        row,
        place: Place {
            element: cell.element,
            cell: cell.cell,
            best: best + cell.value,
            rest: ahead - cell.value,
        },
    }
}
