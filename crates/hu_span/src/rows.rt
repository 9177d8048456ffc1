//! The rows of marks, taken one after another.

ghost use Rattle.std.specs.Prelude.{◌≡◌, ◌+◌, ◌<◌, ◌^◌, ℕ, Bool, [], length, IfSome, MatchOption};
ghost use Rattle.std.specs.List.{AllByRecursion};
ghost use Rattle.hu_chain.specs.Bound.{IsFit};
ghost use Rattle.hu_span.specs.Gather.{front_of};
ghost use Rattle.hu_span.specs.Growing.{Pattern, Records};
ghost use Rattle.hu_span.specs.Kept.{weighed_of};
ghost use Rattle.hu_span.specs.Mark.{places_of};
ghost use Rattle.hu_span.specs.Trail.{row_beside, row_later, AreHeld, AreLeft, IsFrontRow, IsWalked, OfHeld};

use crate::mark::Mark;
use crate::trail::{Held, Stretch, TrailCell};

/// The marks of a row, the cells behind the first of them, and the marks that are left after the row.
#[derive(Clone, Copy)]
pub(crate) struct Row<'a> {
    pub first: &'a Mark,
    pub others: &'a [Mark],
    pub stretch: Stretch<'a>,
    pub left: &'a [Mark],
}

/// The next row of the marks that are left, unless none are.
#[inline(always)]
pub(crate) fn next_row<'a>(held: &Held, trail: &'a [TrailCell], left: &'a [Mark]) -> Option<Row<'a>>
    requires { (keep : ℕ → Bool) × (records : Records) × (p : Pattern)
        × AreHeld keep records trail.now p held.now × AreLeft (weighed_of keep records) p left.now }
    ensures row { MatchOption result (left.now ≡ []) (IsFrontRow left.now) }
    ensures within { IfSome result
        (λ row. row.stretch.low + length row.stretch.cells.now < 2 ^ 64) }
    ensures beside { IfSome result (λ row. AllByRecursion IsFit (places_of (row_beside row))) }
    ensures later { IfSome result (λ row. AllByRecursion IsFit (places_of (row_later row))) }
    ensures walked { OfHeld trail.now held.now (λ keep records p.
        AreLeft (weighed_of keep records) p left.now
        → IfSome result (IsWalked keep records trail.now)) }
{
    let (first, later) = left.split_first()?;
    let stretch = held.behind(held.marks.len() - left.len(), trail);
    let (others, left) = later.split_at(row_len(later, first.row));
    Some(Row {
        first,
        others,
        stretch,
        left,
    })
}

/// How many marks at the front are of a row.
fn row_len(marks: &[Mark], row: usize) -> usize
    ensures { result ≡ front_of row marks.now }
{
    for (number, mark) in marks.iter().enumerate() {
        if mark.row != row {
            return number;
        }
    }
    marks.len()
}
