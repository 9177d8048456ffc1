//! Marks of a pattern where fewer items count: the cells behind them and their rests.

ghost use Rattle.std.specs.Prelude.{◌≡◌, ◌++◌, ◌-◌, ◌+ℤ◌, ◌<ℤ◌, ◌≤ℤ◌, ◌≤◌, ◌^◌, pos, ℕ, Bool, List, true, [], ◌∷◌, take, drop, length, IfOk, OnOk};
ghost use Rattle.std.specs.List.{AllByRecursion, filter};
ghost use Rattle.hu_span.specs.declared.trail.TrailCell.{TrailCell};
ghost use Rattle.hu_span.specs.Growing.{Pattern, Records};
ghost use Rattle.hu_span.specs.Kept.{keeps, AreKept};
ghost use Rattle.hu_span.specs.Thin.{resting, stretch, IsRun};
ghost use Rattle.hu_span.specs.Trail.{is_held, values_in, AreHeld, OfHeld};

use crate::kept::{Kept, counted};
use crate::mark::Mark;
use crate::trail::{Held, Span, TrailCell};
use hu_chain::Place;
use hu_kind::NoMemory;
use std::alloc::Global;

/// The marks of a pattern, with a trail of those items alone that count.
#[derive(Drop)]
pub(crate) struct Thin {
    pub trail: Vec<TrailCell>,
    pub held: Held,
}

/// The marks of a pattern where fewer items count: the cells behind them are copied and their rests summed anew, from the last
/// mark back, so that the cells of a row are met once.
pub(crate) fn thinned(
    alloc: Global,
    kept: &Kept,
    trail: &[TrailCell],
    held: &Held,
) -> Result<Thin, NoMemory>
    requires { (keep : ℕ → Bool) × (records : Records) × (p : Pattern)
        × AreHeld keep records trail.now p held.now
        × ((item : ℕ) → keeps kept.now item ≡ true → keep item ≡ true) }
    ensures { OfHeld trail.now held.now (λ keep records p.
        AreKept keep p → AreKept (keeps kept.now) p
        → ((item : ℕ) → keeps kept.now item ≡ true → keep item ≡ true)
        → IfOk result (λ thin. AreHeld (keeps kept.now) records thin.trail.items p thin.held)) }
{
    let mut thin = Vec::new(alloc);
    let mut back = Held::new(alloc);
    let mut run = Run::none();
    let mut left = held.marks.as_slice();
    'marks: while let Some((mark, before)) = left.split_last() {
        let span = held.spans[before.len()];
        run = run.at(span, thin.len());
        run = run.copied(&mut thin, kept, trail, span.high)?;
        let own = Span {
            low: run.start,
            high: thin.len(),
        };
        back.push(resting(mark, run.sum), own)?;
        left = before;
    }
    back.marks.reverse();
    back.spans.reverse();
    Ok(Thin {
        trail: thin,
        held: back,
    })
}

/// A stretch of a trail whose kept cells were copied to the end of another one.
#[derive(Clone, Copy)]
struct Run {
    low: usize,
    high: usize,
    /// Where the copies begin.
    start: usize,
    /// The sum of their values.
    sum: i128,
}

impl Run {
    /// An empty stretch.
    fn none() -> Run
        ensures { (keep : ℕ → Bool) → (trail : List TrailCell) → IsRun keep trail [] result }
    {
        Run {
            low: 0,
            high: 0,
            start: 0,
            sum: 0,
        }
    }

    /// The stretch where a span carries it on, else an empty one, whose copies are to begin at a place.
    fn at(self, span: Span, start: usize) -> Run
        ensures low { result.low ≡ span.low }
        ensures high { span.low ≤ span.high → result.high ≤ span.high }
        ensures run { (keep : ℕ → Bool) → (trail : List TrailCell) → (thin : List TrailCell)
            → IsRun keep trail thin self → span.low ≤ length trail → start ≡ length thin
            → IsRun keep trail thin result }
    {
        if self.low == span.low && self.high <= span.high {
            return self;
        }
        Run {
            low: span.low,
            high: span.low,
            start,
            sum: 0,
        }
    }

    /// The stretch up to a later place: the kept cells up to there are copied too.
    fn copied(
        self,
        thin: &mut Vec<TrailCell>,
        kept: &Kept,
        trail: &[TrailCell],
        upto: usize,
    ) -> Result<Run, NoMemory>
        requires run { IsRun (keeps kept.now) trail.now thin.old.items self }
        requires ordered { self.high ≤ upto }
        requires within { upto ≤ length trail.now }
        requires above { AllByRecursion (λ cell. pos 0 ≤ℤ cell.value)
            (filter (is_held (keeps kept.now)) (stretch trail.now self.low upto)) }
        requires fits { values_in (filter (is_held (keeps kept.now))
            (stretch trail.now self.low upto)) <ℤ pos (2 ^ 127) }
        ensures low { IfOk result (λ run. run.low ≡ self.low) }
        ensures high { IfOk result (λ run. run.high ≡ upto) }
        ensures grows { OnOk result ((more : List TrailCell) × (thin.new.items ≡ thin.old.items ++ more)) }
        ensures run { IfOk result (IsRun (keeps kept.now) trail.now thin.new.items) }
    {
        let more = push_kept(thin, kept, &trail[self.high..upto])?;
        Ok(Run {
            low: self.low,
            high: upto,
            start: self.start,
            sum: self.sum + more,
        })
    }
}

/// Copies the kept ones of cells, and answers the sum of their values.
fn push_kept(thin: &mut Vec<TrailCell>, kept: &Kept, cells: &[TrailCell]) -> Result<i128, NoMemory>
    requires above { AllByRecursion (λ cell. pos 0 ≤ℤ cell.value)
        (filter (is_held (keeps kept.now)) cells.now) }
    requires fits { values_in (filter (is_held (keeps kept.now)) cells.now) <ℤ pos (2 ^ 127) }
    ensures cells { OnOk result (thin.new.items
        ≡ thin.old.items ++ filter (is_held (keeps kept.now)) cells.now) }
    ensures sum { IfOk result (λ sum. sum
        ≡ values_in (filter (is_held (keeps kept.now)) cells.now)) }
{
    let mut sum = 0;
    'cells: for cell in cells {
        let is_kept = kept.has(cell.item);
        sum += counted(is_kept, cell.value);
        push_if(thin, *cell, is_kept)?;
    }
    Ok(sum)
}

/// Copies a cell that is kept.
fn push_if(thin: &mut Vec<TrailCell>, cell: TrailCell, is_kept: bool) -> Result<(), NoMemory>
    ensures { OnOk result (thin.new.items ≡ thin.old.items ++ filter (λ _. is_kept) (cell ∷ [])) }
{
    if is_kept {
        thin.push(cell)?;
    }
    Ok(())
}

/// A mark with another rest.
fn resting(mark: &Mark, rest: i128) -> Mark
    ensures { result ≡ resting mark.now rest }
{
    let place = mark.place;
    Mark {
        item: mark.item,
        row: mark.row,
        place: Place {
            element: place.element,
            cell: place.cell,
            best: place.best,
            rest,
        },
    }
}
