//! What marks of one pattern tell: its utility, its support and a bound, summed row by row.

ghost use Rattle.std.specs.Prelude.{◌≡◌, ◌+◌, ◌++◌, ◌∷◌, [], ◌<◌, ◌^◌, ◌+ℤ◌, ◌<ℤ◌, pos, ℕ, ℤ, List, IfSome};
ghost use Rattle.hu_chain.specs.Bound.{IsFit};
ghost use Rattle.hu_span.specs.declared.mark.Mark.{Mark};
ghost use Rattle.hu_span.specs.Tally.{spread_more, IsTally, IsTold, none_told, reaches_of, told_with};

use crate::mark::Mark;

/// What marks told so far: the sums of the rows that are done, and the greatest of the last row.
#[derive(Clone, Copy)]
pub(crate) struct Tally {
    /// The number of the last row.
    pub row: usize,
    /// How many rows there were.
    pub rows: u64,
    /// The greatest utility in the last row, and the sum of those of the rows before it.
    pub best: i128,
    pub bests: i128,
    /// The greatest utility with all that is left after it in the last row, and the sum of those before it.
    pub reach: i128,
    pub reaches: i128,
}

impl Tally {
    /// What no mark tells.
    fn none() -> Tally
        ensures { result ≡ none_told }
    {
        Tally {
            row: 0,
            rows: 0,
            best: 0,
            bests: 0,
            reach: 0,
            reaches: 0,
        }
    }

    /// Tells a mark more.
    fn add(&mut self, mark: &Mark)
        requires tally { IsTally self.old }
        requires fit { IsFit mark.now.place }
        requires fits { reaches_of self.old <ℤ pos (2 ^ 127) }
        requires rows { self.old.rows + 1 < 2 ^ 64 }
        ensures { self.new ≡ told_with self.old mark.now }
    {
        let best = mark.place.best;
        let reach = best + mark.place.rest;
        if self.rows > 0 && self.row == mark.row {
            self.best = self.best.max(best);
            self.reach = self.reach.max(reach);
            return;
        }
        *self = Tally {
            row: mark.row,
            rows: self.rows + 1,
            best,
            bests: self.bests + self.best,
            reach,
            reaches: self.reaches + self.reach,
        };
    }
}

/// What is told of the marks of an item.
#[derive(Clone, Copy)]
pub(crate) struct Told {
    pub tally: Tally,
    /// The sum over the rows of the marks, each row once, where it is known.
    pub spread: Option<i128>,
}

impl Told {
    /// What no mark tells.
    pub(crate) fn none() -> Told
        ensures { (reaches : List ℤ) → IsTold reaches [] result }
    {
        Told {
            tally: Tally::none(),
            spread: Some(0),
        }
    }

    /// Tells a mark more, by what is known of the rows.
    pub(crate) fn add(&mut self, mark: &Mark, reaches: &[i128])
        requires tally { IsTally self.old.tally }
        requires fit { IsFit mark.now.place }
        requires fits { reaches_of self.old.tally <ℤ pos (2 ^ 127) }
        requires rows { self.old.tally.rows + 1 < 2 ^ 64 }
        ensures { (marks : List Mark) → IsTold reaches.now marks self.old
            → IsTold reaches.now (marks ++ mark.now ∷ []) self.new }
    {
        self.spread = spread_with(self, mark.row, reaches);
        self.tally.add(mark);
    }
}

/// The sum over rows with a row more.
fn spread_with(told: &Told, row: usize, reaches: &[i128]) -> Option<i128>
    ensures { IfSome result (λ sum. (before : ℤ) × (told.now.spread ≡ Some before)
        × (sum ≡ before +ℤ spread_more reaches.now told.now.tally row)) }
{
    let sum = told.spread?;
    if told.tally.rows > 0 && told.tally.row == row {
        return Some(sum);
    }
    sum.checked_add(*reaches.get(row)?)
}
