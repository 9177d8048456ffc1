//! What a set of ranks leaves of the records that hold it.

ghost use Rattle.std.specs.Prelude.{◌≡◌, ◌<◌, ◌^◌, ◌+ℤ◌, if◌then◌else◌, pos};
ghost use Rattle.hu_kind.specs.Record.{positive_part, absolute_of};
ghost use Rattle.hu_totals.specs.View.{dense_pair, cells_of};
ghost use Rattle.hu_totals.specs.Cells.{among, kept_gain};
ghost use Rattle.hu_list.specs.Tails.{share, size_of};
ghost use Rattle.hu_list.specs.View.{tail_of};

use hu_kind::positive_part;
use hu_search::Slots;
use hu_totals::Dense;

/// What a set earns in a record that holds it, and the record's cells after the set's last rank.
#[derive(Clone, Copy)]
pub(crate) struct Tail<'a> {
    pub own: i128,
    pub cells: &'a [Dense],
}

impl Tail<'_> {
    /// The most that the set with kept ranks earns in the record, in a pass over the cells.
    pub(crate) fn share(&self, kept: &Slots) -> i128
        requires { size_of (tail_of self.now) < 2 ^ 127 }
        ensures { result ≡ share kept.now.ranks (tail_of self.now) }
    {
        positive_part(self.own + kept_gain(kept, self.cells))
    }
}

/// The sum of the values above 0 at kept ranks.
fn kept_gain(kept: &Slots, cells: &[Dense]) -> i128
    requires { absolute_of (cells_of cells.now) < 2 ^ 127 }
    ensures { result ≡ kept_gain kept.now.ranks (cells_of cells.now) }
{
    let mut gain = 0;
    for cell in cells {
        gain += kept_part(kept, cell);
    }
    gain
}

/// A cell's value where its rank is kept and it is above 0, else 0.
fn kept_part(kept: &Slots, cell: &Dense) -> i128
    ensures { result
        ≡ (if among cell.now.rank kept.now.ranks then positive_part cell.now.value
        else pos 0) }
{
    if kept.has(cell.rank) {
        positive_part(cell.value)
    } else {
        0
    }
}
