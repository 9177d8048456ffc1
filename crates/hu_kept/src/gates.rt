//! What makes the gate of a search.

ghost use Rattle.std.specs.Prelude.{pos, ◌≤ℤ◌, IfOk};

use hu_collect::Gate;
use hu_kind::NoMemory;
use hu_raise::PairTwu;
use hu_totals::Ranked;
use std::alloc::Global;

/// Makes gates for ranked records.
pub(crate) trait Gates {
    type Gate: Gate + Drop;

    /// A gate with at most this floor that is right for these records.
    fn gate(&self, alloc: Global, ranked: &Ranked, floor: i128) -> Result<Self::Gate, NoMemory>
        requires { pos 1 ≤ℤ floor }
        ensures floor { IfOk result (λ gate. Self.Gate.floor gate ≤ℤ floor) }
        ensures right { IfOk result (λ gate. Self.Gate.IsRightFor gate ranked.now.records) };
}

/// Makes the gates of pairs.
pub(crate) struct Pairs;

impl Gates for Pairs {
    type Gate = PairTwu;

    fn gate(&self, alloc: Global, ranked: &Ranked, floor: i128) -> Result<PairTwu, NoMemory> {
        PairTwu::of(alloc, ranked, floor)
    }
}
