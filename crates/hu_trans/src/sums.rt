//! The sums of a record's values.

ghost use Rattle.std.specs.Prelude.{◌≡◌, ◌↔◌, ◌<◌, ◌≤◌, ◌^◌, pos, unsigned_abs, IsSome, IfSome};
ghost use Rattle.hu_kind.specs.Cell.{pairs_of};
ghost use Rattle.hu_kind.specs.Record.{absolute_of, total, gain};

use hu_kind::{Cell, positive_part};

/// The sum of the absolute values of cells, their plain sum, and the sum of those above 0.
#[derive(Clone, Copy)]
pub(crate) struct Sums {
    pub absolute: i128,
    pub plain: i128,
    pub positive: i128,
}

impl Sums {
    /// The sums of cells, where the absolute values sum to at most 2^127 - 1.
    pub(crate) fn of(cells: &[Cell]) -> Option<Sums>
        ensures small { IsSome result ↔ (absolute_of (pairs_of cells.now) < 2 ^ 127) }
        ensures absolute { IfSome result (λ sums. sums.absolute ≡ pos (absolute_of (pairs_of cells.now))) }
        ensures plain { IfSome result (λ sums. sums.plain ≡ total (pairs_of cells.now)) }
        ensures positive { IfSome result (λ sums. sums.positive ≡ gain (pairs_of cells.now)) }
    {
        let mut absolute = 0u128;
        let mut plain = 0i128;
        let mut positive = 0i128;
        for cell in cells {
            absolute += cell.value.unsigned_abs();
            if absolute > i128::MAX as u128 {
                return None;
            }
            plain += cell.value;
            positive += positive_part(cell.value);
        }
        Some(Sums {
            absolute: absolute as i128,
            plain,
            positive,
        })
    }
}
