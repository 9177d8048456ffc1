//! What values count.

ghost use Rattle.std.specs.Prelude.{◌≡◌, ◌<◌, ◌≤◌, ◌^◌, ℕ, ℤ, map, unsigned_abs};
ghost use Rattle.hu_kind.specs.Record.{absolute_of, gain, positive_part};

use crate::item::Cell;

/// What has a value: a cell over items or over ranks. It is seen as the pair of its number and its value.
pub trait Valued: Copy {
    ghost pair: { Self → ℕ × ℤ };

    /// The value.
    fn value(&self) -> i128
        ensures { result ≡ (pair self.now).1 };
}

impl Valued for Cell {
    ghost use Rattle.hu_kind.specs.Cell.{pair_of};

    ghost pair = { pair_of };

    fn value(&self) -> i128 {
        self.value
    }
}

/// A value where it is above 0, else 0.
pub fn positive_part(value: i128) -> i128
    ensures value { result ≡ positive_part value }
    ensures within { unsigned_abs result ≤ unsigned_abs value }
{
    value.max(0)
}

/// The sum of the values above 0, in time for each cell.
pub fn gain_of<V: Valued>(cells: &[V]) -> i128
    requires { absolute_of (map V.pair cells.now) < 2 ^ 127 }
    ensures { result ≡ gain (map V.pair cells.now) }
{
    let mut sum = 0;
    for cell in cells {
        sum += positive_part(cell.value());
    }
    sum
}
