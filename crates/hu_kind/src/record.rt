//! Records: transactions of items with what each earned.

ghost use Rattle.std.specs.Prelude.{◌≡◌, ◌↔◌, ◌+◌, ◌<◌, ◌≤◌, ◌^◌, ◌≤ℤ◌, ℕ, length, pos, unsigned_abs, int_lt, IsTrue, IsSome, IfSome, SomeIff};
ghost use Rattle.std.specs.List.{All, AllAdjacentBelow, list_any, sum_by};
ghost use Rattle.hu_kind.specs.Cell.{pairs_of, absolute_value, AreItemset, AreRecord};
ghost use Rattle.hu_kind.specs.Record.{absolute_of, any_negative, IsRecord};

use crate::item::{Cell, Item};
use std::marker::Model;

/// What has a sum of absolute values. Of every type that sum is at most 2^127 - 1.
pub trait Absolute: Drop {
    ghost absolute: { Self → ℕ };

    /// The sum of the absolute values, in constant time.
    fn absolute(&self) -> i128
        ensures value { result ≡ pos (absolute self.now) }
        ensures fits { absolute self.now < 2 ^ 127 };
}

/// A transaction: one to 4,096 cells, their items ascending strictly and each in its range, and the absolute values of
/// all utilities at most 2^127 - 1 together. It is seen as the list of its pairs (item, value).
#[derive(Debug, Drop)]
pub struct Record {
    cells: Vec<Cell>,
    absolute: i128,
}

impl Model for Record {
    ghost use Rattle.std.specs.Prelude.{◌≡◌, List, ℕ, ℤ, pos};
    ghost use Rattle.hu_kind.specs.Cell.{pairs_of};
    ghost use Rattle.hu_kind.specs.Record.{absolute_of, IsRecord};

    ghost Value = { List (ℕ × ℤ) };

    ghost view = { λ r. pairs_of r.cells.items };

    ghost invariant = { λ r. IsRecord (pairs_of r.cells.items) × (r.absolute ≡ pos (absolute_of (pairs_of r.cells.items))) };
}

impl Record {
    /// The most cells that a record may have.
    pub const MOST_CELLS: usize = 4096;

    /// The record of just these cells, or nothing where they break a rule of the type. It takes no memory.
    pub fn new(cells: Vec<Cell>) -> Option<Record>
        ensures valid { IsSome result ↔ IsRecord (pairs_of cells.items) }
        ensures value { IfSome result (λ r. r ≡ pairs_of cells.items) }
    {
        let absolute = record_sum(&cells)?;
        Some(Record { cells, absolute })
    }

    /// The record of cells that keep the rules of the type, and whose absolute sum is known. It takes constant time.
    pub fn with_sum(cells: Vec<Cell>, absolute: i128) -> Record
        requires rules { IsRecord (pairs_of cells.items) }
        requires sum { absolute ≡ pos (absolute_of (pairs_of cells.items)) }
        ensures { result ≡ pairs_of cells.items }
    {
        Record { cells, absolute }
    }

    /// The cells, their items ascending.
    pub fn cells(&self) -> &[Cell]
        ensures value { pairs_of result.now ≡ self.now }
        ensures rules { IsRecord self.now }
    {
        self.cells.as_slice()
    }

    /// Whether some value is below 0.
    pub fn has_negative(&self) -> bool
        ensures { result ≡ any_negative self.now }
    {
        has_negative(&self.cells)
    }
}

impl Absolute for Record {
    ghost use Rattle.hu_kind.specs.Record.{absolute_of};

    ghost absolute = { absolute_of };

    fn absolute(&self) -> i128 {
        self.absolute
    }
}

/// Whether a value below 0 stands among the cells.
pub(crate) fn has_negative(cells: &[Cell]) -> bool
    ensures { result ≡ list_any (λ cell. int_lt cell.value (pos 0)) cells.now }
{
    cells.iter().any(|cell| cell.value < 0)
}

/// The sum of the absolute values of cells that keep the rules of a record.
fn record_sum(cells: &[Cell]) -> Option<i128>
    ensures { SomeIff result (AreRecord cells.now) (pos (sum_by absolute_value cells.now)) }
{
    if is_itemset(cells) && cells.len() <= Record::MOST_CELLS {
        sum_after(0, cells)
    } else {
        None
    }
}

/// Whether the cells keep the rules of a set of cells.
pub(crate) fn is_itemset(cells: &[Cell]) -> bool
    ensures { IsTrue result ↔ AreItemset cells.now }
{
    !cells.is_empty() && ascends(cells) && is_in_range(cells)
}

/// Whether the items ascend strictly.
pub(crate) fn ascends(cells: &[Cell]) -> bool
    ensures { IsTrue result ↔ AllAdjacentBelow (λ a b. a.item.0 < b.item.0) cells.now (length cells.now) }
{
    for i in 1..cells.len() {
        if cells[i].item.0 <= cells[i - 1].item.0 {
            return false;
        }
    }
    true
}

/// Whether each item is in its range.
fn is_in_range(cells: &[Cell]) -> bool
    ensures { IsTrue result ↔ All (λ cell. cell.item.0 ≤ 2147483647) cells.now }
{
    cells.iter().all(|cell| cell.item.0 <= Item::GREATEST)
}

/// A sum with the absolute values of the cells, where that is at most 2^127 - 1.
pub(crate) fn sum_after(sum: i128, cells: &[Cell]) -> Option<i128>
    requires { pos 0 ≤ℤ sum }
    ensures { SomeIff result (unsigned_abs sum + sum_by absolute_value cells.now < 2 ^ 127)
        (pos (unsigned_abs sum + sum_by absolute_value cells.now)) }
{
    let mut after = sum;
    for cell in cells {
        after = after.checked_add_unsigned(cell.value.unsigned_abs())?;
    }
    Some(after)
}
