//! Sequence records: lists of itemsets with what each item earned.

ghost use Rattle.std.specs.Prelude.{◌≡◌, ◌↔◌, ◌+◌, ◌<◌, ◌≤◌, ◌^◌, ◌≤ℤ◌, length, pos, unsigned_abs, IsTrue, IsSome, IfSome, SomeIff};
ghost use Rattle.std.specs.List.{list_any, sum_by, AllByRecursion};
ghost use Rattle.hu_kind.specs.Cell.{pairs_of};
ghost use Rattle.hu_kind.specs.Record.{absolute_of, any_negative, IsItemset};
ghost use Rattle.hu_kind.specs.Sequence.{IsSequence};

use crate::item::Cell;
use crate::record::{Absolute, Record, has_negative, is_itemset, sum_after};
use std::marker::Model;

/// One itemset of a sequence record: at least one cell, their items ascending strictly and each in its range. It is seen
/// as the list of its pairs (item, value).
#[derive(Debug, Drop)]
pub struct Element {
    cells: Vec<Cell>,
}

impl Model for Element {
    ghost use Rattle.std.specs.Prelude.{List, ℕ, ℤ};
    ghost use Rattle.hu_kind.specs.Cell.{pairs_of};
    ghost use Rattle.hu_kind.specs.Record.{IsItemset};

    ghost Value = { List (ℕ × ℤ) };

    ghost view = { λ e. pairs_of e.cells.items };

    ghost invariant = { λ e. IsItemset (pairs_of e.cells.items) };
}

impl Element {
    /// The itemset of just these cells, or nothing where they break a rule of the type. It takes no memory.
    pub fn new(cells: Vec<Cell>) -> Option<Element>
        ensures valid { IsSome result ↔ IsItemset (pairs_of cells.items) }
        ensures value { IfSome result (λ e. e ≡ pairs_of cells.items) }
    {
        if is_itemset(&cells) {
            Some(Element { cells })
        } else {
            None
        }
    }

    /// The itemset of cells that keep the rules of the type. It takes constant time.
    pub fn of(cells: Vec<Cell>) -> Element
        requires { IsItemset (pairs_of cells.items) }
        ensures { result ≡ pairs_of cells.items }
    {
        Element { cells }
    }

    /// The cells, their items ascending.
    pub fn cells(&self) -> &[Cell]
        ensures value { pairs_of result.now ≡ self.now }
        ensures rules { IsItemset self.now }
    {
        self.cells.as_slice()
    }

    /// Whether some value is below 0.
    fn has_negative(&self) -> bool
        ensures { result ≡ any_negative self.now }
    {
        has_negative(&self.cells)
    }

    /// A sum with the absolute values of the cells, where that is at most 2^127 - 1.
    fn sum_after(&self, sum: i128) -> Option<i128>
        requires { pos 0 ≤ℤ sum }
        ensures { SomeIff result (unsigned_abs sum + absolute_of self.now < 2 ^ 127)
            (pos (unsigned_abs sum + absolute_of self.now)) }
    {
        sum_after(sum, &self.cells)
    }
}

/// A sequence: at least one itemset, at most 4,096 cells together, no value below 0, and the values at most 2^127 - 1
/// together. It is seen as the list of its itemsets.
#[derive(Debug, Drop)]
pub struct SeqRecord {
    elements: Vec<Element>,
    absolute: i128,
}

impl Model for SeqRecord {
    ghost use Rattle.std.specs.Prelude.{◌≡◌, List, ℕ, ℤ, pos};
    ghost use Rattle.std.specs.List.{sum_by};
    ghost use Rattle.hu_kind.specs.Record.{absolute_of};
    ghost use Rattle.hu_kind.specs.Sequence.{IsSequence};

    ghost Value = { List (List (ℕ × ℤ)) };

    ghost view = { λ s. s.elements.items };

    ghost invariant = { λ s. IsSequence s.elements.items × (s.absolute ≡ pos (sum_by absolute_of s.elements.items)) };
}

impl SeqRecord {
    /// The sequence of just these itemsets, or nothing where they break a rule of the type. It takes no memory.
    pub fn new(elements: Vec<Element>) -> Option<SeqRecord>
        ensures valid { IsSome result ↔ IsSequence elements.items }
        ensures value { IfSome result (λ s. s ≡ elements.items) }
    {
        let absolute = sequence_sum(&elements)?;
        Some(SeqRecord { elements, absolute })
    }

    /// The sequence of itemsets that keep the rules of the type, and whose absolute sum is known. It takes constant time.
    pub fn with_sum(elements: Vec<Element>, absolute: i128) -> SeqRecord
        requires rules { IsSequence elements.items }
        requires sum { absolute ≡ pos (sum_by absolute_of elements.items) }
        ensures { result ≡ elements.items }
    {
        SeqRecord { elements, absolute }
    }

    /// The itemsets in order.
    pub fn elements(&self) -> &[Element]
        ensures value { result.now ≡ self.now }
        ensures rules { IsSequence self.now }
        ensures itemsets { AllByRecursion IsItemset self.now }
    {
        self.elements.as_slice()
    }
}

impl Absolute for SeqRecord {
    ghost use Rattle.std.specs.List.{sum_by};
    ghost use Rattle.hu_kind.specs.Record.{absolute_of};

    ghost absolute = { λ elements. sum_by absolute_of elements };

    fn absolute(&self) -> i128 {
        self.absolute
    }
}

/// The sum of the absolute values of itemsets that keep the rules of a sequence.
fn sequence_sum(elements: &[Element]) -> Option<i128>
    ensures { SomeIff result (IsSequence elements.now) (pos (sum_by absolute_of elements.now)) }
{
    if elements.is_empty() || any_below(elements) || !are_few(elements) {
        return None;
    }
    sum_of(elements)
}

/// Whether there are at most 4,096 cells.
fn are_few(elements: &[Element]) -> bool
    ensures few { IsTrue result ↔ (sum_by length elements.now ≤ 4096) }
    ensures itemsets { IsTrue result → AllByRecursion IsItemset elements.now }
{
    let mut count = 0;
    for element in elements {
        let more = element.cells().len();
        if more > Record::MOST_CELLS - count {
            return false;
        }
        count += more;
    }
    true
}

/// Whether some value is below 0.
fn any_below(elements: &[Element]) -> bool
    ensures { result ≡ list_any any_negative elements.now }
{
    elements.iter().any(|element| element.has_negative())
}

/// The sum of the absolute values, where that is at most 2^127 - 1.
fn sum_of(elements: &[Element]) -> Option<i128>
    ensures { SomeIff result (sum_by absolute_of elements.now < 2 ^ 127)
        (pos (sum_by absolute_of elements.now)) }
{
    let mut sum = 0;
    for element in elements {
        sum = element.sum_after(sum)?;
    }
    Some(sum)
}
