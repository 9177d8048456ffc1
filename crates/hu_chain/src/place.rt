//! Places: the cells at which a pattern ends, and how they are found in an element.

ghost use Rattle.std.specs.Prelude.{◌≡◌, ℕ, pos, ◌<◌, ◌≤◌, ◌≤ℤ◌, ◌<ℤ◌, ◌-ℤ◌, ◌^◌, length, drop, IfSome};
ghost use Rattle.std.specs.List.{AllByRecursion};
ghost use Rattle.hu_kind.specs.Cell.{pairs_of};
ghost use Rattle.hu_kind.specs.Order.{Ascend};
ghost use Rattle.hu_kind.specs.Record.{items_in, total};
ghost use Rattle.hu_kind.specs.Sequence.{IsSequence};
ghost use Rattle.hu_chain.specs.Bound.{IsFit};
ghost use Rattle.hu_chain.specs.Place.{element_at};
ghost use Rattle.hu_chain.specs.Search.{cell_in, found, IsPlaceOf, IsPlain, IsTail, IsTailOf};

use hu_kind::{Cell, Element, Item, cells_below};

/// A cell of a sequence record at which a pattern ends.
#[derive(Clone, Copy, Debug, PartialEq, Eq)]
pub struct Place {
    /// The number of the cell's element in the sequence, from 0 on.
    pub element: u32,
    /// The number of the cell in its element, from 0 on.
    pub cell: u32,
    /// The greatest utility of an occurrence that ends here.
    pub best: i128,
    /// The sum of all values after the cell, in its element and in the later ones.
    pub rest: i128,
}

impl Place {
    /// The cells after the place.
    pub(crate) fn tail<'a>(&self, elements: &'a [Element]) -> Tail<'a>
        requires sequence { IsSequence elements.now }
        requires fit { IsFit self.now }
        requires place { (last : ℕ) × IsPlaceOf elements.now last self.now }
        ensures value { IsTailOf elements.now self.now result }
        ensures rules { IsTail result }
        ensures plain { IsPlain (element_at elements.now self.now.element) }
    {
        let cells = cells_at(elements, self.element as usize);
        let first = self.cell + 1;
        Tail {
            element: self.element,
            first,
            cells: cells_from(cells, first as usize),
            best: self.best,
            ahead: self.rest,
        }
    }
}

/// The cells of an element from one on, with what is known before them.
#[derive(Clone, Copy)]
pub(crate) struct Tail<'a> {
    /// The number of the element.
    pub element: u32,
    /// The number of the first of the cells.
    pub first: u32,
    pub cells: &'a [Cell],
    /// The greatest utility of an occurrence that ends before them.
    pub best: i128,
    /// The sum of all values from them on, in the element and in the later ones.
    pub ahead: i128,
}

impl Tail<'_> {
    /// The place at which the occurrence ends with an item more, where a cell has it.
    pub(crate) fn ended(&self, item: Item) -> Option<Place>
        requires { IsTail self.now }
        ensures value { result ≡ found self.now.element self.now.first item.0 self.now.best
            (self.now.ahead -ℤ total (pairs_of self.now.cells.now))
            (pairs_of self.now.cells.now) }
        ensures fit { IfSome result IsFit }
    {
        let cell = cell_in(self.cells, item)?;
        let next = cell + 1;
        Some(Place {
            element: self.element,
            cell: self.first + cell as u32,
            best: self.best + self.cells[cell].value,
            rest: self.ahead - total(&self.cells[..next]),
        })
    }
}

/// The cells of an element.
pub(crate) fn cells_at(elements: &[Element], number: usize) -> &[Cell]
    requires sequence { IsSequence elements.now }
    requires within { number < length elements.now }
    ensures value { pairs_of result.now ≡ element_at elements.now number }
    ensures plain { IsPlain (element_at elements.now number) }
    ensures few { length (element_at elements.now number) ≤ 4096 }
{
    elements[number].cells()
}

/// The cells from one on.
fn cells_from(cells: &[Cell], first: usize) -> &[Cell]
    requires { first ≤ length cells.now }
    ensures { pairs_of result.now ≡ drop first (pairs_of cells.now) }
{
    &cells[first..]
}

/// The number of an item's cell, looked for by halves.
pub(crate) fn cell_in(cells: &[Cell], item: Item) -> Option<usize>
    requires { Ascend (items_in (pairs_of cells.now)) }
    ensures { result ≡ cell_in item.0 (pairs_of cells.now) }
{
    let number = cells_below(cells, item);
    let cell = cells.get(number)?;
    if cell.item.0 == item.0 {
        Some(number)
    } else {
        None
    }
}

/// The sum of the values of cells.
pub(crate) fn total(cells: &[Cell]) -> i128
    requires none_below { AllByRecursion (λ cell. pos 0 ≤ℤ cell.1) (pairs_of cells.now) }
    requires fits { total (pairs_of cells.now) <ℤ pos (2 ^ 127) }
    ensures { result ≡ total (pairs_of cells.now) }
{
    let mut sum = 0;
    for cell in cells {
        sum += cell.value;
    }
    sum
}
