//! Walks: one pass over the elements of a sequence from one on, with the best utility before each.

ghost use Rattle.std.specs.Prelude.{◌≡◌, ℕ, ◌<◌, ◌≤◌, ◌^◌, pos, ◌≤ℤ◌, ◌<ℤ◌, ◌-ℤ◌, ◌++◌, drop, length, option_to_list, IfOk, OnOk};
ghost use Rattle.std.specs.List.{AllByRecursion};
ghost use Rattle.hu_kind.specs.Cell.{pairs_of};
ghost use Rattle.hu_kind.specs.Record.{total};
ghost use Rattle.hu_kind.specs.Sequence.{IsSequence};
ghost use Rattle.hu_chain.specs.Bound.{IsFit};
ghost use Rattle.hu_chain.specs.Search.{best_past, left_past, walked, IsWalk};

use crate::place::{Place, Tail, cells_at, total};
use hu_kind::{Cell, Element, Item, NoMemory};
use std::alloc::Global;

/// What is known of a sequence before one of its elements.
#[derive(Clone, Copy)]
pub(crate) struct Walk<'a> {
    /// The greatest utility of an occurrence that ends before the element.
    pub best: i128,
    /// The sum of all values from the element on.
    pub ahead: i128,
    /// The places that aren't before the element.
    pub left: &'a [Place],
}

impl<'a> Walk<'a> {
    /// The whole of an element, with what is known before it.
    fn tail<'b>(&self, element: u32, cells: &'b [Cell]) -> Tail<'b>
        ensures element { result.element ≡ element }
        ensures first { result.first ≡ 0 }
        ensures cells { result.cells.now ≡ cells.now }
        ensures best { result.best ≡ self.now.best }
        ensures ahead { result.ahead ≡ self.now.ahead }
    {
        Tail {
            element,
            first: 0,
            cells,
            best: self.best,
            ahead: self.ahead,
        }
    }

    /// The walk after an element.
    fn past(&self, element: u32, cells: &[Cell]) -> Walk<'a>
        requires none_below { AllByRecursion (λ cell. pos 0 ≤ℤ cell.1) (pairs_of cells.now) }
        requires holds { total (pairs_of cells.now) ≤ℤ self.now.ahead }
        requires fits { self.now.ahead <ℤ pos (2 ^ 127) }
        ensures best { result.best ≡ best_past element self.now.best self.now.left.now }
        ensures left { result.left.now ≡ left_past element self.now.left.now }
        ensures ahead { result.ahead ≡ self.now.ahead -ℤ total (pairs_of cells.now) }
    {
        let ahead = self.ahead - total(cells);
        match self.left.split_first() {
            Some((place, left)) if element == place.element => Walk {
                best: self.best.max(place.best),
                ahead,
                left,
            },
            _ => Walk {
                best: self.best,
                ahead,
                left: self.left,
            },
        }
    }
}

/// The places of an item in the elements from one on, each after the best occurrence before its element.
pub(crate) fn places_from(
    alloc: Global,
    elements: &[Element],
    item: Item,
    first: usize,
    walk: Walk<'_>,
) -> Result<Vec<Place>, NoMemory>
    requires sequence { IsSequence elements.now }
    requires walk { IsWalk elements.now first walk }
    ensures value { IfOk result
        (λ places. places.items ≡ walked item.0 first walk.entry.best walk.entry.left.now
        (drop first elements.now)) }
    ensures fit { IfOk result (λ places. AllByRecursion IsFit places.items) }
{
    let mut walk = walk;
    let mut places = Vec::new(alloc);
    for number in first..elements.len() {
        let element = number as u32;
        let cells = cells_at(elements, number);
        push_place(&mut places, walk.tail(element, cells).ended(item))?;
        walk = walk.past(element, cells);
    }
    Ok(places)
}

/// Appends a place, if there is one.
pub(crate) fn push_place(places: &mut Vec<Place>, place: Option<Place>) -> Result<(), NoMemory>
    ensures { OnOk result (places.new.items ≡ places.old.items ++ option_to_list place) }
{
    if let Some(place) = place {
        places.push(place)?;
    }
    Ok(())
}
