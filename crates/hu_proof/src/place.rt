//! The records that hold a prefix, and the sums over them.

ghost use Rattle.std.specs.Prelude.{◌≡◌, ◌+◌, ◌<◌, ◌≤◌, ◌^◌, pos, None, Some, drop, length, map, unsigned_abs, true, false, [], ◌∷◌, option_map, option_to_list, List, ℕ, IfOk, IfSome, IfNone};
ghost use Rattle.hu_kind.specs.Cell.{pairs_of};
ghost use Rattle.hu_kind.specs.Order.{Ascend};
ghost use Rattle.hu_kind.specs.Record.{items_in, value_of};
ghost use Rattle.hu_proof.specs.Bounds.{after, is_among};
ghost use Rattle.hu_proof.specs.Places.{earned, narrowed, place_of, places_of, value_in, AllAscend, Apart, HasRoom, IsOneOf, Rises};

use crate::order::Order;
use hu_kind::{Cell, Item, NoMemory, Record, cells_below};
use std::alloc::Global;

/// A record that holds a prefix, with what the prefix earns there.
#[derive(Clone, Copy, Drop)]
pub(crate) struct Place<'a> {
    pub cells: &'a [Cell],
    pub own: i128,
}

/// The places of the empty prefix.
pub(crate) fn first_places(alloc: Global, records: &[Record]) -> Result<Vec<Place<'_>>, NoMemory>
    ensures value { IfOk result (λ places. places_of places.items
        ≡ map (λ r. (r, pos 0)) records.now) }
    ensures rises { IfOk result (λ _. AllAscend records.now) }
{
    let mut places = Vec::with_capacity(alloc, records.len())?;
    for record in records {
        places.push(Place {
            cells: record.cells(),
            own: 0,
        })?;
    }
    Ok(places)
}

/// The places of a prefix with an item more.
pub(crate) fn narrowed<'a>(
    alloc: Global,
    places: &[Place<'a>],
    item: Item,
) -> Result<Vec<Place<'a>>, NoMemory>
    requires { (later : List ℕ) × HasRoom later (places_of places.now) × IsOneOf item.0 later }
    ensures { IfOk result (λ narrow. places_of narrow.items
        ≡ narrowed item.0 (places_of places.now)) }
{
    let mut narrow = Vec::new(alloc);
    for place in places {
        if let Some(one) = grown(place, item) {
            narrow.push(one)?;
        }
    }
    Ok(narrow)
}

/// A place with an item more, where the record has it.
fn grown<'a>(place: &Place<'a>, item: Item) -> Option<Place<'a>>
    requires ascending { Rises (place_of place.now) }
    requires room { unsigned_abs place.now.own + unsigned_abs (value_of item.0
        (pairs_of place.now.cells.now)) < 2 ^ 127 }
    ensures { option_to_list (option_map place_of result)
        ≡ narrowed item.0 (place_of place.now ∷ []) }
{
    let value = value_at(place.cells, item)?;
    Some(Place {
        cells: place.cells,
        own: place.own + value,
    })
}

/// The value of an item in a record that has it, looked for by halves.
fn value_at(cells: &[Cell], item: Item) -> Option<i128>
    requires { Ascend (items_in (pairs_of cells.now)) }
    ensures { result ≡ value_in item.0 (pairs_of cells.now) }
{
    let cell = cells.get(cells_below(cells, item))?;
    if cell.item.0 == item.0 {
        Some(cell.value)
    } else {
        None
    }
}

/// What a prefix earns.
pub(crate) fn earned(places: &[Place<'_>]) -> i128
    requires { (later : List ℕ) × HasRoom later (places_of places.now) }
    ensures { result ≡ earned (places_of places.now) }
{
    let mut sum = 0;
    for place in places {
        sum += place.own;
    }
    sum
}

/// How many items of the order stand before an item, where at least so many do.
pub(crate) fn later_rank(order: &Order, from: usize, item: Item) -> Option<usize>
    requires { Apart order.now }
    ensures after { IfSome result (λ rank. after item.0 (drop from order.now)
        ≡ drop (rank + 1) order.now) }
    ensures within { IfSome result (λ rank. rank < length order.now) }
    ensures small { IfSome result (λ rank. rank + 1 < 2 ^ 64) }
    ensures some { IfSome result (λ _. is_among item.0 (drop from order.now) ≡ true) }
    ensures none { IfNone result (is_among item.0 (drop from order.now) ≡ false) }
{
    // This tells the proof that ranks are small.
    let _count = order.len();
    let rank = order.rank_of(item)?;
    if rank < from { None } else { Some(rank) }
}
