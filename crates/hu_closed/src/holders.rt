//! The records that hold an item, by their places.

ghost use Rattle.std.specs.Prelude.{◌≡◌, ◌<◌, ◌++◌, ℕ, ℤ, List, map, length, IfOk, OnOk};
ghost use Rattle.std.specs.List.{Contains};
ghost use Rattle.hu_totals.specs.Weights.{numbers_of};
ghost use Rattle.hu_closed.specs.Holders.{lists_of, pairs_from, AreHolders};
ghost use Rattle.hu_closed.specs.Places.{places_at};

use crate::places::Places;
use hu_kind::{Item, NoMemory};
use std::alloc::Global;

/// For each item that occurs the places of the records that hold it. It takes a look-up in a hash table for each cell.
pub(crate) fn all_holders(alloc: Global, lists: &[Vec<Item>]) -> Result<Places, NoMemory>
    ensures { IfOk result (λ places. AreHolders places (pairs_from 0 (lists_of lists.now))) }
{
    let mut places = Places::none(alloc);
    for place in 0..lists.len() {
        add_record(alloc, &mut places, &lists[place], place)?;
    }
    Ok(places)
}

/// Adds a place to those of each of its items.
fn add_record(
    alloc: Global,
    places: &mut Places,
    items: &[Item],
    place: usize,
) -> Result<(), NoMemory>
    ensures { OnOk result ((pairs : List (ℕ × ℕ)) → AreHolders places.old pairs
        → AreHolders places.new (pairs ++ map (λ item. (item, place)) (numbers_of items.now))) }
{
    for item in items {
        places.add(alloc, i64::from(item.0), place)?;
    }
    Ok(())
}

/// The places of that number of a key which has the fewest.
pub(crate) fn rarest<'a>(places: &'a Places, key: &[i64]) -> &'a [usize]
    requires { 0 < length key.now }
    ensures { (number : ℤ) × Contains key.now number × (result.now ≡ places_at places.now number) }
{
    let mut best = places.of(key[0]);
    for number in key {
        let next = places.of(*number);
        if next.len() < best.len() {
            best = next;
        }
    }
    best
}
