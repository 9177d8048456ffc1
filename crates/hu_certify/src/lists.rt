//! The places of each child of a prefix that is opened, in one pass over the prefix's places by a list for each rank.

ghost use Rattle.std.specs.Prelude.{◌≡◌, ℕ, ◌<◌, ◌^◌, ◌==◌, ◌++◌, [], ◌∷◌, length, set, replicate, if◌then◌else◌, IfOk, OnOk};
ghost use Rattle.std.specs.List.{AllByRecursion};
ghost use Rattle.hu_kind.specs.Order.{Ascend};
ghost use Rattle.hu_kind.specs.Record.{items_in};
ghost use Rattle.hu_certify.specs.Slots.{kept, list_at, lists_of};
ghost use Rattle.hu_certify.specs.Spots.{grown, narrowed, size_of, spot_of, spots_of, AreAscending, AreRanks, HasRoom};

use crate::place::Place;
use crate::slots::Slot;
use hu_kind::NoMemory;
use std::alloc::Global;

/// So many empty lists.
pub(crate) fn empty_lists<'a>(alloc: Global, count: usize) -> Result<Vec<Vec<Place<'a>>>, NoMemory>
    ensures { IfOk result (λ lists. lists_of lists.items ≡ replicate count []) }
{
    let mut lists = Vec::with_capacity(alloc, count)?;
    for _ in 0..count {
        lists.push(Vec::new(alloc))?;
    }
    Ok(lists)
}

/// Takes the list of a rank, and leaves it empty.
pub(crate) fn take<'a>(alloc: Global, lists: &mut Vec<Vec<Place<'a>>>, rank: u32) -> Vec<Place<'a>>
    requires { rank < length lists.old.items }
    ensures value { spots_of result.items ≡ list_at lists.old.items rank }
    ensures left { lists_of lists.new.items ≡ set (lists_of lists.old.items) rank [] }
{
    std::mem::replace(&mut lists[rank as usize], Vec::new(alloc))
}

/// Hands out places: what each of them leaves to a rank goes to the rank's list, where the rank's bound reaches a minimum. One
/// pass over the cells.
pub(crate) fn hand_out<'a>(
    slots: &[Slot],
    lists: &mut Vec<Vec<Place<'a>>>,
    places: &[Place<'a>],
    least: i128,
) -> Result<(), NoMemory>
    requires room { HasRoom (spots_of places.now) }
    requires ranks { AreRanks (length slots.now) (spots_of places.now) }
    requires ascending { AreAscending (spots_of places.now) }
    requires length { length lists.old.items ≡ length slots.now }
    ensures length { OnOk result (length lists.new.items ≡ length lists.old.items) }
    ensures lists { OnOk result ((z : ℕ) → list_at lists.new.items z
        ≡ list_at lists.old.items z ++ kept least slots.now z (narrowed z (spots_of places.now))) }
{
    for place in places {
        hand_place(slots, lists, place, least)?;
    }
    Ok(())
}

/// Hands out a place.
fn hand_place<'a>(
    slots: &[Slot],
    lists: &mut Vec<Vec<Place<'a>>>,
    place: &Place<'a>,
    least: i128,
) -> Result<(), NoMemory>
    requires fits { size_of (spot_of place.now) < 2 ^ 127 }
    requires ranks { AllByRecursion (λ cell. cell.0 < length slots.now) (spot_of place.now).0 }
    requires ascending { Ascend (items_in (spot_of place.now).0) }
    requires length { length lists.old.items ≡ length slots.now }
    ensures length { OnOk result (length lists.new.items ≡ length lists.old.items) }
    ensures lists { OnOk result ((z : ℕ) → list_at lists.new.items z
        ≡ list_at lists.old.items z ++ kept least slots.now z (grown z (spot_of place.now))) }
{
    for (at, cell) in place.rest.iter().enumerate() {
        let left = Place {
            rest: &place.rest[at + 1..],
            own: place.own + cell.value,
        };
        hand(slots, lists, cell.rank, left, least)?;
    }
    Ok(())
}

/// Puts a place into the list of a rank whose bound reaches a minimum.
fn hand<'a>(
    slots: &[Slot],
    lists: &mut Vec<Vec<Place<'a>>>,
    rank: u32,
    place: Place<'a>,
    least: i128,
) -> Result<(), NoMemory>
    requires within { rank < length slots.now }
    requires length { length lists.old.items ≡ length slots.now }
    ensures length { OnOk result (length lists.new.items ≡ length lists.old.items) }
    ensures lists { OnOk result ((z : ℕ) → list_at lists.new.items z ≡ (if z == rank then
        list_at lists.old.items z ++ kept least slots.now z (spot_of place.entry ∷ []) else
        list_at lists.old.items z)) }
{
    if slots[rank as usize].bound >= least {
        lists[rank as usize].push(place)?;
    }
    Ok(())
}
