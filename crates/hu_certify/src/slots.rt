//! The ranks that may follow a prefix, with the most that the prefix may earn with each, in one pass over the prefix's places
//! by a slot for each rank.

ghost use Rattle.std.specs.Prelude.{◌≡◌, ℕ, ◌<◌, ◌≤◌, ◌+◌, ◌^◌, ◌++◌, [], ◌∷◌, length, set, replicate, unsigned_abs, if◌then◌else◌, IfOk, OnOk};
ghost use Rattle.std.specs.List.{AllByRecursion};
ghost use Rattle.std.specs.Ordering.{nat_cmp};
ghost use Rattle.hu_kind.specs.Order.{ranking, Ascend};
ghost use Rattle.hu_kind.specs.Record.{items_in};
ghost use Rattle.hu_certify.specs.Slots.{no_slot, slot_of, slot_over, with_more, with_spot, AreEmpty, AreMet};
ghost use Rattle.hu_certify.specs.Spots.{rank_pair, size_of, spot_of, spots_of, standing, AreAscending, AreRanks, HasRoom};

use crate::place::Place;
use hu_kind::{NoMemory, positive_part};
use std::alloc::Global;

/// The rank of an item that stands with a prefix, with the most that the prefix may earn with it and with later items.
#[derive(Clone, Copy)]
pub(crate) struct Child {
    pub rank: u32,
    pub bound: i128,
}

/// Whether a rank stands in a place of a prefix, and the most that the prefix may earn with it and with later items.
#[derive(Clone, Copy)]
pub(crate) struct Slot {
    pub met: bool,
    pub bound: i128,
}

impl Slot {
    /// The slot of a rank that stands nowhere.
    const EMPTY: Slot = Slot {
        met: false,
        bound: 0,
    };
}

/// Empty slots for so many ranks.
pub(crate) fn empty_slots(alloc: Global, count: usize) -> Result<Vec<Slot>, NoMemory>
    ensures { IfOk result (λ slots. slots.items ≡ replicate count no_slot) }
{
    Ok(vec![in alloc; Slot::EMPTY; count]?)
}

/// The child with a rank, from the rank's slot, which is empty then.
pub(crate) fn take_child(slots: &mut Vec<Slot>, rank: u32) -> Child
    requires { rank < length slots.old.items }
    ensures child { rank_pair result ≡ (rank, (slot_of slots.old.items rank).bound) }
    ensures slots { slots.new.items ≡ set slots.old.items rank no_slot }
{
    let child = Child {
        rank,
        bound: slots[rank as usize].bound,
    };
    slots[rank as usize] = Slot::EMPTY;
    child
}

/// Fills the slots of the ranks that stand in some place, and gives these ranks, ascending.
pub(crate) fn fill(
    alloc: Global,
    slots: &mut Vec<Slot>,
    places: &[Place<'_>],
) -> Result<Vec<u32>, NoMemory>
    requires room { HasRoom (spots_of places.now) }
    requires ranks { AreRanks (length slots.old.items) (spots_of places.now) }
    requires ascending { AreAscending (spots_of places.now) }
    requires empty { AreEmpty slots.old.items }
    ensures ranks { IfOk result (λ ranks. ranks.items ≡ standing (spots_of places.now)) }
    ensures length { OnOk result (length slots.new.items ≡ length slots.old.items) }
    ensures slots { OnOk result ((z : ℕ) → slot_of slots.new.items z
        ≡ slot_over (spots_of places.now) z) }
{
    let mut ranks = Vec::new(alloc);
    for place in places {
        add_place(slots, &mut ranks, place)?;
    }
    put_in_order(&mut ranks);
    Ok(ranks)
}

/// Adds a place to the slots of the ranks that stand in it, in one pass from its last cell to its first.
fn add_place(slots: &mut Vec<Slot>, ranks: &mut Vec<u32>, place: &Place<'_>) -> Result<(), NoMemory>
    requires ranks { AllByRecursion (λ cell. cell.0 < length slots.old.items)
        (spot_of place.now).0 }
    requires ascending { Ascend (items_in (spot_of place.now).0) }
    requires fits { (z : ℕ) → unsigned_abs (slot_of slots.old.items z).bound
        + size_of (spot_of place.now) < 2 ^ 127 }
    requires met { AreMet ranks.old.items slots.old.items }
    ensures length { OnOk result (length slots.new.items ≡ length slots.old.items) }
    ensures slots { OnOk result ((z : ℕ) → slot_of slots.new.items z
        ≡ with_spot z (spot_of place.now) (slot_of slots.old.items z)) }
    ensures met { OnOk result (AreMet ranks.new.items slots.new.items) }
{
    let mut rest = 0;
    for back in 0..place.rest.len() {
        let cell = &place.rest[place.rest.len() - 1 - back];
        let share = positive_part(place.own + cell.value + rest);
        add_share(slots, ranks, cell.rank, share)?;
        rest += positive_part(cell.value);
    }
    Ok(())
}

/// Adds to a rank's slot what the prefix may earn with it in a place. A rank that is met for the first time is noted.
fn add_share(
    slots: &mut Vec<Slot>,
    ranks: &mut Vec<u32>,
    rank: u32,
    share: i128,
) -> Result<(), NoMemory>
    requires within { rank < length slots.old.items }
    requires fits { unsigned_abs (slot_of slots.old.items rank).bound + unsigned_abs share
        < 2 ^ 127 }
    requires met { AreMet ranks.old.items slots.old.items }
    ensures slots { OnOk result (slots.new.items
        ≡ set slots.old.items rank (with_more (slot_of slots.old.items rank) share)) }
    ensures met { OnOk result (AreMet ranks.new.items slots.new.items) }
{
    let slot = slots[rank as usize];
    note(ranks, rank, slot.met)?;
    slots[rank as usize] = Slot {
        met: true,
        bound: slot.bound + share,
    };
    Ok(())
}

/// Notes a rank that hasn't been met yet.
fn note(ranks: &mut Vec<u32>, rank: u32, met: bool) -> Result<(), NoMemory>
    ensures { OnOk result (ranks.new.items
        ≡ ranks.old.items ++ (if met then [] else rank ∷ [])) }
{
    if !met {
        ranks.push(rank)?;
    }
    Ok(())
}

/// Puts numbers in order, each once.
fn put_in_order(numbers: &mut Vec<u32>)
    ensures { numbers.new.items ≡ ranking nat_cmp numbers.old.items }
{
    numbers.sort_unstable();
    numbers.dedup();
}
