//! The bounds of a prefix with each of the named items, in one pass over the cells of its places.

ghost use Rattle.std.specs.Prelude.{◌≡◌, ◌+◌, ◌<◌, ◌≤◌, ◌^◌, ◌+ℤ◌, ℕ, pos, length, unsigned_abs, IfOk, OnOk};
ghost use Rattle.std.specs.List.{AllByRecursion};
ghost use Rattle.hu_kind.specs.Cell.{pairs_of};
ghost use Rattle.hu_kind.specs.Record.{absolute_of};
ghost use Rattle.hu_proof.specs.Places.{place_of, places_of, Apart, HasRoom, IsRoomy, Rises};
ghost use Rattle.hu_proof.specs.Slots.{bound_at, gained, share_at, shares_at, size_in, slotted};

use crate::order::Order;
use crate::place::Place;
use hu_kind::{Cell, NoMemory, positive_part};
use std::alloc::Global;

/// A value of a record at a named item, with the item's slot: how many stand before it among the named ones.
#[derive(Clone, Copy)]
pub(crate) struct Slotted {
    pub slot: usize,
    pub value: i128,
}

/// The bound of a prefix with each of the named items and the later ones of these. Each cell of the places takes a look-up by
/// a hash, and those of named items are put in their order place by place.
pub(crate) fn bounds(
    alloc: Global,
    named: &Order,
    places: &[Place<'_>],
) -> Result<Vec<i128>, NoMemory>
    requires apart { Apart named.now }
    requires room { HasRoom named.now (places_of places.now) }
    ensures len { IfOk result (λ bounds. length bounds.items ≡ length named.now) }
    ensures value { IfOk result (λ bounds. (slot : ℕ) → slot < length named.now
        → bound_at bounds.items slot ≡ shares_at named.now (places_of places.now) slot) }
{
    let mut bounds = vec![in alloc; 0i128; named.len()]?;
    let mut values = Vec::new(alloc);
    for place in places {
        add_place(named, place, &mut values, &mut bounds)?;
    }
    Ok(bounds)
}

/// Adds to the bounds what the prefix may earn in a place. What the vector of values held is forgotten.
fn add_place(
    named: &Order,
    place: &Place<'_>,
    values: &mut Vec<Slotted>,
    bounds: &mut Vec<i128>,
) -> Result<(), NoMemory>
    requires apart { Apart named.now }
    requires ascending { Rises (place_of place.now) }
    requires roomy { IsRoomy named.now (place_of place.now) }
    requires small { absolute_of (pairs_of place.now.cells.now) < 2 ^ 127 }
    requires len { length bounds.old.items ≡ length named.now }
    requires fits { (slot : ℕ) → slot < length named.now → unsigned_abs
        (bound_at bounds.old.items slot) + absolute_of (pairs_of place.now.cells.now) < 2 ^ 127 }
    ensures len { OnOk result (length bounds.new.items ≡ length named.now) }
    ensures value { OnOk result ((slot : ℕ) → slot < length named.now
        → bound_at bounds.new.items slot ≡ bound_at bounds.old.items slot
        +ℤ share_at named.now (place_of place.now) slot) }
{
    fill(named, place.cells, values)?;
    values.sort_unstable_by_key(|one| one.slot);
    add_values(values, place.own, bounds);
    Ok(())
}

/// Has the values of cells at named items in place of all others.
fn fill(named: &Order, cells: &[Cell], values: &mut Vec<Slotted>) -> Result<(), NoMemory>
    requires { absolute_of (pairs_of cells.now) < 2 ^ 127 }
    ensures { OnOk result (values.new.items ≡ slotted named.now (pairs_of cells.now)) }
{
    values.clear();
    for cell in cells {
        if let Some(slot) = named.rank_of(cell.item) {
            values.push(Slotted {
                slot,
                value: cell.value,
            })?;
        }
    }
    Ok(())
}

/// Adds to the bound of each value's slot what the prefix may earn with it and with the values after it.
fn add_values(values: &[Slotted], own: i128, bounds: &mut Vec<i128>)
    requires slots { AllByRecursion (λ one. one.slot < length bounds.old.items) values.now }
    requires sizes { unsigned_abs own + size_in values.now < 2 ^ 127 }
    requires fits { (slot : ℕ) → slot < length bounds.old.items → unsigned_abs
        (bound_at bounds.old.items slot) + gained own slot values.now < 2 ^ 127 }
    ensures len { length bounds.new.items ≡ length bounds.old.items }
    ensures value { (slot : ℕ) → slot < length bounds.old.items
        → bound_at bounds.new.items slot
        ≡ bound_at bounds.old.items slot +ℤ pos (gained own slot values.now) }
{
    let mut gain = 0;
    let mut i = values.len();
    'values: while i > 0 {
        i -= 1;
        let Slotted { slot, value } = values[i];
        bounds[slot] += positive_part(own + value + gain);
        gain += positive_part(value);
    }
}
