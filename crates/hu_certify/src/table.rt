//! The children of a prefix, and the prefix's places with each of them that is opened.

ghost use Rattle.std.specs.Prelude.{◌≡◌, length, map, IfOk, OnOk};
ghost use Rattle.hu_certify.specs.Slots.{lists_of, opened};
ghost use Rattle.hu_certify.specs.Spots.{children_at, rank_pair, spots_of, standing, AreAscending, AreRanks, HasRoom};
ghost use Rattle.hu_certify.specs.Table.{IsAtRest};

use crate::lists::{empty_lists, hand_out, take};
use crate::place::Place;
use crate::slots::{Child, Slot, empty_slots, fill, take_child};
use hu_kind::NoMemory;
use std::alloc::Global;

/// A slot and a list of places for each rank. At rest the slots are empty, and the lists have no place.
#[derive(Drop)]
pub(crate) struct Table<'a> {
    pub slots: Vec<Slot>,
    pub lists: Vec<Vec<Place<'a>>>,
}

/// The children of a prefix, by rank ascending, and along with them the prefix's places with each, or none where the child's
/// bound is below a minimum.
#[derive(Drop)]
pub(crate) struct Below<'a> {
    pub children: Vec<Child>,
    pub places: Vec<Vec<Place<'a>>>,
}

/// A table for so many ranks, at rest.
pub(crate) fn table_of<'a>(alloc: Global, count: usize) -> Result<Table<'a>, NoMemory>
    ensures { IfOk result (IsAtRest count) }
{
    let slots = empty_slots(alloc, count)?;
    let lists = empty_lists(alloc, count)?;
    Ok(Table { slots, lists })
}

/// What stands below a prefix, by a table at rest. It takes two passes over the cells of the prefix's places, and a sort of the
/// ranks that stand there.
pub(crate) fn below_of<'a>(
    alloc: Global,
    table: &mut Table<'a>,
    places: &[Place<'a>],
    least: i128,
) -> Result<Below<'a>, NoMemory>
    requires room { HasRoom (spots_of places.now) }
    requires ranks { AreRanks (length table.old.slots.items) (spots_of places.now) }
    requires ascending { AreAscending (spots_of places.now) }
    requires rest { IsAtRest (length table.old.slots.items) table.old }
    ensures children { IfOk result (λ below. map rank_pair
        below.children.items ≡ children_at (spots_of places.now)) }
    ensures places { IfOk result (λ below. lists_of
        below.places.items ≡ map (opened least (spots_of places.now)) (standing (spots_of places.now))) }
    ensures rest { OnOk result (IsAtRest (length table.old.slots.items) table.new) }
{
    let ranks = fill(alloc, &mut table.slots, places)?;
    hand_out(&table.slots, &mut table.lists, places, least)?;
    let mut children = Vec::with_capacity(alloc, ranks.len())?;
    let mut opened = Vec::with_capacity(alloc, ranks.len())?;
    for rank in &ranks {
        children.push(take_child(&mut table.slots, *rank))?;
        opened.push(take(alloc, &mut table.lists, *rank))?;
    }
    Ok(Below {
        children,
        places: opened,
    })
}
