//! The children of a pattern, told row by row while its marks are gathered.

ghost use Rattle.std.specs.Prelude.{IfOk};
ghost use Rattle.std.specs.List.{AllByRecursion};
ghost use Rattle.hu_span.specs.Child.{AreAllTold, AreChildren, IsSpread};
ghost use Rattle.hu_span.specs.Kept.{weighed_of};
ghost use Rattle.hu_span.specs.Trail.{HoldsPlaces, OfHeld};

use crate::child::{Child, children_told, tell_all};
use crate::links::Links;
use crate::rows::next_row;
use crate::trail::{Held, Span, TrailCell};
use crate::walk::{push_beside, push_later};
use hu_chain::Growth;
use hu_kind::NoMemory;
use std::alloc::Global;

/// The children of a pattern with an item more, and what is known of the rows. The marks by which the pattern grows are told row
/// by row, so that those of one row alone are held.
pub(crate) fn scanned(
    alloc: Global,
    trail: &[TrailCell],
    held: &Held,
    reaches: &[i128],
) -> Result<Vec<Child>, NoMemory>
    requires { HoldsPlaces trail.now held.now }
    ensures children { OfHeld trail.now held.now (λ keep records p.
        IfOk result (λ children. AreChildren (weighed_of keep records) keep p children.items)) }
    ensures spreads { OfHeld trail.now held.now (λ keep records p.
        IfOk result (λ children. AllByRecursion
        (IsSpread reaches.now (weighed_of keep records) p) children.items)) }
{
    let room = cells_behind(&held.spans);
    let mut children = scanned_into(alloc, trail, held, reaches, room)?;
    let mut later = scanned_after(alloc, trail, held, reaches, room)?;
    children.append(&mut later)?;
    Ok(children)
}

/// How many cells stand at spans together, those of a row once: no more items are met there.
fn cells_behind(spans: &[Span]) -> usize {
    let mut cells: usize = 0;
    let mut counted = None;
    'spans: for span in spans {
        if counted != Some(span.low) {
            cells = cells.saturating_add(span.high.saturating_sub(span.low));
            counted = Some(span.low);
        }
    }
    cells
}

/// The children with an item more in the last itemset, where there is room for the links of so many marks.
fn scanned_into(
    alloc: Global,
    trail: &[TrailCell],
    held: &Held,
    reaches: &[i128],
    room: usize,
) -> Result<Vec<Child>, NoMemory>
    requires { HoldsPlaces trail.now held.now }
    ensures { OfHeld trail.now held.now (λ keep records p.
        IfOk result (λ children. AreAllTold (weighed_of keep records) keep p
        Growth.IntoLast reaches.now children.items)) }
{
    let mut links = Links::new(alloc, room)?;
    let mut tells = Vec::new(alloc);
    let mut beside = Held::new(alloc);
    'marks: for (number, mark) in held.marks.iter().enumerate() {
        let stretch = held.behind(number, trail);
        beside.clear();
        push_beside(&mut beside, stretch.cells, stretch.low, mark)?;
        tell_all(&mut links, &mut tells, &beside.marks, reaches)?;
    }
    children_told(alloc, &links, &tells, Growth::IntoLast)
}

/// The children with an item in a new last itemset, where there is room for the links of so many marks.
fn scanned_after(
    alloc: Global,
    trail: &[TrailCell],
    held: &Held,
    reaches: &[i128],
    room: usize,
) -> Result<Vec<Child>, NoMemory>
    requires { HoldsPlaces trail.now held.now }
    ensures { OfHeld trail.now held.now (λ keep records p.
        IfOk result (λ children. AreAllTold (weighed_of keep records) keep p
        Growth.AfterLast reaches.now children.items)) }
{
    let mut links = Links::new(alloc, room)?;
    let mut tells = Vec::new(alloc);
    let mut later = Held::new(alloc);
    let mut left = held.marks.as_slice();
    'rows: while let Some(row) = next_row(held, trail, left) {
        later.clear();
        push_later(&mut later, row)?;
        tell_all(&mut links, &mut tells, &later.marks, reaches)?;
        left = row.left;
    }
    children_told(alloc, &links, &tells, Growth::AfterLast)
}
