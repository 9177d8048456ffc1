//! The marks of all items by which a pattern can grow, gathered in one pass over its places.

ghost use Rattle.std.specs.Prelude.{◌≡◌, ◌++◌, ℕ, pos, Bool, [], length, reverse, IfOk, OnOk, true};
ghost use Rattle.std.specs.List.{AllByRecursion};
ghost use Rattle.hu_kind.specs.Sequence.{IsSequence};
ghost use Rattle.hu_chain.specs.Place.{totals};
ghost use Rattle.hu_span.specs.Trail.{cells_from, trail_marks, trail_spans, AreReached, HoldsPlaces, OfHeld};

use crate::rows::next_row;
use crate::trail::{Held, TrailCell, push_record};
use crate::walk::{Walk, push_beside, push_later, push_walk};
use hu_chain::Growth;
use hu_kind::{Absolute, NoMemory, SeqRecord};
use std::alloc::Global;

/// The marks by which a pattern can grow, of both kinds of growth.
#[derive(Drop)]
pub(crate) struct Grown {
    pub into: Held,
    pub after: Held,
}

/// The marks of a pattern with an item more.
pub(crate) fn gathered(alloc: Global, trail: &[TrailCell], held: &Held) -> Result<Grown, NoMemory>
    requires { HoldsPlaces trail.now held.now }
    ensures into { OfHeld trail.now held.now (λ keep records p.
        IfOk result (λ grown. AreReached keep records trail.now p Growth.IntoLast grown.into)) }
    ensures after { OfHeld trail.now held.now (λ keep records p.
        IfOk result (λ grown. AreReached keep records trail.now p Growth.AfterLast grown.after)) }
{
    let into = held_into(alloc, trail, held)?;
    let after = held_after(alloc, trail, held)?;
    Ok(Grown { into, after })
}

/// Where a search begins: the cells of all records, and the marks by which the empty pattern grows.
#[derive(Drop)]
pub(crate) struct Begun {
    pub trail: Vec<TrailCell>,
    pub grown: Grown,
}

/// The cells of all records, and a mark for each.
pub(crate) fn first_grown(alloc: Global, records: &[SeqRecord]) -> Result<Begun, NoMemory>
    ensures into { IfOk result (λ begun. begun.grown.into.marks.items ≡ []) }
    ensures none { IfOk result (λ begun. begun.grown.into.spans.items ≡ []) }
    ensures after { (keep : ℕ → Bool) → ((item : ℕ) → keep item ≡ true)
        → IfOk result (λ begun. AreReached keep records.now begun.trail.items [] Growth.AfterLast
        begun.grown.after) }
    ensures rules { IfOk result (λ _. AllByRecursion IsSequence records.now) }
{
    let mut trail = Vec::new(alloc);
    let mut after = Held::new(alloc);
    'records: for (row, record) in records.iter().enumerate() {
        push_first(&mut trail, &mut after, row, record)?;
    }
    let into = Held::new(alloc);
    Ok(Begun {
        trail,
        grown: Grown { into, after },
    })
}

/// Appends the cells of a record, and a mark for each.
fn push_first(
    trail: &mut Vec<TrailCell>,
    held: &mut Held,
    row: usize,
    one: &SeqRecord,
) -> Result<(), NoMemory>
    ensures cells { OnOk result (trail.new.items
        ≡ trail.old.items ++ reverse (cells_from 0 one.now)) }
    ensures marks { OnOk result (held.new.marks.items
        ≡ held.old.marks.items ++ trail_marks row (pos 0) (totals one.now) [] (cells_from 0 one.now)) }
    ensures spans { OnOk result (held.new.spans.items
        ≡ held.old.spans.items ++ trail_spans (length trail.old.items) 0 (cells_from 0 one.now)) }
    ensures rules { IsSequence one.now }
{
    let low = trail.len();
    push_record(trail, one.elements())?;
    let walk = Walk {
        best: 0,
        ahead: one.absolute(),
        left: &[],
    };
    push_walk(held, &trail[low..], low, row, walk)
}

/// The marks of a pattern with an item more in its last itemset.
fn held_into(alloc: Global, trail: &[TrailCell], held: &Held) -> Result<Held, NoMemory>
    requires { HoldsPlaces trail.now held.now }
    ensures { OfHeld trail.now held.now (λ keep records p.
        IfOk result (AreReached keep records trail.now p Growth.IntoLast)) }
{
    let mut grown = Held::new(alloc);
    'marks: for (number, mark) in held.marks.iter().enumerate() {
        let stretch = held.behind(number, trail);
        push_beside(&mut grown, stretch.cells, stretch.low, mark)?;
    }
    Ok(grown)
}

/// The marks of a pattern with an item in a new last itemset.
fn held_after(alloc: Global, trail: &[TrailCell], held: &Held) -> Result<Held, NoMemory>
    requires { HoldsPlaces trail.now held.now }
    ensures { OfHeld trail.now held.now (λ keep records p.
        IfOk result (AreReached keep records trail.now p Growth.AfterLast)) }
{
    let mut grown = Held::new(alloc);
    let mut left = held.marks.as_slice();
    'rows: while let Some(row) = next_row(held, trail, left) {
        push_later(&mut grown, row)?;
        left = row.left;
    }
    Ok(grown)
}
