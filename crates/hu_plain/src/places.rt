//! Places: where in a sequence record a prefix can end.

ghost use Rattle.std.specs.Prelude.{◌≡◌, ◌<◌, ◌^◌, [], ◌++◌, map, None, IfOk, OnOk};
ghost use Rattle.std.specs.List.{sum_by, AllByRecursion};
ghost use Rattle.hu_kind.specs.Cell.{pairs_of};
ghost use Rattle.hu_kind.specs.Record.{absolute_of};
ghost use Rattle.hu_kind.specs.Sequence.{better};
ghost use Rattle.hu_plain.specs.Row.{grown_rows, AreRows};
ghost use Rattle.hu_plain.specs.View.{rows_in, Appends};
ghost use Rattle.hu_plain.specs.Growth.{grown_utility};
ghost use Rattle.hu_plain.specs.Place.{after, all_stepped, begun, best_of, best_sum, first_places, fresh, into, reach_of, stepped, ArePlaces, AreAscending};
ghost use Rattle.hu_plain.specs.PlaceView.{all_places, following, items_after, items_at, joining, pushed, step_after, step_into, place_of, places_of, HasSteps};

use crate::row::{Row, distinct, push_items};
use hu_kind::{Cell, Item, NoMemory, SeqRecord};
use std::alloc::Global;

/// A way to grow a sequence by one item.
#[derive(Clone, Copy)]
pub(crate) enum Step {
    /// The item joins the last itemset.
    Into(Item),
    /// The item begins a new itemset.
    After(Item),
}

/// An itemset of a record, with the row of the best occurrence of the prefix that ends in it, if one does.
#[derive(Clone, Copy)]
pub(crate) struct Place<'a> {
    pub end: Option<Row<'a>>,
    pub cells: &'a [Cell],
}

impl<'a> Place<'a> {
    /// The place at the same itemset that a row makes with an item more.
    fn ended(&self, row: Option<Row<'a>>, item: Item) -> Place<'a>
        requires { AreRows (rows_in row) }
        ensures { place_of result
            ≡ (grown_rows item.0 (rows_in row.entry), pairs_of self.now.cells.now) }
    {
        Place {
            end: grown_row(row, item),
            cells: self.cells,
        }
    }

    /// The row of the whole itemset after a sum.
    fn fresh(&self, best: Option<i128>) -> Option<Row<'a>>
        ensures { rows_in result ≡ fresh best (pairs_of self.now.cells.now) }
    {
        Some(Row {
            earned: best?,
            tail: self.cells,
        })
    }

    /// What the occurrence that ends here earns.
    fn earned(&self) -> Option<i128>
        ensures { result ≡ best_sum (rows_in self.now.end) }
    {
        Some(self.end?.earned)
    }
}

/// The row with an item more.
fn grown_row(row: Option<Row<'_>>, item: Item) -> Option<Row<'_>>
    requires { AreRows (rows_in row) }
    ensures { rows_in result ≡ grown_rows item.0 (rows_in row.entry) }
{
    row?.grown(item)
}

/// The greater of two sums; none is less than every sum.
fn better(a: Option<i128>, b: Option<i128>) -> Option<i128>
    ensures { result ≡ better a b }
{
    match (a, b) {
        (Some(x), Some(y)) => Some(x.max(y)),
        (None, b) => b,
        (a, None) => a,
    }
}

/// The best utility of the prefix in a record, where it occurs there.
pub(crate) fn best_of(places: &[Place<'_>]) -> Option<i128>
    ensures { result ≡ best_of (places_of places.now) }
{
    let mut best = None;
    for place in places {
        best = better(best, place.earned());
    }
    best
}

/// The places of a record for the empty prefix, which ends before the first itemset.
fn first_places(alloc: Global, sequence: &SeqRecord) -> Result<Vec<Place<'_>>, NoMemory>
    ensures value { IfOk result (λ places. places_of places.items ≡ first_places sequence.now) }
    ensures ascending { IfOk result (λ places. AreAscending (places_of places.items)) }
{
    let mut places = Vec::new(alloc);
    places.push(Place {
        end: Some(Row {
            earned: 0,
            tail: &[],
        }),
        cells: &[],
    })?;
    for element in sequence.elements() {
        places.push(Place {
            end: None,
            cells: element.cells(),
        })?;
    }
    Ok(places)
}

/// The places of each record for the empty prefix.
pub(crate) fn first_places_of(
    alloc: Global,
    records: &[SeqRecord],
) -> Result<Vec<Vec<Place<'_>>>, NoMemory>
    requires { sum_by (sum_by absolute_of) records.now < 2 ^ 127 }
    ensures value { IfOk result (λ rows. all_places rows.items ≡ map first_places records.now) }
    ensures rules { IfOk result (λ rows. ArePlaces (all_places rows.items)) }
{
    let mut rows = Vec::new(alloc);
    for record in records {
        rows.push(first_places(alloc, record)?)?;
    }
    Ok(rows)
}

/// The places with an item more in the last itemset.
fn into<'a>(alloc: Global, places: &[Place<'a>], item: Item) -> Result<Vec<Place<'a>>, NoMemory>
    requires ascending { AreAscending (places_of places.now) }
    requires sum_fits { reach_of (places_of places.now) < 2 ^ 127 }
    ensures { IfOk result
        (λ grown. places_of grown.items ≡ begun (into item.0 (places_of places.now))) }
{
    let mut grown = Vec::new(alloc);
    for place in places {
        push_place(&mut grown, place.ended(place.end, item))?;
    }
    Ok(grown)
}

/// The places with an item in a new itemset. Each itemset goes with the best occurrence that ends before it.
fn after<'a>(alloc: Global, places: &[Place<'a>], item: Item) -> Result<Vec<Place<'a>>, NoMemory>
    requires ascending { AreAscending (places_of places.now) }
    requires sum_fits { reach_of (places_of places.now) < 2 ^ 127 }
    ensures { IfOk result (λ grown. places_of grown.items
        ≡ begun (after item.0 None (places_of places.now))) }
{
    let mut grown = Vec::new(alloc);
    let mut best = None;
    for place in places {
        push_place(&mut grown, place.ended(place.fresh(best), item))?;
        best = better(best, place.earned());
    }
    Ok(grown)
}

/// Appends a place, but none before the first in which the prefix ends.
fn push_place<'a>(places: &mut Vec<Place<'a>>, place: Place<'a>) -> Result<(), NoMemory>
    ensures { OnOk result (places_of places.new.items ≡ pushed (places_of places.old.items)
        (place_of place.entry)) }
{
    if !places.is_empty() || place.end.is_some() {
        places.push(place)?;
    }
    Ok(())
}

/// The places after a step.
fn stepped<'a>(alloc: Global, places: &[Place<'a>], step: Step) -> Result<Vec<Place<'a>>, NoMemory>
    requires ascending { AreAscending (places_of places.now) }
    requires sum_fits { reach_of (places_of places.now) < 2 ^ 127 }
    ensures { IfOk result (λ grown. places_of grown.items ≡ stepped step (places_of places.now)) }
{
    match step {
        Step::Into(item) => into(alloc, places, item),
        Step::After(item) => after(alloc, places, item),
    }
}

/// The places after a step in each record in which the prefix still occurs.
pub(crate) fn all_stepped<'a>(
    alloc: Global,
    rows: &[Vec<Place<'a>>],
    step: Step,
) -> Result<Vec<Vec<Place<'a>>>, NoMemory>
    requires { ArePlaces (all_places rows.now) }
    ensures value { IfOk result
        (λ grown. all_places grown.items ≡ all_stepped step (all_places rows.now)) }
    ensures rules { IfOk result (λ grown. ArePlaces (all_places grown.items)) }
{
    let mut grown = Vec::new(alloc);
    for places in rows {
        let next = stepped(alloc, places, step)?;
        if !next.is_empty() {
            grown.push(next)?;
        }
    }
    Ok(grown)
}

/// What the prefix earns in all records.
pub(crate) fn total_best(rows: &[Vec<Place<'_>>]) -> i128
    requires { ArePlaces (all_places rows.now) }
    ensures { result ≡ grown_utility (all_places rows.now) [] [] }
{
    let mut sum = 0;
    for places in rows {
        sum += best_of(places).unwrap_or(0);
    }
    sum
}

/// The steps that the prefix can take in some record, and maybe others, each once.
pub(crate) fn steps_of(alloc: Global, rows: &[Vec<Place<'_>>]) -> Result<Vec<Step>, NoMemory>
    requires { ArePlaces (all_places rows.now) }
    ensures { IfOk result (λ steps. HasSteps (all_places rows.now) steps.items) }
{
    let mut joining = Vec::new(alloc);
    let mut following = Vec::new(alloc);
    for places in rows {
        push_joining(&mut joining, places)?;
        push_following(&mut following, places)?;
    }
    let mut steps = Vec::new(alloc);
    push_into(&mut steps, &distinct(joining))?;
    push_after(&mut steps, &distinct(following))?;
    Ok(steps)
}

/// Appends the steps of items that join the last itemset.
fn push_into(steps: &mut Vec<Step>, items: &[Item]) -> Result<(), NoMemory>
    ensures { OnOk result (steps.new.items ≡ steps.old.items ++ map step_into items.now) }
{
    for item in items {
        steps.push(Step::Into(*item))?;
    }
    Ok(())
}

/// Appends the steps of items that begin a new itemset.
fn push_after(steps: &mut Vec<Step>, items: &[Item]) -> Result<(), NoMemory>
    ensures { OnOk result (steps.new.items ≡ steps.old.items ++ map step_after items.now) }
{
    for item in items {
        steps.push(Step::After(*item))?;
    }
    Ok(())
}

/// Appends the items that can join the last itemset in a record.
fn push_joining(items: &mut Vec<Item>, places: &[Place<'_>]) -> Result<(), NoMemory>
    ensures { OnOk result
        (Appends items.old.items (joining (places_of places.now)) items.new.items) }
{
    for place in places {
        push_tail(items, place.end)?;
    }
    Ok(())
}

/// Appends the items after a row's prefix.
fn push_tail(items: &mut Vec<Item>, row: Option<Row<'_>>) -> Result<(), NoMemory>
    ensures { OnOk result
        (Appends items.old.items (items_after (rows_in row.entry)) items.new.items) }
{
    match row {
        Some(row) => push_items(items, row.tail),
        None => Ok(()),
    }
}

/// Appends the items that can begin a new itemset in a record: those after the first place.
fn push_following(items: &mut Vec<Item>, places: &[Place<'_>]) -> Result<(), NoMemory>
    ensures { OnOk result
        (Appends items.old.items (following (places_of places.now)) items.new.items) }
{
    match places.split_first() {
        Some((_, later)) => push_cells(items, later),
        None => Ok(()),
    }
}

/// Appends the items of all cells at places.
fn push_cells(items: &mut Vec<Item>, places: &[Place<'_>]) -> Result<(), NoMemory>
    ensures { OnOk result
        (Appends items.old.items (items_at (places_of places.now)) items.new.items) }
{
    for place in places {
        push_items(items, place.cells)?;
    }
    Ok(())
}
