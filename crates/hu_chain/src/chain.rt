//! Chains: the places of one pattern in one sequence record.

ghost use Rattle.std.specs.Prelude.{◌≡◌, ℕ, ℤ, List, [], ◌∷◌, IfOk, drop, ◌<◌, ◌≤ℤ◌, ◌↔◌, ◌<ℤ◌, ◌^◌, pos, IsNone};
ghost use Rattle.std.specs.List.{list_any, AllByRecursion, sum_by};
ghost use Rattle.hu_kind.specs.Record.{absolute_of, has};
ghost use Rattle.hu_kind.specs.Sequence.{best_utility, better, IsSequence};
ghost use Rattle.hu_chain.specs.Pattern.{after, into, Ends, EndsBelow};
ghost use Rattle.hu_chain.specs.Grown.{grown, CanGrow, IsGrownFrom};
ghost use Rattle.hu_chain.specs.Place.{chain_of};
ghost use Rattle.hu_chain.specs.Bound.{best_of, extension_bound, greatest, reach, reduced_bound, IsAtMost, IsFit};
ghost use Rattle.hu_chain.specs.Search.{followed_places, follows, joined_places, joins, occurs, IsPlaceOf, MayFollow};

use crate::place::{Place, cell_in, cells_at, total};
use crate::walk::{Walk, places_from, push_place};
use hu_kind::{Absolute, Element, Item, NoMemory, SeqRecord};
use std::alloc::Global;
use std::marker::Model;

/// A way in which a pattern takes one item more.
#[derive(Clone, Copy, Debug, PartialEq, Eq)]
pub enum Growth {
    /// The item is put into the last itemset, whose items are smaller.
    IntoLast,
    /// The item begins a new last itemset.
    AfterLast,
}

/// The places of a pattern in a sequence record, in order. It is seen as their list. By type no sum of a place is below
/// 0, and what it earns and what is left after it are at most 2^127 - 1 together. After the utility chains of HUS-Span
/// (Wang, Huang and Chen, 2016).
#[derive(Debug, Drop)]
pub struct Chain {
    places: Vec<Place>,
}

impl Model for Chain {
    ghost use Rattle.std.specs.Prelude.{List};
    ghost use Rattle.std.specs.List.{AllByRecursion, sum_by};
    ghost use Rattle.hu_chain.specs.declared.place.Place.{Place};
    ghost use Rattle.hu_chain.specs.Bound.{IsFit};

    ghost Value = { List Place };

    ghost view = { λ c. c.places.items };

    ghost invariant = { λ c. AllByRecursion IsFit c.places.items };
}

impl Chain {
    /// The chain of the pattern of one item. The item's cell is looked for by halves in each element, and the values
    /// are summed in one pass over the sequence.
    pub fn start(alloc: Global, seq: &SeqRecord, item: Item) -> Result<Chain, NoMemory>
        ensures { IfOk result (λ chain. chain ≡ chain_of ((item.0 ∷ []) ∷ []) seq.now) }
    {
        let walk = Walk {
            best: 0,
            ahead: seq.absolute(),
            left: &[],
        };
        let places = places_from(alloc, seq.elements(), item, 0, walk)?;
        Ok(Chain { places })
    }

    /// The chain of the pattern with an item put into its last itemset, whose items are smaller. The item's cell is
    /// looked for by halves in the element of each place, and the values up to it are summed: at most one pass over
    /// these elements.
    pub fn into_last(&self, alloc: Global, seq: &SeqRecord, item: Item) -> Result<Chain, NoMemory>
        requires { (pattern : List (List ℕ)) × EndsBelow pattern item.0
            × (self.now ≡ chain_of pattern seq.now) }
        ensures { (pattern : List (List ℕ)) → EndsBelow pattern item.0 → self.now
            ≡ chain_of pattern seq.now → IfOk result
            (λ chain. chain ≡ chain_of (into pattern item.0) seq.now) }
    {
        let places = joined(alloc, &self.places, seq.elements(), item)?;
        Ok(Chain { places })
    }

    /// The chain of the pattern with an item in a new last itemset. One pass over the sequence from the first place on,
    /// with the greatest utility so far.
    pub fn after_last(&self, alloc: Global, seq: &SeqRecord, item: Item) -> Result<Chain, NoMemory>
        requires { (pattern : List (List ℕ)) × Ends pattern × (self.now ≡ chain_of pattern seq.now) }
        ensures { (pattern : List (List ℕ)) → Ends pattern → self.now ≡ chain_of pattern seq.now
            → IfOk result (λ chain. chain ≡ chain_of (after pattern item.0) seq.now) }
    {
        let places = followed(alloc, &self.places, seq.elements(), item)?;
        Ok(Chain { places })
    }

    /// The places in order.
    pub fn places(&self) -> &[Place]
        ensures value { result.now ≡ self.now }
        ensures rules { AllByRecursion IsFit self.now }
    {
        self.places.as_slice()
    }

    /// The utility of the pattern in the record: the greatest of any place, or nothing where there is no place. One
    /// pass over the places.
    pub fn utility(&self) -> Option<i128>
        ensures value { result ≡ best_of self.now }
        ensures none { IsNone result ↔ (self.now ≡ []) }
        ensures best { (pattern : List (List ℕ)) → (elements : List (List (ℕ × ℤ))) → Ends pattern → self.now
            ≡ chain_of pattern elements → result ≡ best_utility pattern elements }
    {
        best_of(&self.places)
    }

    /// The extension bound: the greatest sum of what a place earns and what is left after it, 0 where there is no
    /// place. No pattern that grows from this one earns more in the record. One pass over the places.
    pub fn extension_bound(&self) -> i128
        ensures value { result ≡ extension_bound self.now }
        ensures range { (pos 0 ≤ℤ result) × (result <ℤ pos (2 ^ 127)) }
        ensures bound { (pattern other : List (List ℕ)) → (elements : List (List (ℕ × ℤ))) → IsSequence elements
            → Ends pattern → self.now ≡ chain_of pattern elements → IsGrownFrom pattern other
            → IsAtMost (best_utility other elements) result }
        ensures within { (item : ℕ) → (pattern : List (List ℕ)) → (elements : List (List (ℕ × ℤ)))
            → IsSequence elements → IsGrownFrom ((item ∷ []) ∷ []) pattern → self.now
            ≡ chain_of pattern elements → result ≤ℤ pos (sum_by absolute_of elements) }
    {
        greatest_reach(&self.places).unwrap_or(0)
    }

    /// The reduced bound of a growth: the extension bound where the grown pattern occurs in the record, else 0. No
    /// pattern that grows from the grown one earns more in the record. The item is looked for by halves in the elements
    /// of the places, or in those after the first one, until it is found.
    pub fn reduced_bound(&self, seq: &SeqRecord, growth: Growth, item: Item) -> i128
        requires { (pattern : List (List ℕ)) × CanGrow growth pattern item.0
            × (self.now ≡ chain_of pattern seq.now) }
        ensures value { (pattern : List (List ℕ)) → CanGrow growth pattern item.0 → self.now
            ≡ chain_of pattern seq.now → result ≡ reduced_bound self.now
            (grown growth pattern item.0) seq.now }
        ensures bound { (pattern other : List (List ℕ)) → CanGrow growth pattern item.0 → self.now
            ≡ chain_of pattern seq.now → IsGrownFrom (grown growth pattern item.0) other
            → IsAtMost (best_utility other seq.now) result }
    {
        if occurs(&self.places, seq.elements(), growth, item) {
            self.extension_bound()
        } else {
            0
        }
    }
}

/// The greater of two numbers, of which the first may be missing.
fn greater(best: Option<i128>, other: i128) -> Option<i128>
    ensures { result ≡ better best (Some other) }
{
    match best {
        Some(best) => Some(best.max(other)),
        None => Some(other),
    }
}

/// The greatest utility at places.
fn best_of(places: &[Place]) -> Option<i128>
    ensures { result ≡ best_of places.now }
{
    let mut best = None;
    for place in places {
        best = greater(best, place.best);
    }
    best
}

/// The greatest sum of what a place earns and what is left after it.
fn greatest_reach(places: &[Place]) -> Option<i128>
    requires { AllByRecursion IsFit places.now }
    ensures { result ≡ greatest reach places.now }
{
    let mut bound = None;
    for place in places {
        bound = greater(bound, place.best + place.rest);
    }
    bound
}

/// The places of a pattern with an item put into its last itemset. Each is found in the element of a place, after it.
fn joined(
    alloc: Global,
    places: &[Place],
    elements: &[Element],
    item: Item,
) -> Result<Vec<Place>, NoMemory>
    requires sequence { IsSequence elements.now }
    requires fit { AllByRecursion IsFit places.now }
    requires places { (last : ℕ) × (last < item.0) × AllByRecursion (IsPlaceOf elements.now last) places.now }
    ensures value { IfOk result (λ grown. grown.items ≡ joined_places elements.now item.0 places.now) }
    ensures fit { IfOk result (λ grown. AllByRecursion IsFit grown.items) }
{
    let mut grown = Vec::new(alloc);
    for place in places {
        push_place(&mut grown, place.tail(elements).ended(item))?;
    }
    Ok(grown)
}

/// The places of a pattern with an item in a new last itemset. They are found after the first place, each after the
/// best one before it.
fn followed(
    alloc: Global,
    places: &[Place],
    elements: &[Element],
    item: Item,
) -> Result<Vec<Place>, NoMemory>
    requires sequence { IsSequence elements.now }
    requires fit { AllByRecursion IsFit places.now }
    requires places { (last : ℕ) × AllByRecursion (IsPlaceOf elements.now last) places.now }
    ensures value { IfOk result (λ grown. grown.items ≡ followed_places elements.now item.0 places.now) }
    ensures fit { IfOk result (λ grown. AllByRecursion IsFit grown.items) }
{
    match places.split_first() {
        Some((first, left)) => {
            let tail = first.tail(elements);
            let walk = Walk {
                best: first.best,
                ahead: tail.ahead - total(tail.cells),
                left,
            };
            places_from(alloc, elements, item, first.element as usize + 1, walk)
        }
        None => Ok(Vec::new(alloc)),
    }
}

/// Whether a pattern with these places occurs after a growth.
fn occurs(places: &[Place], elements: &[Element], growth: Growth, item: Item) -> bool
    requires sequence { IsSequence elements.now }
    requires fit { AllByRecursion IsFit places.now }
    requires places { (last : ℕ) × MayFollow growth last item.0 × AllByRecursion
        (IsPlaceOf elements.now last) places.now }
    ensures { result ≡ occurs growth item.0 elements.now places.now }
{
    match growth {
        Growth::IntoLast => joins(places, elements, item),
        Growth::AfterLast => follows(places, elements, item),
    }
}

/// Whether an item stands after a place in its element.
fn joins(places: &[Place], elements: &[Element], item: Item) -> bool
    requires sequence { IsSequence elements.now }
    requires fit { AllByRecursion IsFit places.now }
    requires places { (last : ℕ) × (last < item.0) × AllByRecursion (IsPlaceOf elements.now last) places.now }
    ensures { result ≡ joins item.0 elements.now places.now }
{
    for place in places {
        if cell_in(place.tail(elements).cells, item).is_some() {
            return true;
        }
    }
    false
}

/// Whether an item stands in an element after the first place.
fn follows(places: &[Place], elements: &[Element], item: Item) -> bool
    requires { IsSequence elements.now }
    ensures { result ≡ follows item.0 elements.now places.now }
{
    match places.first() {
        Some(first) => any_has(elements, first.element as usize + 1, item),
        None => false,
    }
}

/// Whether an item stands in an element from one on.
fn any_has(elements: &[Element], first: usize, item: Item) -> bool
    requires { IsSequence elements.now }
    ensures { result ≡ list_any (has item.0) (drop first elements.now) }
{
    for number in first..elements.len() {
        if cell_in(cells_at(elements, number), item).is_some() {
            return true;
        }
    }
    false
}
