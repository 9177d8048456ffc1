//! The patterns with one step more than a pattern.

ghost use Rattle.std.specs.Prelude.{◌≡◌, ◌++◌, ◌⊎◌, ◌∷◌, [], ℕ, ℤ, Bool, List, length, IfOk, OnOk};
ghost use Rattle.std.specs.List.{AllByRecursion, Contains};
ghost use Rattle.hu_span.specs.declared.child.Branch.{Branch};
ghost use Rattle.hu_span.specs.declared.mark.Mark.{Mark};
ghost use Rattle.hu_span.specs.Branch.{AreBranchesBy, AreCopies, HasPlaces, IsPart, IsPushed};
ghost use Rattle.hu_span.specs.Child.{AreAllTold, AreChildren, AreLasting, AreTold, IsChild, IsFamily, IsGathered, IsLast, IsSpread, IsStep, MayTell, MayTellEach};
ghost use Rattle.hu_span.specs.Growing.{Pattern, Records};
ghost use Rattle.hu_span.specs.Links.{keys_of, AreLinked};
ghost use Rattle.hu_span.specs.Search.{AreKeptBest};
ghost use Rattle.hu_span.specs.Tally.{IsTold};

use crate::links::{Links, collected};
use crate::mark::Mark;
use crate::step::Step;
use crate::tally::Told;
use crate::trail::Held;
use hu_chain::Growth;
use hu_kind::{Item, NoMemory};
use std::alloc::Global;

/// A pattern of a search with one step more.
#[derive(Clone, Copy)]
pub(crate) struct Child {
    pub step: Step,
    /// What it earns.
    pub utility: i128,
    /// In how many records it occurs.
    pub support: u64,
    /// What patterns earn at most that grow from it.
    pub bound: i128,
    /// The sum over its rows of what is known of each, if it is known.
    pub spread: Option<i128>,
    /// One more than the place of its last mark, among those by its kind of growth.
    pub last: usize,
}

/// The children of a kind of growth, and how their marks are linked.
#[derive(Drop)]
pub(crate) struct Family {
    pub children: Vec<Child>,
    /// For each mark one more than the place of the one before it of its item, or 0.
    pub olders: Vec<usize>,
}

/// The children of a pattern, by its marks of the two kinds of growth, and what is known of the rows.
pub(crate) fn children_of(
    alloc: Global,
    into: &[Mark],
    after: &[Mark],
    reaches: &[i128],
) -> Result<Vec<Child>, NoMemory>
    requires into { (rs : Records) × (keep : ℕ → Bool) × (p : Pattern)
        × IsGathered rs keep p Growth.IntoLast into.now }
    requires after { (rs : Records) × (keep : ℕ → Bool) × (p : Pattern)
        × IsGathered rs keep p Growth.AfterLast after.now }
    ensures children { (rs : Records) → (keep : ℕ → Bool) → (p : Pattern)
        → IsGathered rs keep p Growth.IntoLast into.now
        → IsGathered rs keep p Growth.AfterLast after.now
        → IfOk result (λ children. AreChildren rs keep p children.items) }
    ensures spreads { (rs : Records) → (keep : ℕ → Bool) → (p : Pattern)
        → IsGathered rs keep p Growth.IntoLast into.now
        → IsGathered rs keep p Growth.AfterLast after.now
        → IfOk result (λ children. AllByRecursion (IsSpread reaches.now rs p) children.items) }
{
    let first = family_of(alloc, into, Growth::IntoLast, reaches)?;
    let second = family_of(alloc, after, Growth::AfterLast, reaches)?;
    let Family { mut children, .. } = first;
    let Family {
        children: mut later,
        ..
    } = second;
    children.append(&mut later)?;
    Ok(children)
}

/// The children of one kind of growth, by their marks, in one pass over them.
fn family_of(
    alloc: Global,
    marks: &[Mark],
    growth: Growth,
    reaches: &[i128],
) -> Result<Family, NoMemory>
    requires { (rs : Records) × (keep : ℕ → Bool) × (p : Pattern)
        × IsGathered rs keep p growth marks.now }
    ensures all { (rs : Records) → (keep : ℕ → Bool) → (p : Pattern)
        → IsGathered rs keep p growth marks.now
        → IfOk result (λ family. AreAllTold rs keep p growth reaches.now family.children.items) }
    ensures family { IfOk result (IsFamily growth marks.now) }
{
    let mut links = Links::new(alloc, marks.len())?;
    let mut tells = Vec::new(alloc);
    tell_all(&mut links, &mut tells, marks, reaches)?;
    let children = children_told(alloc, &links, &tells, growth)?;
    let Links { olders, .. } = links;
    Ok(Family { children, olders })
}

/// Tells further marks.
pub(crate) fn tell_all(
    links: &mut Links,
    tells: &mut Vec<Told>,
    marks: &[Mark],
    reaches: &[i128],
) -> Result<(), NoMemory>
    requires { (before : List Mark) × AreTold reaches.now links.old tells.old.items before
        × MayTellEach before marks.now }
    ensures { OnOk result ((before : List Mark)
        → AreTold reaches.now links.old tells.old.items before
        → AreTold reaches.now links.new tells.new.items (before ++ marks.now)) }
{
    'marks: for mark in marks {
        tell(links, tells, mark, reaches)?;
    }
    Ok(())
}

/// Tells a mark more.
fn tell(
    links: &mut Links,
    tells: &mut Vec<Told>,
    mark: &Mark,
    reaches: &[i128],
) -> Result<(), NoMemory>
    requires { (marks : List Mark) × AreTold reaches.now links.old tells.old.items marks
        × MayTell mark.now marks }
    ensures { OnOk result ((marks : List Mark) → AreTold reaches.now links.old tells.old.items marks
        → AreTold reaches.now links.new tells.new.items (marks ++ mark.now ∷ [])) }
{
    let number = links.push(mark.item.0)?;
    if number < tells.len() {
        tells[number].add(mark, reaches);
    } else {
        let mut told = Told::none();
        told.add(mark, reaches);
        tells.push(told)?;
    }
    Ok(())
}

/// The children of items of which all was told.
pub(crate) fn children_told(
    alloc: Global,
    links: &Links,
    tells: &[Told],
    growth: Growth,
) -> Result<Vec<Child>, NoMemory>
    requires { (rs : Records) × (keep : ℕ → Bool) × (p : Pattern) × (marks : List Mark)
        × (reaches : List ℤ) × IsGathered rs keep p growth marks
        × AreTold reaches links.now tells.now marks }
    ensures all { (rs : Records) → (keep : ℕ → Bool) → (p : Pattern) → (marks : List Mark)
        → (reaches : List ℤ) → IsGathered rs keep p growth marks
        → AreTold reaches links.now tells.now marks
        → IfOk result (λ children. AreAllTold rs keep p growth reaches children.items) }
    ensures lasting { (marks : List Mark) → (reaches : List ℤ)
        → AreTold reaches links.now tells.now marks
        → IfOk result (λ children. AreLasting growth marks children.items) }
{
    let mut children = Vec::new(alloc);
    'tells: for (number, told) in tells.iter().enumerate() {
        let item = Item(links.numbers.items[number]);
        children.push(child_of(Step { growth, item }, *told, links.lasts[number]))?;
    }
    Ok(children)
}

/// The child of a step, by what is told of its marks.
fn child_of(step: Step, told: Told, last: usize) -> Child
    requires { (rs : Records) × (keep : ℕ → Bool) × (p : Pattern) × (marks : List Mark)
        × (reaches : List ℤ) × IsStep rs keep p step marks × IsTold reaches marks told }
    ensures step { result.step ≡ step }
    ensures last { result.last ≡ last }
    ensures child { (rs : Records) → (keep : ℕ → Bool) → (p : Pattern) → (marks : List Mark)
        → (reaches : List ℤ) → IsStep rs keep p step marks → IsTold reaches marks told
        → IsChild rs keep p result × IsSpread reaches rs p result }
{
    let tally = told.tally;
    Child {
        step,
        utility: tally.bests + tally.best,
        support: tally.rows,
        bound: tally.reaches + tally.reach,
        spread: told.spread,
        last,
    }
}

/// A child that is entered, with its places.
#[derive(Drop)]
pub(crate) struct Branch {
    pub step: Step,
    /// Its places in all records.
    pub held: Held,
    /// What patterns earn at most that grow from it.
    pub bound: i128,
}

/// The children of a pattern whose bound reaches a floor, best bound first, by its marks of the two kinds of growth.
pub(crate) fn best_of(
    alloc: Global,
    into: &Held,
    after: &Held,
    floor: i128,
) -> Result<Vec<Branch>, NoMemory>
    requires into { (rs : Records) × (keep : ℕ → Bool) × (p : Pattern)
        × IsGathered rs keep p Growth.IntoLast into.now.marks.items }
    requires after { (rs : Records) × (keep : ℕ → Bool) × (p : Pattern)
        × IsGathered rs keep p Growth.AfterLast after.now.marks.items }
    requires into_spans { length into.now.spans.items ≡ length into.now.marks.items }
    requires after_spans { length after.now.spans.items ≡ length after.now.marks.items }
    ensures best { (rs : Records) → (keep : ℕ → Bool) → (p : Pattern)
        → IsGathered rs keep p Growth.IntoLast into.now.marks.items
        → IsGathered rs keep p Growth.AfterLast after.now.marks.items
        → IfOk result (λ kept. AreKeptBest rs keep p floor kept.items) }
    ensures parts { IfOk result (λ kept. (branch : Branch) → Contains kept.items branch
        → IsPart into.now branch ⊎ IsPart after.now branch) }
{
    let mut kept = branches_by(alloc, into, Growth::IntoLast, floor)?;
    let mut later = branches_by(alloc, after, Growth::AfterLast, floor)?;
    kept.append(&mut later)?;
    kept.sort_unstable_by(|a, b| b.bound.cmp(&a.bound));
    Ok(kept)
}

/// The children of a kind of growth whose bound reaches a floor.
fn branches_by(
    alloc: Global,
    held: &Held,
    growth: Growth,
    floor: i128,
) -> Result<Vec<Branch>, NoMemory>
    requires marks { (rs : Records) × (keep : ℕ → Bool) × (p : Pattern)
        × IsGathered rs keep p growth held.now.marks.items }
    requires spans { length held.now.spans.items ≡ length held.now.marks.items }
    ensures branches { (rs : Records) → (keep : ℕ → Bool) → (p : Pattern)
        → IsGathered rs keep p growth held.now.marks.items
        → IfOk result (λ kept. AreBranchesBy rs keep p growth floor kept.items) }
    ensures parts { IfOk result (λ kept. AllByRecursion (IsPart held.now) kept.items) }
{
    let family = family_of(alloc, &held.marks, growth, &[])?;
    kept_of(alloc, held, &family.olders, &family.children, floor)
}

/// The children whose bound reaches a floor, by the marks of their items.
fn kept_of(
    alloc: Global,
    held: &Held,
    olders: &[usize],
    children: &[Child],
    floor: i128,
) -> Result<Vec<Branch>, NoMemory>
    requires size { length olders.now ≡ length held.now.marks.items }
    requires spans { length held.now.spans.items ≡ length held.now.marks.items }
    requires linked { AreLinked (keys_of held.now.marks.items) olders.now }
    requires lasts { AllByRecursion (IsLast held.now.marks.items) children.now }
    ensures copies { (rs : Records) → (p : Pattern)
        → AllByRecursion (HasPlaces rs p held.now.marks.items) children.now
        → IfOk result (λ kept. AreCopies rs p floor children.now kept.items) }
    ensures parts { IfOk result (λ kept. AllByRecursion (IsPart held.now) kept.items) }
{
    let mut kept = Vec::new(alloc);
    'children: for child in children {
        push_if(alloc, &mut kept, held, olders, child, child.bound >= floor)?;
    }
    Ok(kept)
}

/// Appends a child that is kept, with its marks.
fn push_if(
    alloc: Global,
    kept: &mut Vec<Branch>,
    held: &Held,
    olders: &[usize],
    child: &Child,
    is_kept: bool,
) -> Result<(), NoMemory>
    requires size { length olders.now ≡ length held.now.marks.items }
    requires spans { length held.now.spans.items ≡ length held.now.marks.items }
    requires linked { AreLinked (keys_of held.now.marks.items) olders.now }
    requires last { IsLast held.now.marks.items child.now }
    ensures { OnOk result (IsPushed is_kept held.now kept.old.items kept.new.items child.now) }
{
    if is_kept {
        let own = collected(alloc, held, olders, child.last)?;
        kept.push(Branch {
            step: child.step,
            held: own,
            bound: child.bound,
        })?;
    }
    Ok(())
}
