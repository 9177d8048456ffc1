//! The search for sequences.

ghost use Rattle.std.specs.Prelude.{◌≡◌, ℕ, Bool, List, [], ◌∷◌, length, IfOk, OnOk};
ghost use Rattle.std.specs.List.{AllByRecursion, Contains};
ghost use Rattle.hu_kind.specs.Sequence.{sequence_patterns};
ghost use Rattle.hu_base.specs.Base.{records_of};
ghost use Rattle.hu_collect.specs.State.{IsInOrder, Mines, Searches, Takes};
ghost use Rattle.hu_span.specs.declared.child.Branch.{Branch};
ghost use Rattle.hu_span.specs.declared.trail.TrailCell.{TrailCell};
ghost use Rattle.hu_span.specs.Branch.{IsBranch};
ghost use Rattle.hu_span.specs.Child.{child_entry, stepped, AreGathered, IsChild};
ghost use Rattle.hu_span.specs.Growing.{AreRecords, GrowsOn, GrowsOver, IsBegun, Pattern, Records};
ghost use Rattle.hu_span.specs.Kept.{keeps, weighed_of, AreKept};
ghost use Rattle.hu_span.specs.Search.{counting, kept_of, trail_of, AreBehind, AreKeptBest, CanGather, IsOneOf, Narrows, OffersAll};
ghost use Rattle.hu_span.specs.Step.{pattern_of};
ghost use Rattle.hu_span.specs.Trail.{AreHeld, AreSpans};

use crate::child::{Branch, Child, best_of, children_of};
use crate::cut::{any_reaches, open_items, set_reaches};
use crate::gather::{Begun, Grown, first_grown, gathered};
use crate::kept::Kept;
use crate::scan::scanned;
use crate::step::{Step, key_of};
use crate::thin::{Thin, thinned};
use crate::trail::{Held, TrailCell};
use hu_base::Base;
use hu_collect::Collect;
use hu_kind::{Entry, NoMemory, SeqRecord};
use std::alloc::Global;

/// Offers the sequences that can change what the collector holds, with their utility and their support, so that it holds
/// what all sequences that occur would make. Each place of a pattern tells where the cells behind it stand in one list, its
/// trail, which has those of items that count alone. The places of all patterns with one item more are gathered in one pass
/// over these, record by record: what those of a record tell of each item is summed at once, and they are let go. All these
/// patterns are offered before any is entered, and where no bound of theirs reaches the floor none is. The bound is the sum
/// over the records of the greatest utility with all that is left after it. Then those items are dropped that reach the floor
/// in no pattern below: the sum over the records in which an item makes a child, each with the greatest utility and all that
/// is left after it. Where some are dropped, the cells behind the pattern's places are copied to a shorter trail without them,
/// and what is left of a record is summed anew, in one walk from its end. Then the places are gathered once more and held,
/// summed again and linked item by item, so that they are taken apart for the patterns that are entered alone. The patterns
/// are entered best bound first, up to the first whose bound is below the floor of the moment. The memory of a level is the
/// places of those patterns whose bound reaches the floor, and the items that still count with their trail, where they are
/// fewer than above; the first trail has all cells of the base. After want of memory some of the sequences have been offered.
/// After USpan (Yin, Zheng and Cao, 2012) and HUS-Span (Wang, Huang and Chen, 2016).
pub fn mine<C: Collect>(
    alloc: Global,
    base: &Base<SeqRecord>,
    collect: &mut C,
) -> Result<(), NoMemory>
    ensures { Mines (C.state collect.old) (sequence_patterns (records_of base.now))
        (C.state collect.new) result }
{
    // These tell the proof that what is held is in order, and that no sum overflows.
    let _floor = collect.floor();
    let _sum = base.sum();
    let records = base.records();
    let kept = Kept::every(alloc);
    let mut reaches = zeros(alloc, records.len())?;
    let mut steps = Vec::new(alloc);
    let Begun { trail, grown } = first_grown(alloc, records)?;
    offer_grown(alloc, &grown, &mut steps, collect)?;
    let level = Level {
        records,
        kept: &kept,
        trail: &trail,
    };
    deepen(alloc, level, grown, &mut steps, &mut reaches, collect)
}

/// What a level of the search stands on.
#[derive(Clone, Copy)]
struct Level<'a> {
    /// What the contracts speak of; the search itself walks over the trail alone.
    records: &'a [SeqRecord],
    /// The items that count.
    kept: &'a Kept,
    /// Their cells behind the places of the level's pattern.
    trail: &'a [TrailCell],
}

/// So many zeros.
fn zeros(alloc: Global, count: usize) -> Result<Vec<i128>, NoMemory>
    ensures { IfOk result (λ zeros. length zeros.items ≡ count) }
{
    let mut zeros = Vec::new(alloc);
    'zeros: for _number in 0..count {
        zeros.push(0)?;
    }
    Ok(zeros)
}

/// Enters the children of a pattern, by the marks of the two kinds of growth, best bound first.
#[cycle(search)]
fn deepen<C: Collect>(
    alloc: Global,
    level: Level<'_>,
    grown: Grown,
    steps: &mut Vec<Step>,
    reaches: &mut [i128],
    collect: &mut C,
) -> Result<(), NoMemory>
    requires ordered { IsInOrder (C.state collect.old) }
    requires records { AreRecords level.records.now }
    requires rows { length reaches.old ≡ length level.records.now }
    requires pattern { AreKept (keeps level.kept.now) (pattern_of steps.old.items) }
    requires grown { AreGathered (weighed_of (keeps level.kept.now) level.records.now) (keeps level.kept.now)
        (pattern_of steps.old.items) grown }
    requires spans { AreBehind (keeps level.kept.now) level.records.now level.trail.now grown }
    ensures steps { OnOk result (steps.new.items ≡ steps.old.items) }
    ensures made { Searches (C.state collect.old)
        (GrowsOver (weighed_of (keeps level.entry.kept.now) level.entry.records.now) (keeps level.entry.kept.now)
        (pattern_of steps.old.items))
        (C.state collect.new) result }
{
    let branches = best_branches(alloc, grown, collect.floor())?;
    'branches: for branch in &branches {
        if branch.bound < collect.floor() {
            return Ok(());
        }
        enter(alloc, level, branch, steps, reaches, collect)?;
    }
    Ok(())
}

/// Offers the patterns that grow from a branch.
#[cycle(search)]
fn enter<C: Collect>(
    alloc: Global,
    level: Level<'_>,
    branch: &Branch,
    steps: &mut Vec<Step>,
    reaches: &mut [i128],
    collect: &mut C,
) -> Result<(), NoMemory>
    requires ordered { IsInOrder (C.state collect.old) }
    requires records { AreRecords level.records.now }
    requires rows { length reaches.old ≡ length level.records.now }
    requires begun { IsBegun (pattern_of steps.old.items) }
    requires pattern { AreKept (keeps level.kept.now) (pattern_of steps.old.items) }
    requires branch { IsBranch (weighed_of (keeps level.kept.now) level.records.now) (keeps level.kept.now)
        (pattern_of steps.old.items) branch.now }
    requires spans { AreSpans (keeps level.kept.now) level.records.now level.trail.now
        branch.now.held.marks.items branch.now.held.spans.items }
    ensures steps { OnOk result (steps.new.items ≡ steps.old.items) }
    ensures made { Searches (C.state collect.old)
        (GrowsOn (weighed_of (keeps level.entry.kept.now) level.entry.records.now) (keeps level.entry.kept.now) (stepped
        (pattern_of steps.old.items) branch.now.step))
        (C.state collect.new) result }
{
    steps.push(branch.step)?;
    let below = narrowed(alloc, level, &branch.held, steps, reaches, collect)?;
    let items = match below {
        Below::Items(fewer) => fewer,
        Below::Nothing => {
            steps.pop();
            return Ok(());
        }
    };
    let Opened { fewer, grown } = grown_below(alloc, level, items, &branch.held)?;
    let below = Level {
        records: level.records,
        kept: counting(&fewer, level.kept),
        trail: walked(&fewer, level.trail),
    };
    deepen(alloc, below, grown, steps, reaches, collect)?;
    steps.pop();
    Ok(())
}

/// What a search can still find below a pattern.
#[derive(Drop)]
enum Below {
    /// Patterns of the items that count there, where they are fewer than at the pattern.
    Items(Option<Kept>),
    /// Nothing that reaches the floor.
    Nothing,
}

/// The items that count below a pattern, where they are fewer than at it, and their cells behind its places.
#[derive(Drop)]
struct Fewer {
    kept: Kept,
    trail: Vec<TrailCell>,
}

/// What a pattern grows by, with the items that count in it.
#[derive(Drop)]
struct Opened {
    fewer: Option<Fewer>,
    grown: Grown,
}

/// The items that count below a pattern.
fn counting<'a>(fewer: &'a Option<Fewer>, kept: &'a Kept) -> &'a Kept
    ensures { result.now ≡ counting (kept_of fewer.now) kept.now }
{
    match fewer {
        Some(fewer) => &fewer.kept,
        None => kept,
    }
}

/// The cells that are walked over below a pattern.
fn walked<'a>(fewer: &'a Option<Fewer>, trail: &'a [TrailCell]) -> &'a [TrailCell]
    ensures { result.now ≡ trail_of fewer.now trail.now }
{
    match fewer {
        Some(fewer) => &fewer.trail,
        None => trail,
    }
}

/// Offers the children of a pattern, and answers by what may reach the floor that grows from them: nothing, or patterns of
/// some items.
fn narrowed<C: Collect>(
    alloc: Global,
    level: Level<'_>,
    held: &Held,
    steps: &mut Vec<Step>,
    reaches: &mut [i128],
    collect: &mut C,
) -> Result<Below, NoMemory>
    requires ordered { IsInOrder (C.state collect.old) }
    requires records { AreRecords level.records.now }
    requires rows { length reaches.old ≡ length level.records.now }
    requires pattern { AreKept (keeps level.kept.now) (pattern_of steps.old.items) }
    requires held { AreHeld (keeps level.kept.now) level.records.now level.trail.now
        (pattern_of steps.old.items) held.now }
    ensures steps { OnOk result (steps.new.items ≡ steps.old.items) }
    ensures made { Narrows (C.state collect.old) (C.state collect.new)
        (weighed_of (keeps level.entry.kept.now) level.entry.records.now) level.entry.kept.now (pattern_of steps.old.items) result }
{
    set_reaches(&held.marks, reaches);
    let children = scanned(alloc, level.trail, held, reaches)?;
    offer_children(alloc, steps, &children, collect)?;
    let floor = collect.floor();
    if !any_reaches(&children, floor) {
        return Ok(Below::Nothing);
    }
    let fewer = open_items(alloc, steps, &children, floor)?;
    Ok(Below::Items(fewer))
}

/// What a pattern grows by, gathered from its marks, where fewer items may count.
fn grown_below(
    alloc: Global,
    level: Level<'_>,
    fewer: Option<Kept>,
    held: &Held,
) -> Result<Opened, NoMemory>
    requires { (p : Pattern) × CanGather level.records.now level.kept.now fewer level.trail.now
        held.now p }
    ensures fewer { IfOk result (λ opened. kept_of opened.fewer ≡ fewer) }
    ensures grown { (p : Pattern)
        → CanGather level.entry.records.now level.entry.kept.now fewer level.entry.trail.now held.now p
        → IfOk result (λ opened. AreGathered
        (weighed_of (keeps (counting fewer level.entry.kept.now)) level.entry.records.now)
        (keeps (counting fewer level.entry.kept.now)) p opened.grown) }
    ensures spans { (p : Pattern)
        → CanGather level.entry.records.now level.entry.kept.now fewer level.entry.trail.now held.now p
        → IfOk result (λ opened. AreBehind (keeps (counting fewer level.entry.kept.now))
        level.entry.records.now (trail_of opened.fewer level.entry.trail.now) opened.grown) }
{
    match fewer {
        None => {
            let grown = gathered(alloc, level.trail, held)?;
            Ok(Opened { fewer: None, grown })
        }
        Some(kept) => {
            let Thin { trail, held } = thinned(alloc, &kept, level.trail, held)?;
            let grown = gathered(alloc, &trail, &held)?;
            Ok(Opened {
                fewer: Some(Fewer { kept, trail }),
                grown,
            })
        }
    }
}

/// The children of a pattern whose bound reaches a floor, best bound first.
fn best_branches(alloc: Global, grown: Grown, floor: i128) -> Result<Vec<Branch>, NoMemory>
    requires grown { (rs : Records) × (keep : ℕ → Bool) × (p : Pattern) × AreGathered rs keep p grown }
    requires spans { (keep : ℕ → Bool) × (records : Records) × (trail : List TrailCell)
        × AreBehind keep records trail grown }
    ensures best { (rs : Records) → (keep : ℕ → Bool) → (p : Pattern) → AreGathered rs keep p grown
        → IfOk result (λ kept. AreKeptBest rs keep p floor kept.items) }
    ensures spans { (keep : ℕ → Bool) → (records : Records) → (trail : List TrailCell)
        → AreBehind keep records trail grown
        → IfOk result (λ kept. (branch : Branch) → Contains kept.items branch
        → AreSpans keep records trail branch.held.marks.items branch.held.spans.items) }
{
    best_of(alloc, &grown.into, &grown.after, floor)
}

/// Offers the children of a pattern, by its marks of the two kinds of growth.
fn offer_grown<C: Collect>(
    alloc: Global,
    grown: &Grown,
    steps: &mut Vec<Step>,
    collect: &mut C,
) -> Result<(), NoMemory>
    requires ordered { IsInOrder (C.state collect.old) }
    requires grown { (rs : Records) × (keep : ℕ → Bool) × AreGathered rs keep
        (pattern_of steps.old.items) grown.now }
    ensures steps { OnOk result (steps.new.items ≡ steps.old.items) }
    ensures made { (rs : Records) → (keep : ℕ → Bool) → AreKept keep (pattern_of steps.old.items)
        → AreGathered rs keep (pattern_of steps.old.items) grown.now
        → OffersAll (C.state collect.old) (C.state collect.new) rs keep
        (pattern_of steps.old.items) result }
{
    let children = children_of(alloc, &grown.into.marks, &grown.after.marks, &[])?;
    offer_children(alloc, steps, &children, collect)
}

/// Offers the children of a pattern.
fn offer_children<C: Collect>(
    alloc: Global,
    steps: &mut Vec<Step>,
    children: &[Child],
    collect: &mut C,
) -> Result<(), NoMemory>
    requires ordered { IsInOrder (C.state collect.old) }
    requires children { (rs : Records) × (keep : ℕ → Bool)
        × AllByRecursion (IsChild rs keep (pattern_of steps.old.items)) children.now }
    ensures steps { OnOk result (steps.new.items ≡ steps.old.items) }
    ensures made { (rs : Records) → (keep : ℕ → Bool)
        → AllByRecursion (IsChild rs keep (pattern_of steps.old.items)) children.now
        → Searches (C.state collect.old) (IsOneOf rs (pattern_of steps.old.items) children.now)
        (C.state collect.new) result }
{
    'children: for child in children {
        offer_child(alloc, steps, child, collect)?;
    }
    Ok(())
}

/// Offers a child of a pattern. Below the floor it would change nothing, so that its key isn't built.
fn offer_child<C: Collect>(
    alloc: Global,
    steps: &mut Vec<Step>,
    child: &Child,
    collect: &mut C,
) -> Result<(), NoMemory>
    requires { (rs : Records) × (keep : ℕ → Bool) × IsChild rs keep
        (pattern_of steps.old.items) child.now }
    ensures steps { OnOk result (steps.new.items ≡ steps.old.items) }
    ensures made { (rs : Records) → (keep : ℕ → Bool) → IsChild rs keep
        (pattern_of steps.old.items) child.now
        → Takes (C.state collect.old) (child_entry rs (pattern_of steps.old.items) child.now ∷ [])
        (C.state collect.new) result }
{
    if child.utility < collect.floor() {
        return Ok(());
    }
    steps.push(child.step)?;
    let key = key_of(alloc, steps)?;
    steps.pop();
    collect.offer(Entry {
        key,
        utility: child.utility,
        support: child.support,
    })
}
