//! The children of a set, as its rows tell of them.

ghost use Rattle.std.specs.Prelude.{◌≡◌, ◌<◌, ◌++◌, ℕ, int_le, [], ◌∷◌, length, if◌then◌else◌, IfOk, OnOk};
ghost use Rattle.std.specs.List.{AllByRecursion, filter, flat_map};
ghost use Rattle.hu_rows.specs.Tally.{IsClear, AreNoted};
ghost use Rattle.hu_project.specs.Children.{child_if, open_if};

use hu_kind::NoMemory;
use hu_rows::Tallies;
use hu_search::Child;
use std::alloc::Global;

/// A child for each of these ranks that records hold.
pub(crate) fn children_of(
    alloc: Global,
    met: &[u32],
    tallies: &Tallies,
) -> Result<Vec<Child>, NoMemory>
    requires below { AllByRecursion (λ rank. rank < length tallies.now) met.now }
    ensures { IfOk result (λ children. children.items ≡ flat_map (child_if tallies.now) met.now) }
{
    let mut children = Vec::new(alloc);
    for rank in met {
        push_child(&mut children, *rank, tallies)?;
    }
    Ok(children)
}

/// Appends the child of a rank that records hold.
fn push_child(children: &mut Vec<Child>, rank: u32, tallies: &Tallies) -> Result<(), NoMemory>
    requires { rank < length tallies.now }
    ensures { OnOk result (children.new.items ≡ children.old.items ++ child_if tallies.now rank) }
{
    let tally = tallies.of(rank);
    if tally.count > 0 {
        children.push(Child {
            rank,
            utility: tally.utility,
            support: tally.count,
            bound: tally.bound,
        })?;
    }
    Ok(())
}

/// The children whose bound reaches a floor.
pub(crate) fn kept_of(
    alloc: Global,
    children: &[Child],
    floor: i128,
) -> Result<Vec<Child>, NoMemory>
    ensures { IfOk result
        (λ kept. kept.items ≡ filter (λ child. int_le floor child.bound) children.now) }
{
    let mut kept = Vec::new(alloc);
    for child in children {
        push_if(&mut kept, *child, child.bound >= floor)?;
    }
    Ok(kept)
}

/// Appends a child that is kept.
fn push_if(kept: &mut Vec<Child>, child: Child, is_kept: bool) -> Result<(), NoMemory>
    ensures { OnOk result
        (kept.new.items ≡ kept.old.items ++ (if is_kept then child ∷ [] else [])) }
{
    if is_kept {
        kept.push(child)?;
    }
    Ok(())
}

/// The children whose tails may reach a floor, with the bounds of these.
pub(crate) fn open_of(
    alloc: Global,
    kept: &[Child],
    tallies: &Tallies,
    floor: i128,
) -> Result<Vec<Child>, NoMemory>
    requires below { AllByRecursion (λ child. child.rank < length tallies.now) kept.now }
    ensures { IfOk result (λ chosen. chosen.items ≡ flat_map (open_if tallies.now floor) kept.now) }
{
    let mut chosen = Vec::new(alloc);
    for child in kept {
        push_open(&mut chosen, child, tallies, floor)?;
    }
    Ok(chosen)
}

/// Appends a child whose tails may reach a floor, with the bound of these.
fn push_open(
    chosen: &mut Vec<Child>,
    child: &Child,
    tallies: &Tallies,
    floor: i128,
) -> Result<(), NoMemory>
    requires { child.now.rank < length tallies.now }
    ensures { OnOk result
        (chosen.new.items ≡ chosen.old.items ++ open_if tallies.now floor child.now) }
{
    let bound = tallies.of(child.rank).bound;
    if bound >= floor {
        chosen.push(Child {
            rank: child.rank,
            utility: child.utility,
            support: child.support,
            bound,
        })?;
    }
    Ok(())
}

/// Leaves the tallies of these ranks as if nothing was told of them.
pub(crate) fn forget(tallies: &mut Tallies, met: &[u32])
    requires noted { AreNoted tallies.old met.now }
    ensures len { length tallies.new ≡ length tallies.old }
    ensures clear { IsClear tallies.new }
{
    for rank in met {
        tallies.take(*rank);
    }
}
