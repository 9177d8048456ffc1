//! Which items are still taken below a pattern: those whose records reach the floor.

ghost use Rattle.std.specs.Prelude.{◌≡◌, ◌⊎◌, ◌<◌, ◌<ℤ◌, true, false, length, IfOk, IfSome, OnOk};
ghost use Rattle.std.specs.List.{AllByRecursion, Contains};
ghost use Rattle.hu_kind.specs.declared.item.Item.{Item};
ghost use Rattle.hu_chain.specs.Bound.{IsFit};
ghost use Rattle.hu_span.specs.Cut.{AreBelow, AreOpen, IsLow};
ghost use Rattle.hu_span.specs.Mark.{places_of};

use crate::child::Child;
use crate::kept::Kept;
use crate::mark::Mark;
use crate::step::Step;
use hu_kind::{Item, NoMemory};
use std::alloc::Global;

/// Puts at each row of marks what a place of the row reaches at most. Other rows stay as they are, or are 0.
pub(crate) fn set_reaches(marks: &[Mark], reaches: &mut [i128])
    requires within { AllByRecursion (λ mark. mark.row < length reaches.old) marks.now }
    requires fit { AllByRecursion IsFit (places_of marks.now) }
    ensures { AreBelow reaches.new marks.now }
{
    'rows: for mark in marks {
        reaches[mark.row] = 0;
    }
    'marks: for mark in marks {
        reaches[mark.row] = reaches[mark.row].max(mark.place.best + mark.place.rest);
    }
}

/// The items of the steps and those of the children whose rows reach a floor; none where all children are kept.
pub(crate) fn open_items(
    alloc: Global,
    steps: &[Step],
    children: &[Child],
    floor: i128,
) -> Result<Option<Kept>, NoMemory>
    ensures { IfOk result (λ fewer. IfSome fewer (AreOpen steps.now children.now floor)) }
{
    let mut items = Vec::new(alloc);
    'steps: for step in steps {
        items.push(step.item)?;
    }
    'children: for child in children {
        push_if(&mut items, child.step.item, is_open(child, floor))?;
    }
    if items.len().checked_sub(steps.len()) == Some(children.len()) {
        return Ok(None);
    }
    let kept = Kept::of(alloc, items)?;
    Ok(Some(kept))
}

/// Whether the bound of one of the children reaches a floor.
pub(crate) fn any_reaches(children: &[Child], floor: i128) -> bool
    ensures { result ≡ false → AllByRecursion (λ child. child.bound <ℤ floor) children.now }
{
    'children: for child in children {
        if child.bound >= floor {
            return true;
        }
    }
    false
}

/// Whether the rows of a child reach a floor together. They do where no number tells their sum.
fn is_open(child: &Child, floor: i128) -> bool
    ensures { result ≡ false → IsLow child.now.spread floor }
{
    match child.spread {
        Some(sum) => sum >= floor,
        None => true,
    }
}

/// Appends an item that is kept.
fn push_if(items: &mut Vec<Item>, item: Item, is_kept: bool) -> Result<(), NoMemory>
    ensures known { OnOk result ((one : Item) → Contains items.new.items one
        → Contains items.old.items one ⊎ (one ≡ item)) }
    ensures before { OnOk result ((one : Item) → Contains items.old.items one
        → Contains items.new.items one) }
    ensures kept { OnOk result (is_kept ≡ true → Contains items.new.items item) }
{
    if is_kept {
        items.push(item)?;
    }
    Ok(())
}
