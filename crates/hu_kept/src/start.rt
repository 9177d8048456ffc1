//! With which utility a search of all records begins.

ghost use Rattle.std.specs.Prelude.{◌≤◌, pos, ◌≤ℤ◌, IfOk, IfSome};
ghost use Rattle.hu_kept.specs.Entries.{IsAim};
ghost use Rattle.hu_kept.specs.Start.{StartsAlike, StartsItemsAlike};

use crate::aim::Aim;
use hu_kind::NoMemory;
use hu_raise::start_floor;
use hu_totals::Totals;
use std::alloc::Global;

/// The utility with which a search begins: the least one that is asked for, since a single item may not be closed; where
/// closedness isn't asked, with a limit no less than what so many single items earn.
pub(crate) fn start_of(alloc: Global, totals: &Totals, aim: Aim) -> Result<i128, NoMemory>
    requires { IsAim aim }
    ensures least { IfOk result (λ start. pos 1 ≤ℤ start) }
    ensures alike { IfOk result (StartsAlike aim totals.now) }
{
    if aim.closed {
        return Ok(aim.least);
    }
    raised(alloc, totals, aim.least, aim.top)
}

/// The least utility, and with a limit no less than what so many single items earn.
fn raised(alloc: Global, totals: &Totals, least: i128, top: Option<u32>) -> Result<i128, NoMemory>
    requires least { pos 1 ≤ℤ least }
    requires some { IfSome top (λ k. 1 ≤ k) }
    ensures least { IfOk result (λ start. pos 1 ≤ℤ start) }
    ensures alike { IfOk result (StartsItemsAlike least top totals.now) }
{
    match top {
        None => Ok(least),
        Some(k) => Ok(least.max(start_floor(alloc, totals, k)?)),
    }
}
