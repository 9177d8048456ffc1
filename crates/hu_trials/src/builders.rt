//! What the trials of several crates begin with.

ghost use Rattle.std.specs.Prelude.{◌≡◌, ◌≤ℤ◌, pos, IfOk};

use hu_kind::{Entry, Key, NoMemory};
use hu_sample::base_of;
use hu_totals::{Ranked, Totals};
use std::alloc::Global;
use std::process::Abort;
use std::test::Fail;

/// These records over the ranks of the items that reach a floor.
pub(crate) fn ranked_at(
    rt: &impl Abort,
    alloc: Global,
    records: &[&[(u32, i128)]],
    floor: i128,
) -> Result<Ranked, Fail>
    requires { pos 1 ≤ℤ floor }
    ensures { IfOk result (λ ranked. ranked.floor ≡ floor) }
{
    let base = base_of(alloc, records)?.expect(rt, "a base");
    let totals = Totals::of(alloc, &base)?;
    Ok(Ranked::of(alloc, &base, &totals, floor)?)
}

/// The key of these numbers.
pub(crate) fn key_of(alloc: Global, numbers: &[i64]) -> Result<Key, NoMemory> {
    let mut key = Key::new(alloc);
    for number in numbers {
        key.push(*number)?;
    }
    Ok(key)
}

/// What entries earn.
pub(crate) fn utilities(alloc: Global, entries: &[Entry]) -> Result<Vec<i128>, NoMemory> {
    let mut earned = Vec::new(alloc);
    for entry in entries {
        earned.push(entry.utility)?;
    }
    Ok(earned)
}
