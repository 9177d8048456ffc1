//! The itemsets of high average utility by a named engine.

ghost use Rattle.std.specs.Prelude.{◌≡◌, ◌<◌, ◌≤◌, ◌^◌, true, pos, ◌≤ℤ◌, IfOk, IfSome};
ghost use Rattle.std.specs.List.{sum_by};
ghost use Rattle.hu_kind.specs.Record.{absolute_of};
ghost use Rattle.hu_base.specs.Base.{records_in, records_of};
ghost use Rattle.hu_average.specs.Answer.{average_answer};
ghost use Rattle.hu_mine.specs.Engine.{offers_further};

use crate::batches::joined;
use crate::engine::{Engine, Wanted};
use hu_base::Base;
use hu_kind::{Entry, NoMemory, Record};
use hu_totals::{RankOrder, Ranked, Totals};
use std::alloc::Global;

/// The first itemsets of those that earn the least utility for each of their items in all records of the batches, as many as are
/// wanted, by what they earn for each.
pub fn average_entries(
    alloc: Global,
    batches: Vec<Base<Record>>,
    wanted: Wanted,
) -> Result<Vec<Entry>, NoMemory>
    requires offered { offers_further wanted.engine ≡ true }
    requires fit { sum_by absolute_of (records_in batches.items) < 2 ^ 127 }
    requires least { pos 1 ≤ℤ wanted.least }
    requires some { IfSome wanted.top (λ k. 1 ≤ k) }
    ensures { IfOk result (λ entries. entries.items
        ≡ average_answer (records_in batches.items) wanted.least wanted.top) }
{
    let base = joined(alloc, batches)?;
    match wanted.engine {
        Engine::Plain => hu_average::mine_plain(alloc, &base, wanted.least, wanted.top),
        Engine::Lists | Engine::Project | Engine::Kept | Engine::Chain => {
            ranked_average(alloc, base, wanted)
        }
    }
}

/// The same over one base by utility lists. A set that earns so much for each of its items earns as much, so that its items can
/// reach that.
fn ranked_average(alloc: Global, base: Base<Record>, wanted: Wanted) -> Result<Vec<Entry>, NoMemory>
    requires least { pos 1 ≤ℤ wanted.least }
    requires some { IfSome wanted.top (λ k. 1 ≤ k) }
    ensures { IfOk result (λ entries. entries.items
        ≡ average_answer (records_of base) wanted.least wanted.top) }
{
    let totals = Totals::of(alloc, &base)?;
    let ranked = Ranked::ordered(alloc, &base, &totals, wanted.least, RankOrder::Value)?;
    drop(base);
    hu_average::mine(alloc, &ranked, wanted.least, wanted.top)
}
