//! Mining by a named engine.

ghost use Rattle.std.specs.Prelude.{◌≡◌, ◌<◌, ◌≤◌, ◌^◌, true, pos, ◌≤ℤ◌, IfOk, IfSome};
ghost use Rattle.std.specs.List.{sum_by};
ghost use Rattle.hu_kind.specs.declared.task.Task.TheVariants.{Items, Closed, Sequences};
ghost use Rattle.hu_kind.specs.Answer.{item_answer, closed_answer, sequence_answer};
ghost use Rattle.hu_kind.specs.Itemsets.{item_patterns};
ghost use Rattle.hu_kind.specs.Record.{absolute_of};
ghost use Rattle.hu_base.specs.Base.{records_of, records_in};
ghost use Rattle.hu_closed.specs.ClosedOnly.{IsRankingOf};
ghost use Rattle.hu_collect.specs.Ranks.{RestsOn};
ghost use Rattle.hu_collect.specs.State.{floor_in, offered};
ghost use Rattle.hu_totals.specs.Laws.{KeepsPatterns};
ghost use Rattle.hu_mine.specs.Engine.{offers};

use crate::batches::joined;
use crate::engine::{Engine, Wanted};
use crate::kept::kept_entries;
use crate::search::{search, search_sequences, start_of};
use hu_base::Base;
use hu_closed::{ClosedOnly, RecordSets};
use hu_collect::{Collect, Limited};
use hu_kind::{Entry, NoMemory, Record, SeqRecord};
use hu_plain::mine_items;
use hu_totals::{RankOrder, Ranked, Totals};
use std::alloc::Global;

/// The first itemsets of those that earn the least utility in all records of the batches, as many as are wanted, in the one order.
/// The kept engine takes the batches one after another, any other all of them together.
pub fn item_entries(
    alloc: Global,
    batches: Vec<Base<Record>>,
    wanted: Wanted,
) -> Result<Vec<Entry>, NoMemory>
    requires offered { offers Items wanted.engine ≡ true }
    requires fit { sum_by absolute_of (records_in batches.items) < 2 ^ 127 }
    requires least { pos 1 ≤ℤ wanted.least }
    requires some { IfSome wanted.top (λ k. 1 ≤ k) }
    ensures { IfOk result (λ entries. entries.items
        ≡ item_answer (records_in batches.items) wanted.least wanted.top) }
{
    match wanted.engine {
        Engine::Kept => kept_entries(alloc, batches, wanted, false),
        Engine::Plain => plain_items(alloc, &joined(alloc, batches)?, wanted),
        Engine::Lists | Engine::Project | Engine::Chain => {
            ranked_items(alloc, joined(alloc, batches)?, wanted)
        }
    }
}

/// The first closed itemsets of those that earn the least utility in all records of the batches, as many as are wanted, in the one
/// order. A search begins with the least utility, since a single item may not be closed.
pub fn closed_entries(
    alloc: Global,
    batches: Vec<Base<Record>>,
    wanted: Wanted,
) -> Result<Vec<Entry>, NoMemory>
    requires offered { offers Closed wanted.engine ≡ true }
    requires fit { sum_by absolute_of (records_in batches.items) < 2 ^ 127 }
    requires least { pos 1 ≤ℤ wanted.least }
    requires some { IfSome wanted.top (λ k. 1 ≤ k) }
    ensures { IfOk result (λ entries. entries.items
        ≡ closed_answer (records_in batches.items) wanted.least wanted.top) }
{
    match wanted.engine {
        Engine::Kept => kept_entries(alloc, batches, wanted, true),
        Engine::Plain | Engine::Lists | Engine::Project | Engine::Chain => {
            ranked_closed(alloc, joined(alloc, batches)?, wanted)
        }
    }
}

/// The first sequences of those that earn the least utility in all records of the batches, as many as are wanted, in the one order.
pub fn sequence_entries(
    alloc: Global,
    batches: Vec<Base<SeqRecord>>,
    wanted: Wanted,
) -> Result<Vec<Entry>, NoMemory>
    requires offered { offers Sequences wanted.engine ≡ true }
    requires fit { sum_by (λ elements. sum_by absolute_of elements) (records_in batches.items)
        < 2 ^ 127 }
    requires least { pos 1 ≤ℤ wanted.least }
    requires some { IfSome wanted.top (λ k. 1 ≤ k) }
    ensures { IfOk result (λ entries. entries.items
        ≡ sequence_answer (records_in batches.items) wanted.least wanted.top) }
{
    let base = joined(alloc, batches)?;
    let mut collect = Limited::new(alloc, wanted.top, wanted.least);
    search_sequences(alloc, &base, wanted.engine, &mut collect)?;
    collect.into_entries()
}

/// The answer by the plain engine, which needs no ranks.
fn plain_items(alloc: Global, base: &Base<Record>, wanted: Wanted) -> Result<Vec<Entry>, NoMemory>
    requires least { pos 1 ≤ℤ wanted.least }
    requires some { IfSome wanted.top (λ k. 1 ≤ k) }
    ensures { IfOk result (λ entries. entries.items
        ≡ item_answer (records_of base.now) wanted.least wanted.top) }
{
    let mut collect = Limited::new(alloc, wanted.top, wanted.least);
    mine_items(alloc, base, &mut collect)?;
    collect.into_entries()
}

/// The answer by an engine over ranks. With a k it begins with what k single items earn.
fn ranked_items(alloc: Global, base: Base<Record>, wanted: Wanted) -> Result<Vec<Entry>, NoMemory>
    requires least { pos 1 ≤ℤ wanted.least }
    requires some { IfSome wanted.top (λ k. 1 ≤ k) }
    ensures { IfOk result (λ entries. entries.items
        ≡ item_answer (records_of base) wanted.least wanted.top) }
{
    let totals = Totals::of(alloc, &base)?;
    let Wanted { engine, least, top } = wanted;
    let least = start_of(alloc, &totals, least, top)?;
    let ranked = Ranked::ordered(alloc, &base, &totals, least, RankOrder::Value)?;
    items_from(alloc, base, &ranked, Wanted { engine, least, top })
}

/// The answer over the ranks of the items that can reach the least utility.
fn items_from(
    alloc: Global,
    base: Base<Record>,
    ranked: &Ranked,
    wanted: Wanted,
) -> Result<Vec<Entry>, NoMemory>
    requires patterns { KeepsPatterns (records_of base) ranked.now }
    requires floor { ranked.now.floor ≤ℤ wanted.least }
    requires least { pos 1 ≤ℤ wanted.least }
    requires some { IfSome wanted.top (λ k. 1 ≤ k) }
    ensures { IfOk result (λ entries. entries.items
        ≡ item_answer (records_of base) wanted.least wanted.top) }
{
    let mut collect = Limited::new(alloc, wanted.top, wanted.least);
    search(alloc, base, ranked, wanted.engine, &mut collect)?;
    collect.into_entries()
}

/// The closed answer, over the ranks of the items that can reach the least utility.
fn ranked_closed(alloc: Global, base: Base<Record>, wanted: Wanted) -> Result<Vec<Entry>, NoMemory>
    requires least { pos 1 ≤ℤ wanted.least }
    requires some { IfSome wanted.top (λ k. 1 ≤ k) }
    ensures { IfOk result (λ entries. entries.items
        ≡ closed_answer (records_of base) wanted.least wanted.top) }
{
    let totals = Totals::of(alloc, &base)?;
    let ranked = Ranked::ordered(alloc, &base, &totals, wanted.least, RankOrder::Value)?;
    let sets = RecordSets::of(alloc, &base)?;
    closed_from(alloc, base, &ranked, &sets, wanted)
}

/// The same over ranks, and over the records that hold each item.
fn closed_from(
    alloc: Global,
    base: Base<Record>,
    ranked: &Ranked,
    sets: &RecordSets,
    wanted: Wanted,
) -> Result<Vec<Entry>, NoMemory>
    requires ranks { IsRankingOf sets.now ranked.now }
    requires patterns { KeepsPatterns (records_of base) ranked.now }
    requires sets { sets.now ≡ records_of base }
    requires floor { ranked.now.floor ≤ℤ wanted.least }
    requires least { pos 1 ≤ℤ wanted.least }
    requires some { IfSome wanted.top (λ k. 1 ≤ k) }
    ensures { IfOk result (λ entries. entries.items
        ≡ closed_answer (records_of base) wanted.least wanted.top) }
{
    let limited = Limited::new(alloc, wanted.top, wanted.least);
    let mut collect = ClosedOnly::new(limited, sets, ranked);
    search(alloc, base, ranked, wanted.engine, &mut collect)?;
    collect.into_inner().into_entries()
}
