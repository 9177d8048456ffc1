//! The itemsets of some lengths by a named engine.

ghost use Rattle.std.specs.Prelude.{◌≡◌, ◌<◌, ◌≤◌, ◌^◌, true, pos, ◌≤ℤ◌, None, IfOk, IfSome, OnOk};
ghost use Rattle.std.specs.List.{sum_by};
ghost use Rattle.hu_kind.specs.Itemsets.{item_patterns};
ghost use Rattle.hu_kind.specs.Record.{absolute_of};
ghost use Rattle.hu_base.specs.Base.{records_of, records_in};
ghost use Rattle.hu_collect.specs.State.{floor_in, offered};
ghost use Rattle.hu_lengths.specs.Lengths.{sized_answer};
ghost use Rattle.hu_mine.specs.Engine.{offers_further};

use crate::batches::joined;
use crate::engine::{Engine, Wanted};
use hu_base::Base;
use hu_collect::{Collect, Limited};
use hu_kind::{Entry, NoMemory, Record};
use hu_lengths::{LengthsOnly, mine_sized};
use hu_plain::mine_items;
use hu_totals::{RankOrder, Ranked, Totals};
use std::alloc::Global;

/// The first itemsets of `short` to `long` items of those that earn the least utility in all records of the batches, as many as are
/// wanted, in the one order. A search begins with the least utility, since a single item may be too short.
pub fn sized_entries(
    alloc: Global,
    batches: Vec<Base<Record>>,
    wanted: Wanted,
    short: u32,
    long: u32,
) -> Result<Vec<Entry>, NoMemory>
    requires offered { offers_further wanted.engine ≡ true }
    requires fit { sum_by absolute_of (records_in batches.items) < 2 ^ 127 }
    requires least { pos 1 ≤ℤ wanted.least }
    requires some { IfSome wanted.top (λ k. 1 ≤ k) }
    requires lengths { (1 ≤ short) × (short ≤ long) × (long ≤ 4096) }
    ensures { IfOk result (λ entries. entries.items ≡ sized_answer
        (records_in batches.items) wanted.least wanted.top short long) }
{
    let base = joined(alloc, batches)?;
    let Wanted { engine, least, top } = wanted;
    let mut collect = LengthsOnly::new(Limited::new(alloc, top, least), short, long);
    search_sized(alloc, base, engine, least, &mut collect)?;
    collect.into_inner().into_entries()
}

/// Offers the itemsets of a base to a collector of some lengths that wants none that earns less than `least`: by utility
/// lists, or else each of them.
fn search_sized(
    alloc: Global,
    base: Base<Record>,
    engine: Engine,
    least: i128,
    collect: &mut LengthsOnly<Limited>,
) -> Result<(), NoMemory>
    requires least { pos 1 ≤ℤ least }
    requires floor { least ≤ℤ floor_in (⟦<LengthsOnly<Limited> as Collect>⟧.state collect.old) }
    requires table { (⟦<LengthsOnly<Limited> as Collect>⟧.state collect.old).rule.table ≡ None }
    ensures { OnOk result (⟦<LengthsOnly<Limited> as Collect>⟧.state collect.new
        ≡ offered (⟦<LengthsOnly<Limited> as Collect>⟧.state collect.old)
        (item_patterns (records_of base))) }
{
    // This tells the proof that the content is in order.
    let _floor = collect.floor();
    if engine == Engine::Plain {
        return mine_items(alloc, &base, collect);
    }
    let totals = Totals::of(alloc, &base)?;
    let ranked = Ranked::ordered(alloc, &base, &totals, least, RankOrder::Value)?;
    drop(base);
    mine_sized(alloc, &ranked, collect)
}
