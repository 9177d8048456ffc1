//! The search of itemsets by an engine over ranks, that of sequences, and the utility with which it begins.

ghost use Rattle.std.specs.Prelude.{◌≡◌, ◌≤◌, pos, ◌≤ℤ◌, IfOk, IfSome, OnOk};
ghost use Rattle.hu_kind.specs.Itemsets.{item_patterns};
ghost use Rattle.hu_kind.specs.Sequence.{sequence_patterns};
ghost use Rattle.hu_base.specs.Base.{records_of};
ghost use Rattle.hu_collect.specs.State.{floor_in, offered, Mines};
ghost use Rattle.hu_collect.specs.Ranks.{RestsOn};
ghost use Rattle.hu_totals.specs.Laws.{KeepsPatterns};
ghost use Rattle.hu_mine.specs.Start.{StartsAlike};

use crate::engine::Engine;
use hu_base::Base;
use hu_collect::Collect;
use hu_kind::{NoMemory, Record, SeqRecord};
use hu_plain::{mine_items, mine_sequences};
use hu_raise::{PairTwu, start_floor};
use hu_totals::{Ranked, Totals};
use std::alloc::Global;

/// Offers the itemsets of a base that may change what is collected: by utility lists, which join only ranks that gain the
/// floor together, by projected rows, or else each of them. An engine over ranks needs the base no more, so that its memory
/// is free for the search.
pub(crate) fn search<C: Collect>(
    alloc: Global,
    base: Base<Record>,
    ranked: &Ranked,
    engine: Engine,
    collect: &mut C,
) -> Result<(), NoMemory>
    requires patterns { KeepsPatterns (records_of base) ranked.now }
    requires floor { ranked.now.floor ≤ℤ floor_in (C.state collect.old) }
    requires rests { RestsOn (C.state collect.old).rule.table ranked.now.items }
    ensures { OnOk result (C.state collect.new ≡ offered (C.state collect.old)
        (item_patterns (records_of base))) }
{
    let floor = collect.floor();
    match engine {
        Engine::Lists => {
            drop(base);
            let gate = PairTwu::of(alloc, ranked, floor)?;
            hu_list::mine(alloc, ranked, collect, &gate)
        }
        Engine::Project => {
            drop(base);
            hu_project::mine(alloc, ranked, collect)
        }
        Engine::Plain | Engine::Kept | Engine::Chain => mine_items(alloc, &base, collect),
    }
}

/// Offers the sequences of a base that may change what is collected: by utility chains, or else each of them.
pub(crate) fn search_sequences<C: Collect>(
    alloc: Global,
    base: &Base<SeqRecord>,
    engine: Engine,
    collect: &mut C,
) -> Result<(), NoMemory>
    ensures { Mines (C.state collect.old) (sequence_patterns (records_of base.now))
        (C.state collect.new) result }
{
    match engine {
        Engine::Plain => mine_sequences(alloc, base, collect),
        Engine::Lists | Engine::Project | Engine::Kept | Engine::Chain => {
            hu_span::mine(alloc, base, collect)
        }
    }
}

/// The utility with which a search begins: the least one, and with a k no less than what k single items earn.
pub(crate) fn start_of(
    alloc: Global,
    totals: &Totals,
    least: i128,
    top: Option<u32>,
) -> Result<i128, NoMemory>
    requires least { pos 1 ≤ℤ least }
    requires some { IfSome top (λ k. 1 ≤ k) }
    ensures least { IfOk result (λ start. pos 1 ≤ℤ start) }
    ensures alike { IfOk result (StartsAlike totals.now least top) }
{
    match top {
        None => Ok(least),
        Some(k) => Ok(least.max(start_floor(alloc, totals, k)?)),
    }
}
