//! The search over all records, or over the patterns among them that a batch touches.

ghost use Rattle.std.specs.Prelude.{◌≡◌, pos, ◌≤ℤ◌, ℕ, ℤ, List, IfOk, OnOk, option_copied};
ghost use Rattle.hu_kind.specs.Itemsets.{item_patterns};
ghost use Rattle.hu_collect.specs.Rule.{made};
ghost use Rattle.hu_collect.specs.State.{floor_in, offered};
ghost use Rattle.hu_collect.specs.Ranks.{RestsOn};
ghost use Rattle.hu_totals.specs.Laws.{KeepsPatterns};
ghost use Rattle.hu_kept.specs.Touched.{within};

use crate::gates::Gates;
use crate::touched::Touched;
use hu_closed::RecordSets;
use hu_collect::Collect;
use hu_kind::NoMemory;
use hu_totals::Ranked;
use std::alloc::Global;

/// Offers the patterns of the ranked records that may change what is collected.
fn search<G: Gates, C: Collect>(
    alloc: Global,
    ranked: &Ranked,
    gates: &G,
    collect: &mut C,
) -> Result<(), NoMemory>
    requires floor { ranked.now.floor ≤ℤ floor_in (C.state collect.old) }
    requires rests { RestsOn (C.state collect.old).rule.table ranked.now.items }
    ensures { OnOk result ((records : List (List (ℕ × ℤ))) → KeepsPatterns records ranked.now
        → C.state collect.new ≡ offered (C.state collect.old) (item_patterns records)) }
{
    let gate = gates.gate(alloc, ranked, collect.floor())?;
    hu_list::mine(alloc, ranked, collect, &gate)
}

/// A collector with the patterns of the ranked records put in: with a batch those that it touches.
pub(crate) fn searched<G: Gates, C: Collect + Drop>(
    alloc: Global,
    ranked: &Ranked,
    gates: &G,
    collect: C,
    batch: Option<&RecordSets>,
) -> Result<C, NoMemory>
    requires floor { ranked.now.floor ≤ℤ floor_in (C.state collect) }
    requires rests { RestsOn (C.state collect).rule.table ranked.now.items }
    ensures { IfOk result (λ found. (records : List (List (ℕ × ℤ))) → KeepsPatterns records ranked.now
        → (C.state found).content ≡ made (within (option_copied batch.entry) (C.state collect).rule) (C.state collect).content (item_patterns records)) }
{
    let mut collect = collect;
    match batch {
        Some(sets) => {
            let mut touched = Touched::new(collect, sets);
            search(alloc, ranked, gates, &mut touched)?;
            Ok(touched.into_inner())
        }
        None => {
            search(alloc, ranked, gates, &mut collect)?;
            Ok(collect)
        }
    }
}
