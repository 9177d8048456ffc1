//! The search for the itemsets up to a greatest length.

ghost use Rattle.std.specs.Prelude.{◌≡◌, ◌≤◌, ◌≤ℤ◌, pos, None, IfOk};
ghost use Rattle.hu_kind.specs.Itemsets.{item_patterns};
ghost use Rattle.hu_totals.specs.Ranked.{unranked};
ghost use Rattle.hu_collect.specs.Ranks.{RestsOn};
ghost use Rattle.hu_collect.specs.State.{floor_in, IsInOrder, Mines};
ghost use Rattle.hu_lengths.specs.LengthsOnly.{sized_in};
ghost use Rattle.hu_lengths.specs.Lengths.{upto_length, sized_answer};

use crate::lengths_only::LengthsOnly;
use hu_collect::{All, Collect, NoGate};
use hu_kind::{Entry, NoMemory};
use hu_list::mine_upto;
use hu_totals::Ranked;
use std::alloc::Global;

/// Offers the itemsets of the ranked records that can change what a collector of keys of some lengths holds, so that it holds
/// what all itemsets would make. It costs as the search of hu_list, which enters no itemset of the greatest length.
pub fn mine_sized<C: Collect>(
    alloc: Global,
    ranked: &Ranked,
    collect: &mut LengthsOnly<C>,
) -> Result<(), NoMemory>
    requires ranked_floor { ranked.now.floor ≤ℤ floor_in (sized_in C.state collect.old) }
    requires rests { RestsOn (sized_in C.state collect.old).rule.table ranked.now.items }
    ensures { Mines (sized_in C.state collect.old) (item_patterns (unranked ranked.now))
        (sized_in C.state collect.new) result }
{
    // These tell the proof the rules of ranked records, and that a floor is at least 1.
    let _records = ranked.records();
    let _floor = collect.floor();
    let long = collect.long();
    mine_upto(alloc, ranked, long, collect, &NoGate)
}

/// Offers to any collector the itemsets of at most `long` items that reach its floor. They are found first and then offered, so
/// all of them are held for a time, and the floor that the search knows is that of the start; [`mine_sized`] does neither. After
/// want of memory some of them have been offered.
pub fn mine<C: Collect>(
    alloc: Global,
    ranked: &Ranked,
    long: u32,
    collect: &mut C,
) -> Result<(), NoMemory>
    requires some { 1 ≤ long }
    requires ranked_floor { ranked.now.floor ≤ℤ floor_in (C.state collect.old) }
    requires rests { RestsOn (C.state collect.old).rule.table ranked.now.items }
    ensures { Mines (C.state collect.old) (upto_length long (item_patterns (unranked ranked.now)))
        (C.state collect.new) result }
{
    let floor = collect.floor();
    let entries = entries_upto(alloc, ranked, long, floor)?;
    offer_all(entries, collect)
}

/// The entries of the itemsets of at most `long` items that reach a floor.
fn entries_upto(
    alloc: Global,
    ranked: &Ranked,
    long: u32,
    floor: i128,
) -> Result<Vec<Entry>, NoMemory>
    requires least { pos 1 ≤ℤ floor }
    requires ranked_floor { ranked.now.floor ≤ℤ floor }
    ensures { IfOk result (λ entries. entries.items ≡ sized_answer
        (unranked ranked.now) floor None 0 long) }
{
    let mut collect = LengthsOnly::around(All::new(alloc, floor), 0, long);
    mine_sized(alloc, ranked, &mut collect)?;
    collect.into_inner().into_entries()
}

/// Offers entries, until memory is wanting.
fn offer_all<C: Collect>(entries: Vec<Entry>, collect: &mut C) -> Result<(), NoMemory>
    requires ordered { IsInOrder (C.state collect.old) }
    ensures { Mines (C.state collect.old) entries.items (C.state collect.new) result }
{
    for entry in entries {
        collect.offer(entry)?;
    }
    Ok(())
}
