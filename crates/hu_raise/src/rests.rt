//! What is left of records from a rank on. A record is handed from rank to rank: it waits in the list of its next one.

ghost use Rattle.std.specs.Prelude.{◌≡◌, ℕ, ◌<◌, ◌^◌, pos, ◌+ℤ◌, ◌≤ℤ◌, ◌<ℤ◌, [], ◌++◌, map, fold, length, replicate, slice_set, IfOk, OnOk};
ghost use Rattle.std.specs.List.{AllByRecursion, flat_map};
ghost use Rattle.hu_kind.specs.Order.{Ascend};
ghost use Rattle.hu_kind.specs.Record.{items_in};
ghost use Rattle.hu_totals.specs.View.{dense_pair, pairs_in};
ghost use Rattle.hu_raise.specs.Rests.{after_first, handed, later_gain, list_at, rest_from, IsRest};
ghost use Rattle.hu_raise.specs.OverRanks.{AreOverRanks};
ghost use Rattle.hu_raise.specs.Sums.{gain_at, sum_at};
ghost use Rattle.hu_raise.specs.View.{rest_of, rests_of, waiting_in};

use crate::sums::Sums;
use hu_kind::{NoMemory, gain_of};
use hu_totals::{Dense, empty_lists};
use std::alloc::Global;

/// The ranks of a record from one on, and what the whole record gains.
#[derive(Clone, Copy)]
pub(crate) struct Rest<'a> {
    pub ranks: &'a [u32],
    pub gain: i128,
}

/// The ranks of all cells, record by record.
pub(crate) fn ranks_of(alloc: Global, records: &[Vec<Dense>]) -> Result<Vec<u32>, NoMemory>
    ensures { IfOk result (λ ranks. ranks.items ≡ flat_map items_in (map pairs_in records.now)) }
{
    let mut ranks = Vec::new(alloc);
    for record in records {
        push_ranks(&mut ranks, record)?;
    }
    Ok(ranks)
}

/// Appends the ranks of these cells.
fn push_ranks(ranks: &mut Vec<u32>, cells: &[Dense]) -> Result<(), NoMemory>
    ensures { OnOk result (ranks.new.items
        ≡ ranks.old.items ++ items_in (map dense_pair cells.now)) }
{
    for cell in cells {
        ranks.push(cell.rank)?;
    }
    Ok(())
}

/// The records as rests, each in the list of its first rank, in a pass over all cells. `all` are the ranks of these,
/// record by record.
pub(crate) fn waiting_of<'a>(
    alloc: Global,
    records: &[Vec<Dense>],
    all: &'a [u32],
    ranks: u32,
) -> Result<Vec<Vec<Rest<'a>>>, NoMemory>
    requires rules { AreOverRanks ranks (map pairs_in records.now) }
    requires all { all.now ≡ flat_map items_in (map pairs_in records.now) }
    ensures { IfOk result (λ waiting. waiting_in waiting.items
        ≡ fold handed (replicate ranks []) (map rest_from (map pairs_in records.now))) }
{
    let mut waiting = empty_lists(alloc, ranks as usize)?;
    let mut left = all;
    for record in records {
        let (own, after) = left.split_at(record.len());
        let rest = Rest {
            ranks: own,
            gain: gain_of(record),
        };
        hand(&mut waiting, rest)?;
        left = after;
    }
    Ok(waiting)
}

/// Puts a rest in the list of its first rank, where it has one.
fn hand<'a>(waiting: &mut Vec<Vec<Rest<'a>>>, rest: Rest<'a>) -> Result<(), NoMemory>
    requires { AllByRecursion (λ rank. rank < length waiting.old.items) rest.ranks.now }
    ensures { OnOk result (waiting_in waiting.new.items
        ≡ handed (waiting_in waiting.old.items) (rest_of rest.entry)) }
{
    if !rest.ranks.is_empty() {
        waiting[rest.ranks[0] as usize].push(rest)?;
    }
    Ok(())
}

/// What is left of a rest after its first rank.
fn after_first<'a>(rest: Rest<'a>) -> Rest<'a>
    requires { 0 < length rest.ranks.now }
    ensures { rest_of result ≡ after_first (rest_of rest.entry) }
{
    Rest {
        ranks: &rest.ranks[1..],
        gain: rest.gain,
    }
}

/// Takes the list of a rank, and leaves it empty.
pub(crate) fn take<'a>(alloc: Global, waiting: &mut Vec<Vec<Rest<'a>>>, rank: u32) -> Vec<Rest<'a>>
    requires { rank < length waiting.old.items }
    ensures value { rests_of result.items ≡ list_at (waiting_in waiting.old.items) rank }
    ensures left { waiting_in waiting.new.items ≡ slice_set (waiting_in waiting.old.items) rank [] }
{
    std::mem::replace(&mut waiting[rank as usize], Vec::new(alloc))
}

/// Adds what each rest gains to the sum of each of its later ranks, and hands these on to the list of the first.
pub(crate) fn hand_on<'a>(
    sums: &mut Sums,
    waiting: &mut Vec<Vec<Rest<'a>>>,
    rests: &[Rest<'a>],
) -> Result<(), NoMemory>
    requires each { AllByRecursion (IsRest (length sums.old)) (rests_of rests.now) }
    requires room { length waiting.old.items ≡ length sums.old }
    requires none { (rank : ℕ) → sum_at sums.old rank ≡ pos 0 }
    requires fits { (rank : ℕ) → later_gain (rests_of rests.now) rank <ℤ pos (2 ^ 127) }
    ensures len { OnOk result (length sums.new ≡ length sums.old) }
    ensures sums { OnOk result ((rank : ℕ) → sum_at sums.new rank
        ≡ later_gain (rests_of rests.now) rank) }
    ensures waiting { OnOk result (waiting_in waiting.new.items
        ≡ fold handed (waiting_in waiting.old.items) (map after_first (rests_of rests.now))) }
{
    for rest in rests {
        let later = after_first(*rest);
        add_to_each(sums, later.ranks, later.gain)?;
        hand(waiting, later)?;
    }
    Ok(())
}

/// Adds a gain to the sum of each of these ranks.
fn add_to_each(sums: &mut Sums, ranks: &[u32], gain: i128) -> Result<(), NoMemory>
    requires ascending { Ascend ranks.now }
    requires in_range { AllByRecursion (λ rank. rank < length sums.old) ranks.now }
    requires least { pos 0 ≤ℤ gain }
    requires fits { (rank : ℕ) → (sum_at sums.old rank +ℤ gain_at ranks.now gain rank)
        <ℤ pos (2 ^ 127) }
    ensures len { OnOk result (length sums.new ≡ length sums.old) }
    ensures sums { OnOk result ((rank : ℕ) → sum_at sums.new rank
        ≡ sum_at sums.old rank +ℤ gain_at ranks.now gain rank) }
{
    for rank in ranks {
        sums.add(*rank, gain)?;
    }
    Ok(())
}
