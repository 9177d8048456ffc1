//! The engine over utility lists.

ghost use Rattle.std.specs.Prelude.{◌≡◌, ◌<◌, ◌≤◌, ◌+◌, ◌≤ℤ◌, ℕ, [], ◌∷◌, ◌++◌, true, nat_eq, length, IfOk, OnOk};
ghost use Rattle.std.specs.List.{AllByRecursion, IsDistinct};
ghost use Rattle.hu_kind.specs.Itemsets.{item_patterns};
ghost use Rattle.hu_kind.specs.Order.{Ascend};
ghost use Rattle.hu_totals.specs.Ranked.{unranked, IsRanking};
ghost use Rattle.hu_collect.specs.State.{floor_in, IsInOrder, Mines, Searches};
ghost use Rattle.hu_collect.specs.Ranks.{RestsOn};
ghost use Rattle.hu_search.specs.Growth.{Grows, InTable};
ghost use Rattle.hu_search.specs.Children.{AreEnough};
ghost use Rattle.hu_list.specs.View.{tails_of};
ghost use Rattle.hu_totals.specs.Cells.{among};
ghost use Rattle.hu_list.specs.Level.{IsLeft};
ghost use Rattle.hu_list.specs.Board.{HasRoom};
ghost use Rattle.hu_list.specs.Lengths.{WantsUpto};

use crate::level::{Board, Walk, children, chosen, grown_by};
use crate::tail::Tail;
use hu_collect::{Collect, Gate};
use hu_kind::NoMemory;
use hu_search::{Child, Slots, offer_children, opens, ranks_of};
use hu_totals::Ranked;
use std::alloc::Global;

/// Offers the itemsets of the ranked records that can change what the collector holds, with their utility and support, so
/// that it holds what all itemsets would make. From the records that hold a set it walks on to find all sets with one later rank
/// more; these are offered before one is entered, best bound first. What grows a set is left out only where its bound is below
/// the collector's floor of that moment, where the collector doesn't open its key, or where the gate refuses a pair of its
/// ranks. A level takes three passes over the cells that are left of its records, and one more where some of its sets are
/// entered; it keeps tails for these alone. After want of memory some of the itemsets have been offered. After HUI-Miner (Liu and
/// Qu, 2012), FHM (Fournier-Viger, Wu, Zida and Tseng, 2014) and d2HUP (Liu, Wang and Fung, 2012).
pub fn mine<C: Collect, G: Gate>(
    alloc: Global,
    ranked: &Ranked,
    collect: &mut C,
    gate: &G,
) -> Result<(), NoMemory>
    requires ranked_floor { ranked.now.floor ≤ℤ floor_in (C.state collect.old) }
    requires gate_floor { G.floor gate.now ≤ℤ floor_in (C.state collect.old) }
    requires right { G.IsRightFor gate.now ranked.now.records }
    requires rests { RestsOn (C.state collect.old).rule.table ranked.now.items }
    ensures { Mines (C.state collect.old) (item_patterns (unranked ranked.now))
        (C.state collect.new) result }
{
    mine_upto(alloc, ranked, ranked.len(), collect, gate)
}

/// Offers as [`mine`] does, to a collector that wants no itemset of more than `long` items. Those of just `long` items are
/// offered and not entered, so no tails are kept for them.
pub fn mine_upto<C: Collect, G: Gate>(
    alloc: Global,
    ranked: &Ranked,
    long: u32,
    collect: &mut C,
    gate: &G,
) -> Result<(), NoMemory>
    requires ranked_floor { ranked.now.floor ≤ℤ floor_in (C.state collect.old) }
    requires gate_floor { G.floor gate.now ≤ℤ floor_in (C.state collect.old) }
    requires right { G.IsRightFor gate.now ranked.now.records }
    requires rests { RestsOn (C.state collect.old).rule.table ranked.now.items }
    requires long { WantsUpto (C.state collect.old).rule ranked.now.items long }
    ensures { Mines (C.state collect.old) (item_patterns (unranked ranked.now))
        (C.state collect.new) result }
{
    // This tells the proof that the collector's state is in order.
    let _floor = collect.floor();
    let tails = record_tails(alloc, ranked)?;
    let mut board = Board {
        kept: all_ranks(alloc, ranked)?,
        found: Slots::new(alloc, ranked.len())?,
    };
    let walk = Walk {
        alloc,
        ranked,
        long,
        gate,
    };
    search(&walk, &mut Vec::new(alloc), &tails, &mut board, collect)
}

/// All ranks, each with itself as its slot.
fn all_ranks(alloc: Global, ranked: &Ranked) -> Result<Slots, NoMemory>
    ensures room { IfOk result (λ slots. slots.room ≡ length ranked.now.items) }
    ensures all { IfOk result
        (λ slots. (z : ℕ) → z < length ranked.now.items → among z slots.ranks ≡ true) }
{
    let mut slots = Slots::new(alloc, ranked.len())?;
    for rank in 0..ranked.len() {
        slots.push(rank)?;
    }
    Ok(slots)
}

/// The records as tails of the empty set.
fn record_tails<'a>(alloc: Global, ranked: &'a Ranked) -> Result<Vec<Tail<'a>>, NoMemory>
    ensures rules { IsRanking ranked.now }
    ensures left { IfOk result (λ tails. IsLeft ranked.now [] (tails_of tails.items)) }
{
    let records = ranked.records();
    let mut tails = Vec::with_capacity(alloc, records.len())?;
    for cells in records {
        tails.push(Tail {
            own: 0,
            cells: cells.as_slice(),
        })?;
    }
    Ok(tails)
}

/// Offers the sets that grow a set by ranks that the board keeps.
#[cycle(search)]
fn search<C: Collect, G: Gate>(
    walk: &Walk<'_, G>,
    ranks: &mut Vec<u32>,
    tails: &[Tail<'_>],
    board: &mut Board,
    collect: &mut C,
) -> Result<(), NoMemory>
    requires rules { IsRanking walk.now.ranked.now }
    requires table { InTable walk.now.ranked.now ranks.old.items }
    requires left { IsLeft walk.now.ranked.now ranks.old.items (tails_of tails.now) }
    requires enough { AreEnough
        (C.state collect.old) walk.now.ranked.now ranks.old.items board.old.kept.ranks }
    requires ordered { IsInOrder (C.state collect.old) }
    requires floor { G.floor walk.now.gate.now ≤ℤ floor_in (C.state collect.old) }
    requires right { G.IsRightFor walk.now.gate.now walk.now.ranked.now.records }
    requires rests { RestsOn (C.state collect.old).rule.table walk.now.ranked.now.items }
    requires long { WantsUpto (C.state collect.old).rule walk.now.ranked.now.items walk.now.long }
    requires room { HasRoom board.old (length walk.now.ranked.now.items) }
    ensures ranks { OnOk result (ranks.new.items ≡ ranks.old.items) }
    ensures room { HasRoom board.new (length walk.now.ranked.now.items) }
    ensures searches { Searches (C.state collect.old) (Grows walk.now.ranked.now ranks.old.items)
        (C.state collect.new) result }
{
    let children = children(walk, ranks, tails, board, collect)?;
    let Walk { alloc, ranked, .. } = *walk;
    offer_children(alloc, ranked, ranks, &children, collect)?;
    if are_longest(ranks, walk.long) {
        return Ok(());
    }
    let later = ranks_of(alloc, &children)?;
    let chosen = chosen(alloc, children, collect.floor())?;
    let lists = grown_by(alloc, ranked, ranks, tails, &chosen, &mut board.found)?;
    'chosen: for (at, child) in chosen.iter().enumerate() {
        if child.bound < collect.floor() {
            break;
        }
        enter(walk, ranks, child, &lists[at], &later, board, collect)?;
    }
    Ok(())
}

/// Whether these ranks and one more are as many as are wanted.
fn are_longest(ranks: &[u32], long: u32) -> bool
    ensures { result ≡ true → long ≤ length ranks.now + 1 }
{
    long as usize <= ranks.len() + 1
}

/// Offers the sets that grow a child by later ranks of a list, unless the collector doesn't open it or no cells are left.
#[cycle(search)]
fn enter<C: Collect, G: Gate>(
    walk: &Walk<'_, G>,
    ranks: &mut Vec<u32>,
    child: &Child,
    tails: &[Tail<'_>],
    later: &[u32],
    board: &mut Board,
    collect: &mut C,
) -> Result<(), NoMemory>
    requires rules { IsRanking walk.now.ranked.now }
    requires table { InTable walk.now.ranked.now (ranks.old.items ++ child.now.rank ∷ []) }
    requires ascending { Ascend (ranks.old.items ++ child.now.rank ∷ []) }
    requires left { IsLeft walk.now.ranked.now (ranks.old.items ++ child.now.rank ∷ [])
        (tails_of tails.now) }
    requires enough { AreEnough (C.state collect.old) walk.now.ranked.now
        (ranks.old.items ++ child.now.rank ∷ []) later.now }
    requires once { IsDistinct nat_eq later.now }
    requires within { AllByRecursion (λ rank. rank < length walk.now.ranked.now.items) later.now }
    requires ordered { IsInOrder (C.state collect.old) }
    requires floor { G.floor walk.now.gate.now ≤ℤ floor_in (C.state collect.old) }
    requires right { G.IsRightFor walk.now.gate.now walk.now.ranked.now.records }
    requires rests { RestsOn (C.state collect.old).rule.table walk.now.ranked.now.items }
    requires long { WantsUpto (C.state collect.old).rule walk.now.ranked.now.items walk.now.long }
    requires room { HasRoom board.old (length walk.now.ranked.now.items) }
    ensures ranks { OnOk result (ranks.new.items ≡ ranks.old.items) }
    ensures room { HasRoom board.new (length walk.now.ranked.now.items) }
    ensures searches { Searches (C.state collect.old)
        (Grows walk.now.ranked.now (ranks.old.items ++ child.now.rank ∷ []))
        (C.state collect.new) result }
{
    if tails.is_empty() || !opens(walk.alloc, walk.ranked, ranks, child.rank, collect)? {
        return Ok(());
    }
    board.kept.fill(later)?;
    ranks.push(child.rank)?;
    search(walk, ranks, tails, board, collect)?;
    ranks.pop();
    Ok(())
}
