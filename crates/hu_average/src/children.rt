//! Sets of ranks with one later rank more.

ghost use Rattle.std.specs.Prelude.{◌≡◌, ◌<◌, [], ◌∷◌, ◌++◌, true, false, length, IfOk, OnOk};
ghost use Rattle.hu_totals.specs.Ranked.{IsRanking};
ghost use Rattle.hu_search.specs.Growth.{rank_entry};
ghost use Rattle.hu_average.specs.Best.{offered, IsKept};
ghost use Rattle.hu_average.specs.Tails.{IsLeft, tails_of};
ghost use Rattle.hu_average.specs.Children.{AreLater, AreTotals, IsChild, AreChildren, IsShut, ArePicked, entries_of, ranks_of};

use crate::best::Best;
use crate::order::Average;
use crate::tail::Tail;
use crate::totals::{RankTotal, totals};
use hu_kind::{Entry, NoMemory};
use hu_search::{Slots, key_of};
use hu_totals::Ranked;
use std::alloc::Global;

/// What stays the same through a search.
#[derive(Drop)]
pub(crate) struct Walk<'a> {
    pub alloc: Global,
    /// The records, by the ranks of their items.
    pub ranked: &'a Ranked,
}

/// A set with a later rank more: the rank and what the records say of the set.
#[derive(Clone, Copy)]
pub(crate) struct Child {
    pub rank: u32,
    pub total: RankTotal,
}

/// The children of a set over its tails, out of those with these later ranks. Those are passed over that no record holds, or that
/// nothing holds which gets in. It takes one pass over the cells.
pub(crate) fn children(
    walk: &Walk<'_>,
    ranks: &[u32],
    tails: &[Tail<'_>],
    later: &[u32],
    slots: &mut Slots,
    best: &Best,
) -> Result<Vec<Child>, NoMemory>
    requires rules { IsRanking walk.now.ranked.now }
    requires left { IsLeft walk.now.ranked.now ranks.now (tails_of tails.now) }
    requires later { AreLater walk.now.ranked.now ranks.now later.now }
    requires room { slots.old.room ≡ length walk.now.ranked.now.items }
    ensures room { slots.new.room ≡ slots.old.room }
    ensures picked { IfOk result
        (λ children. ArePicked best.now walk.now.ranked.now ranks.now later.now children.items) }
{
    let Walk { alloc, ranked } = *walk;
    slots.fill(later)?;
    let totals = totals(alloc, tails, slots)?;
    let all = children_of(alloc, ranked, ranks, later, &totals)?;
    picked(alloc, ranked, ranks, &all, best)
}

/// The children with these ranks and totals.
fn children_of(
    alloc: Global,
    ranked: &Ranked,
    ranks: &[u32],
    later: &[u32],
    totals: &[RankTotal],
) -> Result<Vec<Child>, NoMemory>
    requires later { AreLater ranked.now ranks.now later.now }
    requires totals { AreTotals ranked.now ranks.now later.now totals.now }
    ensures children { IfOk result (λ children. AreChildren ranked.now ranks.now children.items) }
    ensures ranks { IfOk result (λ children. ranks_of children.items ≡ later.now) }
{
    let mut children = Vec::with_capacity(alloc, later.len())?;
    for at in 0..later.len() {
        children.push(Child {
            rank: later[at],
            total: totals[at],
        })?;
    }
    Ok(children)
}

/// Of children those that some record holds, and that aren't left out by now with all that holds them.
pub(crate) fn picked(
    alloc: Global,
    ranked: &Ranked,
    ranks: &[u32],
    children: &[Child],
    best: &Best,
) -> Result<Vec<Child>, NoMemory>
    requires rules { IsRanking ranked.now }
    requires children { AreChildren ranked.now ranks.now children.now }
    ensures { IfOk result
        (λ picked. ArePicked best.now ranked.now ranks.now (ranks_of children.now) picked.items) }
{
    let mut picked = Vec::new(alloc);
    for child in children {
        if is_shut(child, best) {
            continue;
        }
        picked.push(*child)?;
    }
    Ok(picked)
}

/// Whether no record holds a child's set, or all that holds it is left out by now.
pub(crate) fn is_shut(child: &Child, best: &Best) -> bool
    ensures shut { result ≡ true → IsShut best.now child.now }
    ensures some { result ≡ false → 0 < child.now.total.support }
{
    child.total.support == 0 || best.leaves_out(Average::whole(child.total.bound))
}

/// The ranks of children.
pub(crate) fn ranks_of(alloc: Global, children: &[Child]) -> Result<Vec<u32>, NoMemory>
    ensures { IfOk result (λ ranks. ranks.items ≡ ranks_of children.now) }
{
    let mut ranks = Vec::with_capacity(alloc, children.len())?;
    for child in children {
        ranks.push(child.rank)?;
    }
    Ok(ranks)
}

/// Offers the sets of children. No key is built for one that is left out.
pub(crate) fn offer_children(
    alloc: Global,
    ranked: &Ranked,
    ranks: &[u32],
    children: &[Child],
    best: &mut Best,
) -> Result<(), NoMemory>
    requires rules { IsRanking ranked.now }
    requires children { AreChildren ranked.now ranks.now children.now }
    requires kept { IsKept best.old }
    ensures { OnOk result
        (best.new ≡ offered best.old (entries_of ranked.now ranks.now children.now)) }
{
    for child in children {
        offer_child(alloc, ranked, ranks, child, best)?;
    }
    Ok(())
}

/// Offers the set of a child, unless it is left out.
fn offer_child(
    alloc: Global,
    ranked: &Ranked,
    ranks: &[u32],
    child: &Child,
    best: &mut Best,
) -> Result<(), NoMemory>
    requires rules { IsRanking ranked.now }
    requires child { IsChild ranked.now ranks.now child.now }
    requires kept { IsKept best.old }
    ensures { OnOk result
        (best.new
        ≡ offered best.old (rank_entry ranked.now (ranks.now ++ child.now.rank ∷ []) ∷ [])) }
{
    let average = Average {
        utility: child.total.utility,
        count: ranks.len() as u64 + 1,
    };
    if best.leaves_out(average) {
        return Ok(());
    }
    best.offer(Entry {
        key: key_of(alloc, ranked, ranks, child.rank)?,
        utility: child.total.utility,
        support: child.total.support,
    })
}
