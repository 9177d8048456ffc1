//! The search by average.

ghost use Rattle.std.specs.Prelude.{◌≡◌, ◌+◌, ◌<◌, ◌≤◌, ◌≤ℤ◌, ℕ, pos, [], ◌∷◌, ◌++◌, ◌-◌, take, drop, length, IfOk, OnOk, IfSome};
ghost use Rattle.hu_kind.proofs.lemmas.Members.{Member};
ghost use Rattle.hu_totals.specs.Ranked.{unranked, IsRanking};
ghost use Rattle.hu_search.specs.Growth.{Grows};
ghost use Rattle.hu_average.specs.Answer.{average_answer};
ghost use Rattle.hu_average.specs.Best.{IsKept, Covers};
ghost use Rattle.hu_average.specs.Tails.{IsLeft, tails_of};
ghost use Rattle.hu_average.specs.Children.{IsChild, AreLater, AreEnough};

use crate::best::Best;
use crate::children::{Child, Walk, children, is_shut, offer_children, picked, ranks_of};
use crate::grow::grown;
use crate::tail::{Tail, record_tails};
use hu_kind::{Entry, NoMemory};
use hu_search::Slots;
use hu_totals::Ranked;
use std::alloc::Global;

/// The itemsets of the ranked records that earn at least `least` for each of their items, by average, and the first k of them
/// where there is a `top`. It searches utility lists in a form that costs no join: from the records that hold a set it walks on to
/// find all sets with one later rank more. These are offered before one of them is entered, and what holds a set is left out only
/// where the set's [`bound`](crate::bound) is below the minimum, or below the k-th average of that moment. A level takes one pass
/// over the cells that are left of its records, and one more for the sets that are entered, which alone get tails; the tails along
/// one branch are held. After HUI-Miner (Liu and Qu, 2012), Hong, Lee and Wang (2009) and d2HUP (Liu, Wang and Fung, 2012).
pub fn mine(
    alloc: Global,
    ranked: &Ranked,
    least: i128,
    top: Option<u32>,
) -> Result<Vec<Entry>, NoMemory>
    requires least { pos 1 ≤ℤ least }
    requires some { IfSome top (λ k. 1 ≤ k) }
    ensures { IfOk result
        (λ entries. entries.items ≡ average_answer (unranked ranked.now) least top) }
{
    let tails = record_tails(alloc, ranked)?;
    let later = all_ranks(alloc, ranked)?;
    let mut slots = Slots::new(alloc, ranked.len())?;
    let mut best = Best::new(alloc, least, top);
    search(
        &Walk { alloc, ranked },
        &mut Vec::new(alloc),
        &tails,
        &later,
        &mut slots,
        &mut best,
    )?;
    best.into_entries()
}

/// All ranks.
fn all_ranks(alloc: Global, ranked: &Ranked) -> Result<Vec<u32>, NoMemory>
    ensures later { IfOk result (λ ranks. AreLater ranked.now [] ranks.items) }
    ensures whole { IfOk result
        (λ ranks. (z : ℕ) → z < length ranked.now.items → Member z ranks.items) }
{
    let mut ranks = Vec::with_capacity(alloc, ranked.len() as usize)?;
    for rank in 0..ranked.len() {
        ranks.push(rank)?;
    }
    Ok(ranks)
}

/// Offers the sets that grow a set by ranks of later ones, where these are enough.
#[cycle(search)]
fn search(
    walk: &Walk<'_>,
    ranks: &mut Vec<u32>,
    tails: &[Tail<'_>],
    later: &[u32],
    slots: &mut Slots,
    best: &mut Best,
) -> Result<(), NoMemory>
    requires rules { IsRanking walk.now.ranked.now }
    requires left { IsLeft walk.now.ranked.now ranks.old.items (tails_of tails.now) }
    requires later { AreLater walk.now.ranked.now ranks.old.items later.now }
    requires enough { AreEnough best.old walk.now.ranked.now ranks.old.items later.now }
    requires room { slots.old.room ≡ length walk.now.ranked.now.items }
    requires kept { IsKept best.old }
    ensures ranks { OnOk result (ranks.new.items ≡ ranks.old.items) }
    ensures room { slots.new.room ≡ slots.old.room }
    ensures covers { OnOk result
        (Covers best.old (Grows walk.now.ranked.now ranks.old.items) best.new) }
{
    let children = children(walk, ranks, tails, later, slots, best)?;
    let Walk { alloc, ranked } = *walk;
    offer_children(alloc, ranked, ranks, &children, best)?;
    let entered = picked(alloc, ranked, ranks, &children, best)?;
    let left = ranks_of(alloc, &entered)?;
    // The last child can't grow by a later one, so that it needs no tails.
    slots.fill(all_but_last(&left))?;
    let lists = grown(alloc, tails, slots)?;
    'lists: for (at, list) in lists.iter().enumerate() {
        let after = after(&left, at);
        enter(walk, ranks, &entered[at], list, after, slots, best)?;
    }
    Ok(())
}

/// All ranks but the last one.
fn all_but_last(ranks: &[u32]) -> &[u32]
    ensures { result.now ≡ take (length ranks.now - 1) ranks.now }
{
    &ranks[..ranks.len().saturating_sub(1)]
}

/// The ranks after a place.
fn after(ranks: &[u32], at: usize) -> &[u32]
    requires { at < length ranks.now }
    ensures { result.now ≡ drop (at + 1) ranks.now }
{
    &ranks[at + 1..]
}

/// Offers the sets that grow a child by ranks of later ones, unless all of them are left out.
#[cycle(search)]
fn enter(
    walk: &Walk<'_>,
    ranks: &mut Vec<u32>,
    child: &Child,
    tails: &[Tail<'_>],
    later: &[u32],
    slots: &mut Slots,
    best: &mut Best,
) -> Result<(), NoMemory>
    requires rules { IsRanking walk.now.ranked.now }
    requires child { IsChild walk.now.ranked.now ranks.old.items child.now }
    requires left { IsLeft walk.now.ranked.now (ranks.old.items ++ child.now.rank ∷ [])
        (tails_of tails.now) }
    requires later { AreLater walk.now.ranked.now
        (ranks.old.items ++ child.now.rank ∷ []) later.now }
    requires enough { AreEnough best.old walk.now.ranked.now
        (ranks.old.items ++ child.now.rank ∷ []) later.now }
    requires room { slots.old.room ≡ length walk.now.ranked.now.items }
    requires kept { IsKept best.old }
    ensures ranks { OnOk result (ranks.new.items ≡ ranks.old.items) }
    ensures room { slots.new.room ≡ slots.old.room }
    ensures covers { OnOk result (Covers best.old
        (Grows walk.now.ranked.now (ranks.old.items ++ child.now.rank ∷ [])) best.new) }
{
    if is_shut(child, best) {
        return Ok(());
    }
    ranks.push(child.rank)?;
    search(walk, ranks, tails, later, slots, best)?;
    ranks.pop();
    Ok(())
}
