//! The children of a set: the sets with one later rank more that a search offers.

ghost use Rattle.std.specs.Prelude.{◌≡◌, ◌<◌, ◌≤ℤ◌, ◌<ℤ◌, ◌⊎◌, ℕ, true, false, pos, [], ◌∷◌, ◌++◌, ⊤, ◌≤◌, get_or, length, nat_eq, if◌then◌else◌, IfOk, IfSome, OnOk, MatchOption};
ghost use Rattle.std.specs.List.{AllByRecursion, Contains, IsDistinct};
ghost use Rattle.hu_totals.specs.Ranked.{IsRanking};
ghost use Rattle.hu_totals.specs.Cells.{among};
ghost use Rattle.hu_collect.specs.State.{floor_in};
ghost use Rattle.hu_search.specs.declared.child.Child.{Child};
ghost use Rattle.hu_search.specs.Growth.{InTable};
ghost use Rattle.hu_search.specs.Children.{AreChildren, AreEnough, ranks_of};
ghost use Rattle.hu_search.specs.Slots.{at};
ghost use Rattle.hu_list.specs.Passes.{no_sum};
ghost use Rattle.hu_list.specs.View.{tails_of, lists_of};
ghost use Rattle.hu_list.specs.Level.{IsLeft, IsRefused, IsLevel, AreKept, AreChosen, AreGrown, sum_of};

use crate::gains::gains;
use crate::grow::grown;
use crate::sums::{Sum, sums};
use crate::tail::Tail;
use hu_collect::{Collect, Gate};
use hu_kind::NoMemory;
use hu_search::{Child, Slots, best_first, ranks_of};
use hu_totals::Ranked;
use std::alloc::Global;

/// What stays the same through a search.
#[derive(Drop)]
pub(crate) struct Walk<'a, G> {
    pub alloc: Global,
    /// The records, by the ranks of their items.
    pub ranked: &'a Ranked,
    /// Sets of so many ranks aren't entered.
    pub long: u32,
    /// What says which ranks may stand beside one another.
    pub gate: &'a G,
}

/// What a search keeps for ranks, at whatever depth.
#[derive(Drop)]
pub(crate) struct Board {
    /// The ranks by which the set of the moment may grow.
    pub kept: Slots,
    /// The ranks at its tails, or those of the children to be entered.
    pub found: Slots,
}

/// The children of a set over its tails, where the board keeps ranks that are enough to grow it. A kept rank has none where the
/// gate refuses it beside the set's last rank, or where the tails that hold it can't give the floor. It passes over the cells
/// twice, and once more backward for the ranks that stay.
pub(crate) fn children<C: Collect, G: Gate>(
    walk: &Walk<'_, G>,
    ranks: &[u32],
    tails: &[Tail<'_>],
    board: &mut Board,
    collect: &C,
) -> Result<Vec<Child>, NoMemory>
    requires rules { IsRanking walk.now.ranked.now }
    requires table { InTable walk.now.ranked.now ranks.now }
    requires left { IsLeft walk.now.ranked.now ranks.now (tails_of tails.now) }
    requires enough { AreEnough
        (C.state collect.now) walk.now.ranked.now ranks.now board.old.kept.ranks }
    requires floor { G.floor walk.now.gate.now ≤ℤ floor_in (C.state collect.now) }
    requires right { G.IsRightFor walk.now.gate.now walk.now.ranked.now.records }
    requires kept_room { board.old.kept.room ≡ length walk.now.ranked.now.items }
    requires found_room { board.old.found.room ≡ length walk.now.ranked.now.items }
    ensures kept_room { board.new.kept.room ≡ board.old.kept.room }
    ensures found_room { board.new.found.room ≡ board.old.found.room }
    ensures level { IfOk result
        (λ children. IsLevel (C.state collect.now) walk.now.ranked.now ranks.now children.items) }
{
    let Walk { alloc, gate, .. } = *walk;
    let floor = collect.floor();
    let gains = gains(alloc, tails, &board.kept, &mut board.found)?;
    keep_reaching(
        &board.found,
        &gains,
        floor,
        last_of(ranks),
        gate,
        &mut board.kept,
    )?;
    let sums = sums(alloc, tails, &board.kept)?;
    children_of(alloc, board.kept.ranks(), &sums)
}

/// The last of some ranks.
fn last_of(ranks: &[u32]) -> Option<u32>
    ensures { IfSome result (Contains ranks.now) }
{
    ranks.last().copied()
}

/// Keeps the ranks whose gain reaches a floor and which the gate lets stand beside a last rank.
fn keep_reaching<G: Gate>(
    found: &Slots,
    gains: &[i128],
    floor: i128,
    last: Option<u32>,
    gate: &G,
    kept: &mut Slots,
) -> Result<(), NoMemory>
    requires len { length gains.now ≡ length found.now.ranks }
    requires room { kept.old.room ≡ found.now.room }
    requires least { pos 1 ≤ℤ floor }
    requires later { (z : ℕ) → pos 1 ≤ℤ at (pos 0) found.now.ranks gains.now z
        → MatchOption last ⊤ (λ a. a < z) }
    ensures room { kept.new.room ≡ kept.old.room }
    ensures kept { OnOk result (AreKept (G.IsRightFor gate.now) (G.floor gate.now) floor last
        (at (pos 0) found.now.ranks gains.now) found.now.ranks kept.new.ranks) }
{
    kept.clear();
    let ranks = found.ranks();
    for slot in 0..ranks.len() {
        let stays = stays(gains[slot], floor, last, ranks[slot], gate);
        push_if(kept, ranks[slot], stays)?;
    }
    Ok(())
}

/// Whether a gain reaches a floor and the gate lets a rank stand beside a last one.
fn stays<G: Gate>(gain: i128, floor: i128, last: Option<u32>, rank: u32, gate: &G) -> bool
    requires later { floor ≤ℤ gain → MatchOption last ⊤ (λ a. a < rank) }
    ensures yes { result ≡ true → floor ≤ℤ gain }
    ensures no { result ≡ false → (gain <ℤ floor) ⊎ IsRefused (G.IsRightFor gate.now)
        (G.floor gate.now) last rank }
{
    if gain < floor {
        return false;
    }
    match last {
        Some(last) => gate.may_join(last, rank),
        None => true,
    }
}

/// Gives a rank a slot, where that is asked.
fn push_if(slots: &mut Slots, rank: u32, asked: bool) -> Result<(), NoMemory>
    requires within { rank < slots.old.room }
    requires fresh { among rank slots.old.ranks ≡ false }
    ensures room { slots.new.room ≡ slots.old.room }
    ensures ranks { OnOk result
        (slots.new.ranks ≡ slots.old.ranks ++ (if asked then rank ∷ [] else [])) }
{
    if asked {
        slots.push(rank)?;
    }
    Ok(())
}

/// The children with these ranks and sums.
fn children_of(alloc: Global, ranks: &[u32], sums: &[Sum]) -> Result<Vec<Child>, NoMemory>
    requires len { length sums.now ≡ length ranks.now }
    requires once { IsDistinct nat_eq ranks.now }
    ensures ranks { IfOk result (λ children. ranks_of children.items ≡ ranks.now) }
    ensures sums { IfOk result
        (λ children. AllByRecursion (λ child. sum_of child
        ≡ at no_sum ranks.now sums.now child.rank) children.items) }
{
    let mut children = Vec::with_capacity(alloc, ranks.len())?;
    for slot in 0..ranks.len() {
        children.push(sums[slot].child(ranks[slot]))?;
    }
    Ok(children)
}

/// The children whose bound reaches a floor, best bound first.
pub(crate) fn chosen(
    alloc: Global,
    mut children: Vec<Child>,
    floor: i128,
) -> Result<Vec<Child>, NoMemory>
    requires once { IsDistinct nat_eq (ranks_of children.items) }
    ensures { IfOk result (λ chosen. AreChosen floor children.items chosen.items) }
{
    best_first(&mut children);
    let count = reaching(&children, floor);
    Ok(children[..count].to_vec(alloc)?)
}

/// How many children stand before the first whose bound is below a floor.
fn reaching(children: &[Child], floor: i128) -> usize
    ensures within { result ≤ length children.now }
    ensures cut { (d : Child) → result < length children.now
        → (get_or children.now result d).bound <ℤ floor }
{
    for (at, child) in children.iter().enumerate() {
        if child.bound < floor {
            return at;
        }
    }
    children.len()
}

/// For each child to be entered the tails of its set, where cells are left. It passes once over the cells, if there are children.
pub(crate) fn grown_by<'a>(
    alloc: Global,
    ranked: &Ranked,
    ranks: &[u32],
    tails: &[Tail<'a>],
    chosen: &[Child],
    found: &mut Slots,
) -> Result<Vec<Vec<Tail<'a>>>, NoMemory>
    requires left { IsLeft ranked.now ranks.now (tails_of tails.now) }
    requires children { AreChildren ranked.now ranks.now chosen.now }
    requires once { IsDistinct nat_eq (ranks_of chosen.now) }
    requires room { found.old.room ≡ length ranked.now.items }
    ensures room { found.new.room ≡ found.old.room }
    ensures len { IfOk result (λ lists. length lists.items ≡ length chosen.now) }
    ensures lists { IfOk result
        (λ lists. AreGrown ranked.now ranks.now chosen.now (lists_of lists.items)) }
{
    if chosen.is_empty() {
        return Ok(Vec::new(alloc));
    }
    let ranks = ranks_of(alloc, chosen)?;
    found.fill(&ranks)?;
    grown(alloc, tails, found)
}
