//! What searches over ranks offer to a collector, and what they ask of it.

ghost use Rattle.std.specs.Prelude.{◌≡◌, false, [], ◌∷◌, ◌++◌, IfOk};
ghost use Rattle.hu_kind.specs.Order.{Ascend};
ghost use Rattle.hu_totals.specs.Ranked.{IsRanking};
ghost use Rattle.hu_collect.specs.Ranks.{RestsOn};
ghost use Rattle.hu_collect.specs.State.{IsInOrder, Takes, Searches};
ghost use Rattle.hu_search.specs.Growth.{rank_entry, InTable};
ghost use Rattle.hu_search.specs.Children.{IsChild, AreChildren, IsOneOf, IsBarren, ranks_of};

use crate::child::Child;
use crate::key::key_of;
use hu_collect::Collect;
use hu_kind::{Entry, NoMemory};
use hu_totals::Ranked;
use std::alloc::Global;

/// Offers the children of a set that reach the floor of the moment. No key is built for the others, which would change
/// nothing. After want of memory some were offered.
pub fn offer_children<C: Collect>(
    alloc: Global,
    ranked: &Ranked,
    ranks: &[u32],
    children: &[Child],
    collect: &mut C,
) -> Result<(), NoMemory>
    requires rules { IsRanking ranked.now }
    requires children { AreChildren ranked.now ranks.now children.now }
    requires ordered { IsInOrder (C.state collect.old) }
    ensures { Searches (C.state collect.old) (IsOneOf ranked.now ranks.now (ranks_of children.now))
        (C.state collect.new) result }
{
    for child in children {
        offer_child(alloc, ranked, ranks, child, collect)?;
    }
    Ok(())
}

/// Offers a child of a set, where it reaches the floor.
fn offer_child<C: Collect>(
    alloc: Global,
    ranked: &Ranked,
    ranks: &[u32],
    child: &Child,
    collect: &mut C,
) -> Result<(), NoMemory>
    requires rules { IsRanking ranked.now }
    requires child { IsChild ranked.now ranks.now child.now }
    ensures { Takes (C.state collect.old) (rank_entry ranked.now (ranks.now ++ child.now.rank ∷ []) ∷ [])
        (C.state collect.new) result }
{
    if child.utility < collect.floor() {
        return Ok(());
    }
    collect.offer(Entry {
        key: key_of(alloc, ranked, ranks, child.rank)?,
        utility: child.utility,
        support: child.support,
    })
}

/// Whether the collector may want a set with one rank more, or what grows it by later ranks.
pub fn opens<C: Collect>(
    alloc: Global,
    ranked: &Ranked,
    ranks: &[u32],
    rank: u32,
    collect: &C,
) -> Result<bool, NoMemory>
    requires rules { IsRanking ranked.now }
    requires table { InTable ranked.now (ranks.now ++ rank ∷ []) }
    requires ascending { Ascend (ranks.now ++ rank ∷ []) }
    requires rests { RestsOn (C.state collect.now).rule.table ranked.now.items }
    ensures { IfOk result (λ opens. opens ≡ false → IsBarren (C.state collect.now) ranked.now
        (ranks.now ++ rank ∷ [])) }
{
    let key = key_of(alloc, ranked, ranks, rank)?;
    Ok(collect.opens(&key, rank))
}
