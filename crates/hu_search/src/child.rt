//! The sets with one rank more than a set.

ghost use Rattle.std.specs.Prelude.{◌≡◌, IfOk};
ghost use Rattle.std.specs.List.Sorted.{IsPermutation};
ghost use Rattle.hu_search.specs.Children.{Fall, ranks_of};

use hu_kind::NoMemory;
use std::alloc::Global;

/// A set of a search with one later rank more.
#[derive(Clone, Copy, Debug, PartialEq, Eq)]
pub struct Child {
    /// The rank that is added.
    pub rank: u32,
    /// What the set with it earns.
    pub utility: i128,
    /// How many records hold that.
    pub support: u64,
    /// What sets earn at most that grow it by later ranks.
    pub bound: i128,
}

/// Puts children in the order of their falling bounds, by one sort in place.
pub fn best_first(children: &mut Vec<Child>)
    ensures same { IsPermutation children.old.items children.new.items }
    ensures fall { Fall children.new.items }
{
    children.sort_unstable_by(|a, b| b.bound.cmp(&a.bound));
}

/// The ranks of children, in their order. It takes a step for each.
pub fn ranks_of(alloc: Global, children: &[Child]) -> Result<Vec<u32>, NoMemory>
    ensures { IfOk result (λ ranks. ranks.items ≡ ranks_of children.now) }
{
    let mut ranks = Vec::with_capacity(alloc, children.len())?;
    for child in children {
        ranks.push(child.rank)?;
    }
    Ok(ranks)
}
