//! The collector of all entries, or of the first k.

ghost use Rattle.std.specs.Prelude.{◌≡◌, ◌≤◌, pos, ◌≤ℤ◌, true, IfOk, IfSome};
ghost use Rattle.hu_collect.specs.State.{fresh};

use crate::all::All;
use crate::collect::Collect;
use crate::top::Top;
use hu_kind::{Entry, Key, NoMemory};
use std::alloc::Global;

/// Keeps the entries of at least a start, whatever their keys: all of them, or the first k.
#[derive(Debug, Drop)]
pub enum Limited {
    /// All of them.
    All(All),
    /// The first k.
    First(Top),
}

impl Limited {
    /// An empty collector of the first `top` entries, or of all of them. It takes no memory.
    pub fn new(alloc: Global, top: Option<u32>, start: i128) -> Limited
        requires some { IfSome top (λ k. 1 ≤ k) }
        requires least { pos 1 ≤ℤ start }
        ensures { ⟦<Limited as Collect>⟧.state result ≡ fresh start top }
    {
        match top {
            None => Limited::All(All::new(alloc, start)),
            Some(k) => Limited::First(Top::new(alloc, k, start)),
        }
    }

    /// The entries in the one order. Want of memory drops them.
    pub fn into_entries(self) -> Result<Vec<Entry>, NoMemory>
        ensures { IfOk result (λ entries. entries.items ≡ (⟦<Limited as Collect>⟧.state self).content) }
    {
        match self {
            Limited::All(all) => all.into_entries(),
            Limited::First(top) => top.into_entries(),
        }
    }
}

impl Collect for Limited {
    ghost use Rattle.std.specs.Prelude.{false};
    ghost use Rattle.hu_collect.specs.Limited.{limited_state};

    ghost state = { limited_state };

    ghost shuts = { λ _ _ _. false };

    fn floor(&self) -> i128 {
        match self {
            Limited::All(all) => all.floor(),
            Limited::First(top) => top.floor(),
        }
    }

    /// Always true.
    fn opens(&self, _key: &Key, _last: u32) -> bool
        ensures { result ≡ true }
    {
        true
    }

    fn offer(&mut self, entry: Entry) -> Result<(), NoMemory> {
        match self {
            Limited::All(all) => all.offer(entry),
            Limited::First(top) => top.offer(entry),
        }
    }
}
