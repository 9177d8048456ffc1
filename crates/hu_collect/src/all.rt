//! The collector that keeps all entries.

ghost use Rattle.std.specs.Prelude.{◌≡◌, pos, ◌≤ℤ◌, true, None, IfOk};
ghost use Rattle.hu_kind.specs.Order.{entry_cmp, ranking};
ghost use Rattle.hu_collect.specs.State.{fresh};

use crate::collect::Collect;
use hu_kind::{Entry, Key, NoMemory};
use std::alloc::Global;
use std::marker::Model;

/// Keeps every entry of at least a start, whatever its key. It is seen as its start and its entries in the one order.
/// It holds each offer until the end, so an entry that is offered twice takes its room twice until then.
#[derive(Debug, Drop)]
pub struct All {
    start: i128,
    offered: Vec<Entry>,
}

impl Model for All {
    ghost use Rattle.std.specs.Prelude.{List, ℤ, pos, ◌≤ℤ◌};
    ghost use Rattle.hu_kind.specs.declared.entry.Entry.{Entry};
    ghost use Rattle.hu_kind.specs.Order.{entry_cmp, ranking};

    ghost Value = { ℤ × List Entry };

    ghost view = { λ a. (a.start, ranking entry_cmp a.offered.items) };

    ghost invariant = { λ a. pos 1 ≤ℤ a.start };
}

impl All {
    /// An empty collector without a limit. It takes no memory.
    pub fn new(alloc: Global, start: i128) -> All
        requires { pos 1 ≤ℤ start }
        ensures { ⟦<All as Collect>⟧.state result ≡ fresh start None }
    {
        All {
            start,
            offered: Vec::new(alloc),
        }
    }

    /// The entries in the one order, by one sort in place of all that were taken. It takes no memory.
    pub fn into_entries(self) -> Result<Vec<Entry>, NoMemory>
        ensures { IfOk result (λ entries. entries.items ≡ (⟦<All as Collect>⟧.state self).content) }
    {
        let All {
            offered: mut entries,
            ..
        } = self;
        rank(&mut entries);
        Ok(entries)
    }
}

impl Collect for All {
    ghost use Rattle.std.specs.Prelude.{false};
    ghost use Rattle.hu_collect.specs.Limited.{all_state};

    ghost state = { all_state };

    ghost shuts = { λ _ _ _. false };

    /// The start, in constant time.
    fn floor(&self) -> i128 {
        self.start
    }

    /// Always true.
    fn opens(&self, _key: &Key, _last: u32) -> bool
        ensures { result ≡ true }
    {
        true
    }

    /// Takes constant time, amortised.
    fn offer(&mut self, entry: Entry) -> Result<(), NoMemory> {
        if entry.utility >= self.start {
            self.offered.push(entry)?;
        }
        Ok(())
    }
}

/// Puts entries in the one order, each once.
fn rank(entries: &mut Vec<Entry>)
    ensures { entries.new.items ≡ ranking entry_cmp entries.old.items }
{
    entries.sort_unstable();
    entries.dedup();
}
