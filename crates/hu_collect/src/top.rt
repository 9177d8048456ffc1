//! The collector that keeps the first k entries.

ghost use Rattle.std.specs.Prelude.{◌≡◌, ◌+◌, ◌≤◌, take, pos, ◌≤ℤ◌, true, Some, IfOk};
ghost use Rattle.std.specs.BTreeSet.{btree_set_len};
ghost use Rattle.hu_collect.specs.Rule.{floor_by};
ghost use Rattle.hu_collect.specs.State.{fresh};

use crate::collect::Collect;
use hu_kind::{Entry, Key, NoMemory};
use std::alloc::Global;
use std::collections::BTreeSet;
use std::marker::Model;

/// Keeps the first k of the entries of at least a start, whatever their keys. It is seen as k, its start and its
/// entries in the one order. An entry of just the floor's utility still enters if it comes before the last one.
#[derive(Debug, Drop)]
pub struct Top {
    limit: u32,
    start: i128,
    floor: i128,
    entries: BTreeSet<Entry>,
    alloc: Global,
}

impl Model for Top {
    ghost use Rattle.std.specs.Prelude.{List, ℕ, ℤ, Some};
    ghost use Rattle.hu_kind.specs.declared.entry.Entry.{Entry};
    ghost use Rattle.hu_collect.specs.Rule.{rule_of};
    ghost use Rattle.hu_collect.specs.Top.{IsTop};

    ghost Value = { ℕ × ℤ × List Entry };

    ghost view = { λ t. (t.limit, t.start, t.entries.keys) };

    ghost invariant = { λ t. IsTop (rule_of t.start (Some t.limit)) t.floor t.entries.keys };
}

impl Top {
    /// An empty collector that keeps at most k entries. It takes no memory.
    pub fn new(alloc: Global, k: u32, start: i128) -> Top
        requires some { 1 ≤ k }
        requires least { pos 1 ≤ℤ start }
        ensures { ⟦<Top as Collect>⟧.state result ≡ fresh start (Some k) }
    {
        Top {
            limit: k,
            start,
            floor: start,
            entries: BTreeSet::new(alloc),
            alloc,
        }
    }

    /// The entries in the one order, in k steps. Want of memory drops them.
    pub fn into_entries(self) -> Result<Vec<Entry>, NoMemory>
        ensures { IfOk result (λ entries. entries.items ≡ (⟦<Top as Collect>⟧.state self).content) }
    {
        let Top { entries, alloc, .. } = self;
        Ok(entries.into_iter().collect(alloc)?)
    }
}

impl Collect for Top {
    ghost use Rattle.std.specs.Prelude.{false};
    ghost use Rattle.hu_collect.specs.Limited.{top_state};

    ghost state = { top_state };

    ghost shuts = { λ _ _ _. false };

    /// Takes constant time.
    fn floor(&self) -> i128 {
        self.floor
    }

    /// Always true.
    fn opens(&self, _key: &Key, _last: u32) -> bool
        ensures { result ≡ true }
    {
        true
    }

    /// Takes constant time below the floor, else some log k comparisons.
    fn offer(&mut self, entry: Entry) -> Result<(), NoMemory> {
        if entry.utility < self.floor {
            return Ok(());
        }
        self.entries.insert(entry)?;
        trim(&mut self.entries, self.limit);
        self.floor = floor_over(&self.entries, self.limit, self.start);
        Ok(())
    }
}

/// Takes the last entry out where there is one more than the limit.
fn trim(entries: &mut BTreeSet<Entry>, limit: u32)
    requires { btree_set_len entries.old ≤ limit + 1 }
    ensures { entries.new.keys ≡ take limit entries.old.keys }
{
    if entries.len() > limit as usize {
        entries.pop_last();
    }
}

/// The floor over these entries.
fn floor_over(entries: &BTreeSet<Entry>, limit: u32, start: i128) -> i128
    ensures { result ≡ floor_by (Some limit) start entries.now.keys }
{
    match entries.last() {
        Some(last) if entries.len() >= limit as usize => start.max(last.utility),
        _ => start,
    }
}
