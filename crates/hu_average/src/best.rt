//! The collector of the first entries by average.

ghost use Rattle.std.specs.Prelude.{◌≡◌, ◌+◌, ◌≤◌, ◌<◌, [], ◌∷◌, pos, ◌≤ℤ◌, true, length, IfOk, OnOk, IfSome};
ghost use Rattle.std.specs.BTreeSet.{btree_set_len};
ghost use Rattle.std.specs.List.{AllByRecursion};
ghost use Rattle.hu_kind.specs.declared.entry.Entry.{Entry};
ghost use Rattle.hu_kind.specs.Order.{cut};
ghost use Rattle.hu_average.specs.Best.{offered, HasKey, IsKept, IsAtMost, IsLeftOut, IsPastLast};

use crate::by_average::ByAverage;
use crate::order::Average;
use hu_kind::{Entry, NoMemory};
use std::alloc::Global;
use std::cmp::Ordering;
use std::collections::BTreeSet;
use std::marker::Model;

/// Keeps the entries of at least a least average: all of them, or the first k by average.
#[derive(Drop)]
pub(crate) struct Best {
    least: i128,
    top: Option<u32>,
    entries: BTreeSet<ByAverage>,
    alloc: Global,
}

impl Model for Best {
    ghost use Rattle.std.specs.Prelude.{pos, ◌≤ℤ◌};
    ghost use Rattle.hu_average.specs.Best.{BestOf, IsRight};

    ghost Value = { BestOf };

    ghost view = { λ b. record { least = b.least; top = b.top; content = b.entries.keys } };

    ghost invariant = { λ b. IsRight (record { least = b.least; top = b.top; content = b.entries.keys }) };
}

impl Best {
    /// None yet. It takes no memory.
    pub(crate) fn new(alloc: Global, least: i128, top: Option<u32>) -> Best
        requires least { pos 1 ≤ℤ least }
        ensures value { result ≡ record { least = least; top = top; content = [] } }
        ensures kept { IsKept result }
    {
        Best {
            least,
            top,
            entries: BTreeSet::new(alloc),
            alloc,
        }
    }

    /// Whether no entry of at most an average gets in: it doesn't reach the least one, or as many entries are held as are kept and
    /// the last one's average is greater. It takes some log k steps.
    pub(crate) fn leaves_out(&self, average: Average) -> bool
        requires some { 0 < average.count }
        ensures kept { IsKept self.now }
        ensures out { result ≡ true → (e : Entry) → IsAtMost (average.utility, average.count) e
            → IsLeftOut self.now e }
    {
        !average.reaches(self.least) || is_past(&self.entries, self.top, average)
    }

    /// Takes an entry, if it reaches the least average. It takes some log k comparisons.
    pub(crate) fn offer(&mut self, entry: Entry) -> Result<(), NoMemory>
        requires some { 0 < length entry.key }
        ensures { OnOk result (self.new ≡ offered self.old (entry ∷ [])) }
    {
        if !Average::of(&entry).reaches(self.least) {
            return Ok(());
        }
        self.entries.insert(ByAverage::new(entry))?;
        trim(&mut self.entries, self.top);
        Ok(())
    }

    /// Takes entries in turn.
    pub(crate) fn offer_all(&mut self, entries: Vec<Entry>) -> Result<(), NoMemory>
        requires keys { AllByRecursion HasKey entries.items }
        requires kept { IsKept self.old }
        ensures { OnOk result (self.new ≡ offered self.old entries.items) }
    {
        for entry in entries {
            self.offer(entry)?;
        }
        Ok(())
    }

    /// The entries by average. Want of memory drops them.
    pub(crate) fn into_entries(self) -> Result<Vec<Entry>, NoMemory>
        ensures { IfOk result (λ entries. entries.items ≡ self.content) }
    {
        let Best { entries, alloc, .. } = self;
        let mut list = Vec::with_capacity(alloc, entries.len())?;
        for entry in entries {
            list.push(entry.into_entry())?;
        }
        Ok(list)
    }
}

/// Whether as many entries are held as are kept, and the last one's average is greater than another.
fn is_past(entries: &BTreeSet<ByAverage>, top: Option<u32>, average: Average) -> bool
    requires some { 0 < average.count }
    requires earns { pos 1 ≤ℤ average.utility }
    ensures { result ≡ true → IsPastLast top entries.now.keys (average.utility, average.count) }
{
    match (top, entries.last()) {
        (Some(limit), Some(last)) if entries.len() >= limit as usize => {
            average.compare(Average::of(last.entry())) == Ordering::Less
        }
        _ => false,
    }
}

/// Takes the last entry out where there is one more than are kept.
fn trim(entries: &mut BTreeSet<ByAverage>, top: Option<u32>)
    requires { IfSome top (λ k. btree_set_len entries.old ≤ k + 1) }
    ensures { entries.new.keys ≡ cut top entries.old.keys }
{
    if let Some(limit) = top
        && entries.len() > limit as usize
    {
        entries.pop_last();
    }
}
