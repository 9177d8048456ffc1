//! Entries by their keys.

ghost use Rattle.std.specs.Prelude.{◌≡◌, OnOk, IfOk, map};
ghost use Rattle.std.specs.List.{IsDistinct};
ghost use Rattle.std.specs.Ordering.{int_eq};
ghost use lib.Pointwise.{pointwise};
ghost use Rattle.hu_kept.specs.Entries.{entry_from, entries_from, held_of};

use hu_kind::{Entry, Key, NoMemory};
use indexmap::IndexMap;
use std::alloc::Global;

/// What an answer tells of a key.
#[derive(Clone, Copy, Debug, PartialEq, Eq)]
pub(crate) struct Held {
    pub(crate) utility: i128,
    pub(crate) support: u64,
}

impl Held {
    /// What an entry tells of its key.
    fn of(entry: &Entry) -> Held
        ensures { result ≡ held_of entry.now }
    {
        Held {
            utility: entry.utility,
            support: entry.support,
        }
    }

    /// An entry with a copy of a key.
    pub(crate) fn entry(&self, alloc: Global, key: &Key) -> Result<Entry, NoMemory>
        ensures { IfOk result (λ entry. entry ≡ entry_from (key.now, self.now)) }
    {
        Ok(Entry {
            key: key.copy_in(alloc)?,
            utility: self.utility,
            support: self.support,
        })
    }
}

/// Entries by their keys, in their order, each key once.
pub(crate) fn by_key(alloc: Global, entries: Vec<Entry>) -> Result<IndexMap<Key, Held>, NoMemory>
    requires { IsDistinct (pointwise int_eq) (map (λ e. e.key) entries.items) }
    ensures { IfOk result (λ held. entries_from held.entries ≡ entries.items) }
{
    let mut held = IndexMap::new(alloc);
    for entry in entries {
        let one = Held::of(&entry);
        held.insert(entry.key, one)?;
    }
    Ok(held)
}

/// Copies of the entries, in their order.
pub(crate) fn copies(alloc: Global, held: &IndexMap<Key, Held>) -> Result<Vec<Entry>, NoMemory>
    ensures { IfOk result (λ entries. entries.items ≡ entries_from held.now.entries) }
{
    let mut entries = Vec::new(alloc);
    for (key, one) in held.iter() {
        entries.push(one.entry(alloc, key)?)?;
    }
    Ok(entries)
}
