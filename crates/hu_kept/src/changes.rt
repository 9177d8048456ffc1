//! What an append changed.

ghost use Rattle.std.specs.Prelude.{◌≡◌, option_copied};
ghost use Rattle.hu_kept.specs.Changes.{changes};
ghost use Rattle.hu_kept.specs.Entries.{differs, entries_from, more_in, others_in};

use crate::held::Held;
use hu_kind::Key;
use indexmap::IndexMap;

/// How the answer after an append differs from the one before. Entries are told apart by their keys.
#[derive(Clone, Copy, Debug, PartialEq, Eq)]
pub struct Changes {
    /// How many keys are in the new answer alone.
    pub added: u64,
    /// How many keys are in both with another utility or support.
    pub changed: u64,
    /// How many keys are in the old answer alone.
    pub dropped: u64,
}

impl Changes {
    /// What differs from an old answer to a new one, by a look-up for each entry of both. It takes no memory.
    pub(crate) fn between(old: &IndexMap<Key, Held>, new: &IndexMap<Key, Held>) -> Changes
        ensures { result ≡ changes (entries_from old.now.entries) (entries_from new.now.entries) }
    {
        Changes {
            added: more_keys(old, new),
            changed: other_values(old, new),
            dropped: more_keys(new, old),
        }
    }
}

/// How many entries have keys that another answer has not.
fn more_keys(other: &IndexMap<Key, Held>, entries: &IndexMap<Key, Held>) -> u64
    ensures { result ≡ more_in other.now.entries entries.now.entries }
{
    let more = entries.iter().filter(|entry| !other.contains_key(entry.0));
    more.count() as u64
}

/// How many entries have keys that another answer has with another utility or support.
fn other_values(other: &IndexMap<Key, Held>, entries: &IndexMap<Key, Held>) -> u64
    ensures { result ≡ others_in other.now.entries entries.now.entries }
{
    let others = entries
        .iter()
        .filter(|entry| differs(other.get(entry.0), entry.1));
    others.count() as u64
}

/// Whether there is something held, and it tells another utility or support.
fn differs(other: Option<&Held>, held: &Held) -> bool
    ensures { result ≡ differs (option_copied other.entry) held.now }
{
    match other {
        Some(one) => one != held,
        None => false,
    }
}
