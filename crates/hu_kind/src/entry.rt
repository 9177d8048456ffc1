//! Entries: the lines of an answer, and the one order in which they stand.

ghost use Rattle.std.specs.Prelude.{◌≡◌, IfOk};

use crate::key::Key;
use crate::memory::NoMemory;
use std::alloc::Global;
use std::cmp::Ordering;

/// A pattern with what it earns and in how many records it stands.
#[derive(Debug, Drop)]
pub struct Entry {
    pub key: Key,
    pub utility: i128,
    pub support: u64,
}

impl Entry {
    /// An equal entry, its key in the allocator that is given.
    pub fn copy_in(&self, alloc: Global) -> Result<Entry, NoMemory>
        ensures { IfOk result (λ entry. entry ≡ self.now) }
    {
        Ok(Entry {
            key: self.key.copy_in(alloc)?,
            utility: self.utility,
            support: self.support,
        })
    }
}

/// Entries are equal where they are equal in all three fields.
impl PartialEq for Entry {
    ghost use Rattle.std.specs.Cmp.{partial_equiv_from_equiv};
    ghost use Rattle.std.proofs.lemmas.Cmp.{eq_by_cmp_equiv};
    ghost use Rattle.std.specs.Ordering.{eq_by_cmp};
    ghost use Rattle.hu_kind.specs.Order.{entry_cmp, entry_cmp_total};

    ghost eq = { eq_by_cmp entry_cmp };

    ghost laws = { partial_equiv_from_equiv (eq_by_cmp_equiv entry_cmp_total) };

    fn eq(&self, other: &Entry) -> bool {
        self.cmp(other) == Ordering::Equal
    }
}

impl Eq for Entry {
    ghost use Rattle.std.proofs.lemmas.Cmp.{eq_by_cmp_equiv};
    ghost use Rattle.hu_kind.specs.Order.{entry_cmp_total};

    ghost laws = { eq_by_cmp_equiv entry_cmp_total };
}

impl PartialOrd for Entry {
    ghost use Rattle.std.specs.Ordering.{as_partial_cmp};
    ghost use Rattle.std.specs.Cmp.{partial_order_from_total};
    ghost use Rattle.hu_kind.specs.Order.{entry_cmp, entry_cmp_total};

    ghost partial_cmp = { as_partial_cmp entry_cmp };

    ghost laws = { partial_order_from_total entry_cmp_total };

    fn partial_cmp(&self, other: &Entry) -> Option<Ordering> {
        Some(self.cmp(other))
    }
}

/// The one order: greater utility first, then the smaller key, then the smaller support.
impl Ord for Entry {
    ghost use Rattle.std.specs.Prelude.{refl};
    ghost use Rattle.hu_kind.specs.Order.{entry_cmp, entry_cmp_total};

    ghost cmp = { entry_cmp };

    ghost total = { entry_cmp_total };

    ghost matches_partial_cmp = { λ _ _. refl };

    ghost matches_eq = { λ _ _. refl };

    #[tactic(auto, unfolding(crate::specs::Order::entry_cmp))]
    fn cmp(&self, other: &Entry) -> Ordering {
        other
            .utility
            .cmp(&self.utility)
            .then_with(|| self.key.numbers().cmp(other.key.numbers()))
            .then_with(|| self.support.cmp(&other.support))
    }
}
