//! Entries in the order by average.

ghost use Rattle.std.specs.Prelude.{◌≡◌, ◌<◌, ◌≤ℤ◌, pos, length};

use crate::order::cmp_average;
use hu_kind::Entry;
use std::cmp::Ordering;
use std::marker::Model;

/// An entry that earns something, in its place by average. It is seen as the entry.
#[derive(Drop)]
pub(crate) struct ByAverage {
    entry: Entry,
}

impl Model for ByAverage {
    ghost use Rattle.hu_kind.specs.declared.entry.Entry.{Entry};
    ghost use Rattle.hu_average.specs.Best.{Earns};

    ghost Value = { Entry };

    ghost view = { λ b. b.entry };

    ghost invariant = { λ b. Earns b.entry };
}

impl ByAverage {
    /// An entry with a key that earns something.
    pub(crate) fn new(entry: Entry) -> ByAverage
        requires some { 0 < length entry.key }
        requires earns { pos 1 ≤ℤ entry.utility }
        ensures { result ≡ entry }
    {
        ByAverage { entry }
    }

    /// The entry, lent.
    pub(crate) fn entry(&self) -> &Entry
        ensures value { result.now ≡ self.now }
        ensures some { 0 < length self.now.key }
        ensures earns { pos 1 ≤ℤ self.now.utility }
    {
        &self.entry
    }

    /// The entry.
    pub(crate) fn into_entry(self) -> Entry
        ensures { result ≡ self }
    {
        self.entry
    }
}

impl PartialEq for ByAverage {
    ghost use Rattle.std.specs.Cmp.{partial_equiv_from_equiv};
    ghost use Rattle.std.proofs.lemmas.Cmp.{eq_by_cmp_equiv};
    ghost use Rattle.std.specs.Ordering.{eq_by_cmp};
    ghost use Rattle.hu_average.specs.Order.{average_cmp, average_cmp_total};

    ghost eq = { eq_by_cmp average_cmp };

    ghost laws = { partial_equiv_from_equiv (eq_by_cmp_equiv average_cmp_total) };

    fn eq(&self, other: &ByAverage) -> bool {
        self.cmp(other) == Ordering::Equal
    }
}

impl Eq for ByAverage {
    ghost use Rattle.std.proofs.lemmas.Cmp.{eq_by_cmp_equiv};
    ghost use Rattle.hu_average.specs.Order.{average_cmp_total};

    ghost laws = { eq_by_cmp_equiv average_cmp_total };
}

impl PartialOrd for ByAverage {
    ghost use Rattle.std.specs.Ordering.{as_partial_cmp};
    ghost use Rattle.std.specs.Cmp.{partial_order_from_total};
    ghost use Rattle.hu_average.specs.Order.{average_cmp, average_cmp_total};

    ghost partial_cmp = { as_partial_cmp average_cmp };

    ghost laws = { partial_order_from_total average_cmp_total };

    fn partial_cmp(&self, other: &ByAverage) -> Option<Ordering> {
        Some(self.cmp(other))
    }
}

/// The order by average.
impl Ord for ByAverage {
    ghost use Rattle.std.specs.Prelude.{refl};
    ghost use Rattle.hu_average.specs.Order.{average_cmp, average_cmp_total};

    ghost cmp = { average_cmp };

    ghost total = { average_cmp_total };

    ghost matches_partial_cmp = { λ _ _. refl };

    ghost matches_eq = { λ _ _. refl };

    fn cmp(&self, other: &ByAverage) -> Ordering {
        cmp_average(self.entry(), other.entry())
    }
}
