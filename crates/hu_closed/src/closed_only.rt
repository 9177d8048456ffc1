//! The collector of closed patterns.

ghost use Rattle.std.specs.Prelude.{◌≡◌, ◌⊎◌, ◌∷◌, [], true, false, Some, not, ◌||◌};
ghost use Rattle.hu_collect.specs.Ranks.{CanOpen, IsShut, RestsOn};
ghost use Rattle.hu_collect.specs.State.{offered};
ghost use Rattle.hu_closed.specs.Keys.{closes_below, is_closed_key};
ghost use Rattle.hu_closed.specs.ClosedOnly.{closed_state, inner_of, records_in, table_of, IsRankingOf, MakesClosed};

use crate::sets::RecordSets;
use hu_collect::Collect;
use hu_kind::{Entry, Key, NoMemory};
use hu_totals::Ranked;
use std::marker::Model;

/// A collector around another one: it wants the closed keys that the inner one wants, and rests on a table of ranks. It
/// is seen as the inner one, the records of its sets and the item of each rank.
#[derive(Drop)]
pub struct ClosedOnly<'a, C: Collect> {
    inner: C,
    sets: &'a RecordSets,
    ranked: &'a Ranked,
}

impl<'a, C: Collect> Model for ClosedOnly<'a, C> {
    ghost use Rattle.std.specs.Prelude.{List, ℕ, ℤ};
    ghost use Rattle.hu_closed.specs.ClosedOnly.{AreOfOne};

    ghost Value = { C × List (List (ℕ × ℤ)) × List ℕ };

    ghost view = { λ c. (c.inner, c.sets.now, c.ranked.now.items) };

    ghost invariant = { λ c. AreOfOne (C.state c.inner).rule.table c.sets.now c.ranked.now };
}

impl<'a, C: Collect> ClosedOnly<'a, C> {
    /// The collector of closed patterns around another one. `sets` and `ranked` are of one base, and the inner one rests
    /// on this `ranked` where it rests on one. It takes no memory.
    pub fn new(inner: C, sets: &'a RecordSets, ranked: &'a Ranked) -> ClosedOnly<'a, C>
        requires base { IsRankingOf sets.now ranked.now }
        requires rests { RestsOn (C.state inner).rule.table ranked.now.items }
        ensures state { ⟦<ClosedOnly<'a, C> as Collect>⟧.state result
            ≡ closed_state (C.state inner) sets.now ranked.now.items }
        ensures inner { inner_of result ≡ inner }
        ensures records { records_in result ≡ sets.now }
        ensures table { table_of result ≡ ranked.now.items }
        ensures patterns { MakesClosed sets.now ranked.now.items (C.state inner) }
    {
        sets.tell_rules();
        ClosedOnly {
            inner,
            sets,
            ranked,
        }
    }

    /// The inner collector, with all that it keeps.
    pub fn into_inner(self) -> C
        ensures inner { result ≡ inner_of self.entry }
        ensures state { ⟦<ClosedOnly<'a, C> as Collect>⟧.state self.entry
            ≡ closed_state (C.state result) (records_in self.entry) (table_of self.entry) }
    {
        self.inner
    }

    /// Whether an entry may change the content: it is not below the floor, and its key is closed.
    fn lets_in(&self, entry: &Entry) -> bool
        ensures passes { result ≡ true → is_closed_key (records_in self.now) entry.now.key ≡ true }
        ensures leaves { result ≡ false → offered (⟦<ClosedOnly<'a, C> as Collect>⟧.state self.now)
            (entry.now ∷ []) ≡ ⟦<ClosedOnly<'a, C> as Collect>⟧.state self.now }
    {
        entry.utility >= self.inner.floor() && self.sets.is_closed(&entry.key)
    }
}

impl<'a, C: Collect> Collect for ClosedOnly<'a, C> {
    ghost use Rattle.std.specs.Prelude.{◌||◌};
    ghost use Rattle.hu_closed.specs.Keys.{closes_below};
    ghost use Rattle.hu_closed.specs.ClosedOnly.{closed_state, inner_of, records_in, table_of};

    ghost state = { λ c. closed_state (C.state (inner_of c)) (records_in c) (table_of c) };

    ghost shuts = { λ c key last. C.shuts (inner_of c) key last
        || closes_below (records_in c) (table_of c) key last };

    /// The inner collector's floor.
    fn floor(&self) -> i128 {
        self.inner.floor()
    }

    /// False where an item of a rank below `last`, outside the key, stands in every record that holds the key, or where
    /// the inner collector doesn't open the key. Only the items of the first record that holds the key are tried.
    fn opens(&self, key: &Key, last: u32) -> bool
        requires { CanOpen (Some (table_of self.now)) key.now last }
        ensures exact { result ≡ not (C.shuts (inner_of self.now) key.now last
            || closes_below (records_in self.now) (table_of self.now) key.now last) }
        ensures cause { result ≡ false → (closes_below (records_in self.now) (table_of self.now) key.now last ≡ true)
            ⊎ IsShut (C.state (inner_of self.now)).rule key.now last }
        ensures grown { result ≡ false → IsShut (⟦<ClosedOnly<'a, C> as Collect>⟧.state self.now).rule key.now
            last }
    {
        self.inner.opens(key, last) && !self.sets.closes_below(self.ranked, key, last)
    }

    /// An entry below the floor is left out before its key is looked at, in constant time; else it takes the time of
    /// `is_closed` and of the inner offer.
    fn offer(&mut self, entry: Entry) -> Result<(), NoMemory> {
        if self.lets_in(&entry) {
            self.inner.offer(entry)
        } else {
            Ok(())
        }
    }
}
