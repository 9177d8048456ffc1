//! The collector of the patterns that a batch touches.

ghost use Rattle.std.specs.Prelude.{◌≡◌, ◌⊎◌, ◌∷◌, [], true, false, not, ◌||◌, ◌==◌};
ghost use Rattle.hu_collect.specs.Ranks.{CanOpen, IsShut};
ghost use Rattle.hu_collect.specs.State.{offered};
ghost use Rattle.hu_closed.specs.Keys.{key_support};
ghost use Rattle.hu_kept.specs.Touched.{batch_in, inner_of, is_touched};

use hu_closed::RecordSets;
use hu_collect::Collect;
use hu_kind::{Entry, Key, NoMemory};
use std::marker::Model;

/// A collector around another one: it wants the keys that the inner one wants and that a record of a batch holds. It is
/// seen as the inner one and the records of the batch.
#[derive(Drop)]
pub(crate) struct Touched<'a, C: Collect> {
    inner: C,
    batch: &'a RecordSets,
}

impl<'a, C: Collect> Model for Touched<'a, C> {
    ghost use Rattle.std.specs.Prelude.{List, ℕ, ℤ};

    ghost Value = { C × List (List (ℕ × ℤ)) };

    ghost view = { λ t. (t.inner, t.batch.now) };
}

impl<'a, C: Collect> Touched<'a, C> {
    /// The collector of what a batch touches around another one. It takes no memory.
    pub(crate) fn new(inner: C, batch: &'a RecordSets) -> Touched<'a, C>
        ensures inner { inner_of result ≡ inner }
        ensures batch { batch_in result ≡ batch.now }
    {
        Touched { inner, batch }
    }

    /// The inner collector, with all that it keeps.
    pub(crate) fn into_inner(self) -> C
        ensures { result ≡ inner_of self.entry }
    {
        self.inner
    }

    /// Whether an entry may change the content: it is not below the floor, and a record of the batch holds its key.
    fn lets_in(&self, entry: &Entry) -> bool
        ensures passes { result ≡ true → is_touched (batch_in self.now) entry.now.key ≡ true }
        ensures leaves { result ≡ false → offered (⟦<Touched<'a, C> as Collect>⟧.state self.now) (entry.now ∷ [])
            ≡ ⟦<Touched<'a, C> as Collect>⟧.state self.now }
    {
        entry.utility >= self.inner.floor() && self.batch.is_held(&entry.key)
    }
}

impl<'a, C: Collect> Collect for Touched<'a, C> {
    ghost use Rattle.std.specs.Prelude.{◌||◌, ◌==◌};
    ghost use Rattle.hu_closed.specs.Keys.{key_support};
    ghost use Rattle.hu_kept.specs.Touched.{batch_in, inner_of, touched_state};

    ghost state = { λ t. touched_state (C.state (inner_of t)) (batch_in t) };

    ghost shuts = { λ t key last. C.shuts (inner_of t) key last || key_support (batch_in t) key == 0 };

    /// The inner collector's floor.
    fn floor(&self) -> i128 {
        self.inner.floor()
    }

    /// False where no record of the batch holds the key, or where the inner collector doesn't open it.
    fn opens(&self, key: &Key, last: u32) -> bool
        requires { CanOpen (C.state (inner_of self.now)).rule.table key.now last }
        ensures exact { result ≡ not (C.shuts (inner_of self.now) key.now last
            || key_support (batch_in self.now) key.now == 0) }
        ensures cause { result ≡ false → (key_support (batch_in self.now) key.now ≡ 0)
            ⊎ IsShut (C.state (inner_of self.now)).rule key.now last }
        ensures grown { result ≡ false → IsShut (⟦<Touched<'a, C> as Collect>⟧.state self.now).rule key.now last }
    {
        self.batch.is_held(key) && self.inner.opens(key, last)
    }

    /// An entry below the floor is left out before its key is looked at.
    fn offer(&mut self, entry: Entry) -> Result<(), NoMemory> {
        if self.lets_in(&entry) {
            self.inner.offer(entry)
        } else {
            Ok(())
        }
    }
}
