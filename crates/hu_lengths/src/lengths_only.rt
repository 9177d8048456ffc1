//! The collector of keys of some lengths.

ghost use Rattle.std.specs.Prelude.{◌≡◌, ◌≤◌, ◌<◌, ◌⊎◌, length, true, false, not, ◌||◌, nat_lt};
ghost use Rattle.hu_collect.specs.Ranks.{CanOpen, IsShut};
ghost use Rattle.hu_lengths.specs.Lengths.{has_length};
ghost use Rattle.hu_lengths.specs.LengthsOnly.{sized_state, sized_in, inner_of, short_of, long_of, Leaves, MakesSized};

use hu_collect::Collect;
use hu_kind::{Entry, Key, NoMemory};
use std::marker::Model;

/// A collector around another one: it wants the keys of some lengths that the inner one wants. All else is the inner one's. It
/// is seen as the inner one, the least and the greatest length.
#[derive(Drop)]
pub struct LengthsOnly<C: Collect> {
    inner: C,
    short: u32,
    long: u32,
}

impl<C: Collect> Model for LengthsOnly<C> {
    ghost use Rattle.std.specs.Prelude.{ℕ};

    ghost Value = { C × ℕ × ℕ };

    ghost view = { λ c. (c.inner, c.short, c.long) };
}

impl<C: Collect> LengthsOnly<C> {
    /// The collector of keys of `short` to `long` numbers around another one. It takes no memory.
    pub fn new(inner: C, short: u32, long: u32) -> LengthsOnly<C>
        requires some { 1 ≤ short }
        requires range { short ≤ long }
        requires few { long ≤ 4096 }
        ensures state { sized_in C.state result ≡ sized_state short long (C.state inner) }
        ensures inner { inner_of result ≡ inner }
        ensures short { short_of result ≡ short }
        ensures long { long_of result ≡ long }
        ensures patterns { MakesSized short long (C.state inner) }
    {
        LengthsOnly::around(inner, short, long)
    }

    /// The same for any two lengths.
    pub(crate) fn around(inner: C, short: u32, long: u32) -> LengthsOnly<C>
        ensures state { sized_in C.state result ≡ sized_state short long (C.state inner) }
        ensures inner { inner_of result ≡ inner }
        ensures short { short_of result ≡ short }
        ensures long { long_of result ≡ long }
    {
        LengthsOnly { inner, short, long }
    }

    /// The greatest length.
    pub(crate) fn long(&self) -> u32
        ensures { result ≡ long_of self.now }
    {
        self.long
    }

    /// The inner collector, with all that it keeps.
    pub fn into_inner(self) -> C
        ensures inner { result ≡ inner_of self }
        ensures state { sized_in C.state self
            ≡ sized_state (short_of self) (long_of self) (C.state result) }
    {
        self.inner
    }

    /// Whether an entry may change the content: it is not below the floor, and its key has a wanted length.
    fn lets_in(&self, entry: &Entry) -> bool
        ensures passes { result ≡ true
            → has_length (short_of self.now) (long_of self.now) entry.now.key ≡ true }
        ensures leaves { result ≡ false → Leaves (sized_in C.state self.now) entry.now }
    {
        entry.utility >= self.inner.floor() && self.has_length(&entry.key)
    }

    /// Whether a key has a wanted length.
    fn has_length(&self, key: &Key) -> bool
        ensures { result ≡ has_length (short_of self.now) (long_of self.now) key.now }
    {
        let count = key.numbers().len();
        self.short as usize <= count && count <= self.long as usize
    }
}

impl<C: Collect> Collect for LengthsOnly<C> {
    ghost use Rattle.std.specs.Prelude.{◌||◌, length, nat_lt};
    ghost use Rattle.hu_lengths.specs.LengthsOnly.{sized_in, inner_of, long_of};

    ghost state = { sized_in C.state };

    ghost shuts = { λ c key last. C.shuts (inner_of c) key last || nat_lt (long_of c) (length key) };

    /// The inner collector's floor.
    fn floor(&self) -> i128 {
        self.inner.floor()
    }

    /// False where the key has more numbers than are wanted, or where the inner collector doesn't open it.
    fn opens(&self, key: &Key, last: u32) -> bool
        requires { CanOpen (C.state (inner_of self.now)).rule.table key.now last }
        ensures exact { result ≡ not (C.shuts (inner_of self.now) key.now last
            || nat_lt (long_of self.now) (length key.now)) }
        ensures cause { result ≡ false → (long_of self.now < length key.now)
            ⊎ IsShut (C.state (inner_of self.now)).rule key.now last }
        ensures grown { result ≡ false → IsShut (sized_in C.state self.now).rule key.now last }
    {
        key.numbers().len() <= self.long as usize && self.inner.opens(key, last)
    }

    /// An entry below the floor or of another length is left out in constant time; else it takes the time of the inner offer.
    fn offer(&mut self, entry: Entry) -> Result<(), NoMemory> {
        if self.lets_in(&entry) {
            self.inner.offer(entry)
        } else {
            Ok(())
        }
    }
}
