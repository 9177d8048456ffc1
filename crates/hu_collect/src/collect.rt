//! What a search offers its entries to.

ghost use Rattle.std.specs.Prelude.{◌≡◌, ◌∷◌, [], ℕ, ℤ, pos, ◌≤ℤ◌, Bool, not, false, List};
ghost use Rattle.hu_collect.specs.State.{State, floor_in, IsInOrder, Takes};
ghost use Rattle.hu_collect.specs.Ranks.{CanOpen, IsShut};

use hu_kind::{Entry, Key, NoMemory};

/// A collector of entries. Its state is a rule (a start, a limit, the keys that it wants and, where it rests on one, a
/// table of ranks), which no offer changes, and a content.
pub trait Collect {
    ghost state: { Self → State };

    // Whether a key is left out with all that grows out of it, as `opens` answers.
    ghost shuts: { Self → List ℤ → ℕ → Bool };

    /// The floor, at least 1: an entry of less utility changes nothing. It is the start until the limit is reached, then
    /// the greater of the start and the last entry's utility. It never falls.
    fn floor(&self) -> i128
        ensures value { result ≡ floor_in (state self.now) }
        ensures least { pos 1 ≤ℤ result }
        ensures in_order { IsInOrder (state self.now) };

    /// Whether to search on from a key whose greatest rank is `last`. It is false only where no key is wanted that is
    /// this one or, with a table, this one with items of greater ranks, or with none, this one with any further numbers.
    fn opens(&self, key: &Key, last: u32) -> bool
        requires { CanOpen (state self.now).rule.table key.now last }
        ensures answer { result ≡ not (shuts self.now key.now last) }
        ensures law { result ≡ false → IsShut (state self.now).rule key.now last };

    /// Takes an entry, if its key is wanted and its utility is at least the start: it is put in by the one order, an
    /// equal one once, and what is past the limit goes. After want of memory all is as before.
    fn offer(&mut self, entry: Entry) -> Result<(), NoMemory>
        ensures { Takes (state self.old) (entry ∷ []) (state self.new) result };
}
