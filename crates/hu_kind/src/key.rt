//! Keys: what tells patterns apart.

ghost use Rattle.std.specs.Prelude.{◌≡◌, [], ◌∷◌, ◌++◌, IfOk, OnOk, OnErr, IsNone, IfSome, IfNone, ◌↔◌};
ghost use Rattle.std.specs.Ordering.{int_eq};
ghost use Rattle.std.specs.Hash as fed;
ghost use lib.Pointwise.{pointwise};
ghost use Rattle.std.proofs.Common.{rules};
ghost use Rattle.std.specs.Cmp.Rules.{comparing, hashing};
ghost use Rattle.hu_kind.specs.Sequence.{closed};

use crate::memory::NoMemory;
use smallvec::SmallVec;
use std::alloc::Global;
use std::hash::{Hash, Hasher};
use std::marker::Model;

/// The key of a pattern: a list of signed numbers. An itemset's key is its items ascending; a sequence's is its
/// itemsets in order, each with its items ascending and followed by -1. Up to eight numbers stand inline.
#[derive(Debug, Drop)]
pub struct Key {
    numbers: SmallVec<i64, 8>,
}

impl Model for Key {
    ghost use Rattle.std.specs.Prelude.{List, ℤ};

    ghost Value = { List ℤ };

    ghost view = { λ k. k.numbers.items };
}

impl Key {
    /// The empty key. It takes no memory.
    pub fn new(alloc: Global) -> Key
        ensures { result ≡ [] }
    {
        Key {
            numbers: SmallVec::new(alloc),
        }
    }

    /// Appends a number, in constant amortised time.
    pub fn push(&mut self, n: i64) -> Result<(), NoMemory>
        ensures ok { OnOk result (self.new ≡ self.old ++ n ∷ []) }
        ensures err { OnErr result (self.new ≡ self.old) }
    {
        self.numbers.push(n)?;
        Ok(())
    }

    /// Ends the last itemset of a sequence's key by -1, if there is one.
    pub fn end_itemset(&mut self) -> Result<(), NoMemory>
        ensures ok { OnOk result (self.new ≡ closed self.old) }
        ensures err { OnErr result (self.new ≡ self.old) }
    {
        if self.numbers.is_empty() {
            return Ok(());
        }
        self.push(-1)
    }

    /// Takes the last number.
    pub fn pop(&mut self) -> Option<i64>
        ensures empty { IsNone result ↔ (self.old ≡ []) }
        ensures last { IfSome result (λ n. self.old ≡ self.new ++ n ∷ []) }
        ensures kept { IfNone result (self.new ≡ self.old) }
    {
        self.numbers.pop()
    }

    /// The numbers of the key.
    pub fn numbers(&self) -> &[i64]
        ensures { result.now ≡ self.now }
    {
        self.numbers.as_slice()
    }

    /// An equal key, in the allocator that is given.
    pub fn copy_in(&self, alloc: Global) -> Result<Key, NoMemory>
        ensures { IfOk result (λ key. key ≡ self.now) }
    {
        Ok(Key {
            numbers: SmallVec::from_slice(alloc, self.numbers.as_slice())?,
        })
    }
}

impl PartialEq for Key {
    ghost eq = { pointwise int_eq };

    ghost laws = { Prim.search (comparing, rules) };

    fn eq(&self, other: &Key) -> bool {
        self.numbers.as_slice() == other.numbers.as_slice()
    }
}

impl Eq for Key {
    ghost laws = { Prim.search (comparing, rules) };
}

impl Hash for Key {
    ghost hash_input = { fed.slice fed.i64 };

    ghost respects_eq = { Prim.search (hashing, rules) };

    fn hash<H: Hasher>(&self, state: &mut H) {
        self.numbers.as_slice().hash(state);
    }
}
