//! A keeper in memory, of which chosen calls fail.

ghost use Rattle.std.specs.Prelude.{◌≡◌, ℕ, ◌-◌, ◌≤◌, List, min, true, false, take, drop, Err, length, is_err, IfOk, OnOk, OnErr, IsOkUnless};
ghost use Rattle.std.specs.Io.{ReadsAtMost};
ghost use Rattle.hu_io.specs.Plan.{listing, next_fails};
ghost use Rattle.hu_shelf.specs.Keeper.{Loads, Replaces, with_text};
ghost use Rattle.hu_shelf.specs.MemoryKeeper.{AfterReplace, after_load, bytes_loaded, empty_keeper, keeper_faults, keeper_state, texts_of};

use crate::keeper::{KeepFault, Keeper};
use hu_io::Failed;
use hu_kind::NoMemory;
use std::alloc::Global;
use std::collections::BTreeMap;
use std::marker::Model;

/// Texts in memory. A call fails where its number was given to `fail_at`, and a `replace` also for want of memory.
#[derive(Drop)]
pub struct MemoryKeeper {
    alloc: Global,
    texts: BTreeMap<String, Vec<u8>>,
    failing: Vec<u64>,
    calls: u64,
    failed: u64,
}

impl Model for MemoryKeeper {
    ghost use Rattle.std.specs.Prelude.{◌≡◌, [], map};
    ghost use Rattle.std.specs.String.{string_bytes};
    ghost use Rattle.hu_shelf.specs.MemoryKeeper.{KeeperView};

    ghost Value = { KeeperView };

    ghost view = { λ m. record {
      pairs = map (λ e. (string_bytes e.0, e.1.items)) m.texts.entries;
      plan = record { failing = m.failing.items; calls = m.calls };
      failed = m.failed;
    } };

    ghost invariant = { λ m. m.failing.items ≡ [] → m.failed ≡ 0 };
}

impl MemoryKeeper {
    /// No text, no call that is to fail, and the count 0. It takes no memory.
    pub fn new(alloc: Global) -> MemoryKeeper
        ensures { result ≡ empty_keeper }
    {
        MemoryKeeper {
            alloc,
            texts: BTreeMap::new(alloc),
            failing: Vec::new(alloc),
            calls: 0,
            failed: 0,
        }
    }

    /// Has the call of `load` or `replace` with this number fail, where calls of both count together, from 1. The count
    /// doesn't change.
    pub fn fail_at(&mut self, call: u64) -> Result<(), NoMemory>
        ensures ok { OnOk result
            (self.new ≡ record self.old { plan = listing call self.old.plan }) }
        ensures count { keeper_faults self.new ≡ keeper_faults self.old }
        ensures err { OnErr result (self.new ≡ self.old) }
    {
        self.failing.push(call)?;
        Ok(())
    }

    /// The text of `name`, which is empty where none was put there.
    pub fn content(&self, name: &str) -> &[u8]
        ensures { result.now ≡ texts_of self.now name.now }
    {
        match self.texts.get(name) {
            Some(text) => text.as_slice(),
            None => &[],
        }
    }

    /// How many calls failed, at most 2^64 - 1.
    pub fn faults(&self) -> u64
        ensures { result ≡ keeper_faults self.now }
    {
        self.failed
    }

    /// Counts a call, and a fault where it is to fail; answers whether it is.
    fn next_fails(&mut self) -> bool
        ensures fails { result ≡ next_fails self.old.plan }
        ensures after { self.new ≡ after_load self.old }
        ensures later { keeper_faults self.old ≤ keeper_faults self.new }
    {
        self.calls = self.calls.saturating_add(1);
        let fails = self.failing.contains(&self.calls);
        if fails {
            self.failed = self.failed.saturating_add(1);
        }
        fails
    }

    /// Puts a text under a name.
    fn put(&mut self, name: &str, text: &[u8]) -> Result<(), NoMemory>
        ensures texts { OnOk result
            (texts_of self.new ≡ with_text name.now text.now (texts_of self.old)) }
        ensures rest { OnOk result (self.new ≡ record self.old { pairs = self.new.pairs }) }
        ensures err { OnErr result (self.new ≡ self.old) }
    {
        let name = String::from_str(self.alloc, name)?;
        let text = Vec::from_slice(self.alloc, text)?;
        self.texts.insert(name, text)?;
        Ok(())
    }
}

impl Keeper for MemoryKeeper {
    ghost state = { keeper_state };

    /// Compares the call with each that is to fail, and the name as often as the number of names doubles.
    fn load(&mut self, name: &str, at: u64, into: &mut [u8]) -> Result<usize, Failed>
        ensures bound { ReadsAtMost result into.new }
        ensures loads { Loads (keeper_state self.old) (keeper_state self.new)
            name.now at into.new result }
        ensures fails { is_err result ≡ next_fails self.old.plan }
        ensures count { IfOk result (λ n. n ≡ bytes_loaded self.old name.now at (length into.new)) }
        ensures after { self.new ≡ after_load self.old }
    {
        if self.next_fails() {
            return Err(Failed);
        }
        Ok(copy_from(self.content(name), at, into))
    }

    /// Copies the name and the text.
    fn replace(&mut self, name: &str, text: &[u8]) -> Result<(), KeepFault>
        ensures replaces { Replaces (keeper_state self.old) (keeper_state self.new)
            name.now text.now result }
        ensures fails { next_fails self.old.plan ≡ true → result ≡ Err KeepFault.Failed }
        ensures memory { next_fails self.old.plan ≡ false → IsOkUnless result KeepFault.NoMemory }
        ensures ok { OnOk result (AfterReplace self.old self.new name.now text.now) }
        ensures err { OnErr result (self.new ≡ after_load self.old) }
    {
        if self.next_fails() {
            return Err(KeepFault::Failed);
        }
        match self.put(name, text) {
            Ok(()) => Ok(()),
            Err(_) => Err(KeepFault::NoMemory),
        }
    }
}

/// Copies what the text has from the place `at` on to the front of `into`, and returns how many bytes: as many as there
/// are and fit.
fn copy_from(text: &[u8], at: u64, into: &mut [u8]) -> usize
    ensures count { result ≡ min (length into.new) (length text.now - at) }
    ensures bytes { take result into.new ≡ take result (drop at text.now) }
{
    let start = text.len().min(at as usize);
    let rest = &text[start..];
    let count = into.len().min(rest.len());
    into[..count].copy_from_slice(&rest[..count]);
    count
}
