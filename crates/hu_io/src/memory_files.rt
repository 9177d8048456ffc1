//! Files in memory, of which chosen calls fail.

ghost use Rattle.std.specs.Prelude.{◌≡◌, ℕ, ◌<◌, Some, List, length, is_err, IfOk, OnOk, OnErr};
ghost use Rattle.std.specs.Io.{ReadsAtMost};
ghost use Rattle.hu_io.specs.Files.{Adds};
ghost use Rattle.hu_io.specs.State.{Gets};
ghost use Rattle.hu_io.specs.Plan.{listing};
ghost use Rattle.hu_io.specs.MemoryFiles.{after_get, all_faults, bytes_given, faults_at, files_state, get_fails, no_files};

use crate::contents::{Contents, copy_from};
use crate::failed::Failed;
use crate::files::Files;
use crate::plan::Plan;
use hu_kind::NoMemory;
use std::alloc::Global;
use std::marker::Model;

/// Files in memory. A call of `get` fails where its number was given to `fail_at`, and at a name that wasn't added.
#[derive(Drop)]
pub struct MemoryFiles {
    contents: Contents,
    plan: Plan,
    planned: u64,
    missing: u64,
    most: usize,
}

impl Model for MemoryFiles {
    ghost use Rattle.std.specs.Prelude.{◌≡◌, ◌<◌, []};
    ghost use Rattle.hu_io.specs.MemoryFiles.{FilesView};

    ghost Value = { FilesView };

    ghost view = { λ m. record { files = m.contents; plan = m.plan; planned = m.planned; missing = m.missing; most = m.most } };

    ghost invariant = { λ m. (m.plan.failing ≡ [] → m.planned ≡ 0) × (0 < m.most) };
}

impl MemoryFiles {
    /// No file, no call that is to fail, and all counts 0.
    pub fn new(alloc: Global) -> MemoryFiles
        ensures { result ≡ no_files }
    {
        MemoryFiles {
            contents: Contents::new(alloc),
            plan: Plan::new(alloc),
            planned: 0,
            missing: 0,
            most: usize::MAX,
        }
    }

    /// Gives the file `name` these bytes, in place of those that it had. No counter changes. Copies the name and the
    /// bytes, and compares the name as often as the number of files doubles.
    pub fn add(&mut self, name: &str, bytes: &[u8]) -> Result<(), NoMemory>
        ensures ok { OnOk result (Adds self.old.files self.new.files name.now bytes.now) }
        ensures rest { self.new ≡ record self.old { files = self.new.files } }
        ensures err { OnErr result (self.new ≡ self.old) }
    {
        self.contents.add(name, bytes)
    }

    /// Has the call of `get` with this number fail, where calls count from 1. No count changes.
    pub fn fail_at(&mut self, call: u64) -> Result<(), NoMemory>
        ensures ok { OnOk result
            (self.new ≡ record self.old { plan = listing call self.old.plan }) }
        ensures counts { (name : List ℕ) → faults_at self.new name ≡ faults_at self.old name }
        ensures err { OnErr result (self.new ≡ self.old) }
    {
        self.plan.fail_at(call)
    }

    /// Has each later call of `get` give at most so many bytes, at least one. Takes no memory.
    pub fn give_at_most(&mut self, most: usize)
        requires { 0 < most }
        ensures { self.new ≡ record self.old { most = most } }
    {
        self.most = most;
    }

    /// How many calls failed, at most 2^64 - 1.
    pub fn faults(&self) -> u64
        ensures { result ≡ all_faults self.now }
    {
        self.planned.saturating_add(self.missing)
    }
}

impl Files for MemoryFiles {
    ghost state = { files_state };

    /// Compares the call with each that is to fail, and the name as often as the number of files doubles.
    fn get(&mut self, name: &str, at: u64, into: &mut [u8]) -> Result<usize, Failed>
        ensures bound { ReadsAtMost result into.new }
        ensures gets { Gets (files_state self.old)
            (files_state self.new) name.now at into.new result }
        ensures fails { is_err result ≡ get_fails self.old name.now }
        ensures count { IfOk result (λ n. n ≡ bytes_given self.old name.now at (length into.new)) }
        ensures after { self.new ≡ after_get self.old name.now }
    {
        if self.plan.next_fails() {
            self.planned = self.planned.saturating_add(1);
            return Err(Failed);
        }
        let Some(content) = self.contents.content(name) else {
            self.missing = self.missing.saturating_add(1);
            return Err(Failed);
        };
        Ok(copy_from(content, at, self.most, into))
    }
}
