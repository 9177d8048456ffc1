//! The calls that are to fail.

ghost use Rattle.std.specs.Prelude.{◌≡◌, OnOk, OnErr};
ghost use Rattle.hu_io.specs.Plan.{after_call, listing, next_fails, no_plan};

use hu_kind::NoMemory;
use std::alloc::Global;
use std::marker::Model;

/// The numbers of the calls that are to fail, and how many calls there were. Calls count from 1.
#[derive(Drop)]
pub(crate) struct Plan {
    failing: Vec<u64>,
    calls: u64,
}

impl Model for Plan {
    ghost use Rattle.hu_io.specs.Plan.{PlanView};

    ghost Value = { PlanView };

    ghost view = { λ p. record { failing = p.failing.items; calls = p.calls } };
}

impl Plan {
    /// No call is to fail.
    pub(crate) fn new(alloc: Global) -> Plan
        ensures { result ≡ no_plan }
    {
        Plan {
            failing: Vec::new(alloc),
            calls: 0,
        }
    }

    /// Lists a call as one that is to fail.
    pub(crate) fn fail_at(&mut self, call: u64) -> Result<(), NoMemory>
        ensures ok { OnOk result (self.new ≡ listing call self.old) }
        ensures err { OnErr result (self.new ≡ self.old) }
    {
        self.failing.push(call)?;
        Ok(())
    }

    /// Counts a call, and returns whether it is to fail.
    pub(crate) fn next_fails(&mut self) -> bool
        ensures fails { result ≡ next_fails self.old }
        ensures after { self.new ≡ after_call self.old }
    {
        self.calls = self.calls.saturating_add(1);
        self.failing.contains(&self.calls)
    }
}
