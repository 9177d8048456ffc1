//! A sink in memory with a fixed room, of which chosen calls fail.

ghost use Rattle.std.specs.Prelude.{◌≡◌, ◌-◌, min, Some, [], ◌∷◌, length, is_err, IfOk, OnOk, OnErr};
ghost use Rattle.hu_io.specs.State.{Puts};
ghost use Rattle.hu_io.specs.Plan.{listing};
ghost use Rattle.hu_io.specs.MemorySink.{after_put, empty_sink, put_fails, room_left, sink_faults, sink_state};

use crate::failed::Failed;
use crate::plan::Plan;
use crate::sink::Sink;
use hu_kind::NoMemory;
use std::alloc::Global;
use std::marker::Model;

/// Bytes in memory, in a room that doesn't grow. A call of `put` fails where its number was given to `fail_at`, and at
/// a piece that isn't empty when no room is left.
#[derive(Drop)]
pub struct MemorySink {
    held: Vec<u8>,
    room: usize,
    plan: Plan,
    failed: u64,
}

impl Model for MemorySink {
    ghost use Rattle.std.specs.Prelude.{◌≡◌, ◌<◌, ◌≤◌, [], vec_len, vec_capacity};
    ghost use Rattle.hu_io.specs.MemorySink.{SinkView};

    ghost Value = { SinkView };

    ghost view = { λ s. record { bytes = s.held.items; room = s.room; plan = s.plan; failed = s.failed } };

    ghost invariant = { λ s. (vec_len s.held ≤ s.room) × (s.room ≤ vec_capacity s.held)
        × (s.plan.failing ≡ [] → vec_len s.held < s.room → s.failed ≡ 0) };
}

impl MemorySink {
    /// Room for so many bytes, taken from memory at once. No byte, no call that is to fail, and the count 0.
    pub fn new(alloc: Global, room: usize) -> Result<MemorySink, NoMemory>
        ensures { IfOk result (λ sink. sink ≡ empty_sink room) }
    {
        Ok(MemorySink {
            held: Vec::with_capacity(alloc, room)?,
            room,
            plan: Plan::new(alloc),
            failed: 0,
        })
    }

    /// Has the call of `put` with this number fail, where calls count from 1. The count doesn't change.
    pub fn fail_at(&mut self, call: u64) -> Result<(), NoMemory>
        ensures ok { OnOk result
            (self.new ≡ record self.old { plan = listing call self.old.plan }) }
        ensures count { sink_faults self.new ≡ sink_faults self.old }
        ensures err { OnErr result (self.new ≡ self.old) }
    {
        self.plan.fail_at(call)
    }

    /// The bytes so far.
    pub fn bytes(&self) -> &[u8]
        ensures { result.now ≡ self.now.bytes }
    {
        &self.held
    }

    /// How many calls failed, at most 2^64 - 1.
    pub fn faults(&self) -> u64
        ensures { result ≡ sink_faults self.now }
    {
        self.failed
    }
}

impl Sink for MemorySink {
    ghost state = { sink_state };

    /// Takes as much of the piece as fits, and no memory. Compares the call with each that is to fail.
    fn put(&mut self, piece: &[u8]) -> Result<usize, Failed>
        ensures puts { Puts (sink_state self.old) (sink_state self.new) piece.now result }
        ensures fails { is_err result ≡ put_fails self.old piece.now }
        ensures fits { IfOk result (λ n. n ≡ min (room_left self.old) (length piece.now)) }
        ensures after { self.new ≡ after_put self.old piece.now }
    {
        let left = self.room - self.held.len();
        if self.plan.next_fails() || (left == 0 && !piece.is_empty()) {
            self.failed = self.failed.saturating_add(1);
            return Err(Failed);
        }
        let taken = left.min(piece.len());
        match self.held.extend_from_slice(&piece[..taken]) {
            Ok(()) => Ok(taken),
            Err(_) => unreachable!("the room was taken from memory at the start"),
        }
    }
}
