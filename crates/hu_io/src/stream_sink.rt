//! A stream of the system.

ghost use Rattle.std.specs.Prelude.{◌≡◌, ℕ, ◌<◌, ◌≤◌, length, take, IfOk};
ghost use Rattle.std.specs.Io.KnownBytes.{Appends};
ghost use Rattle.hu_io.specs.Count.{Counts};
ghost use Rattle.hu_io.specs.Edge.{system_sink};
ghost use Rattle.hu_io.specs.State.{Puts};

use crate::failed::{Failed, answer};
use crate::sink::Sink;
use std::io;
use std::io::{ErrorKind, Write};
use std::marker::Model;

/// A writer that is flushed at each put. Every error counts as a fault, also a failed flush, and so does a write that
/// takes no byte of a piece.
#[derive(Drop)]
pub struct StreamSink<W> {
    to: W,
    faults: u64,
}

impl<W> Model for StreamSink<W> {
    ghost Value = { ℕ };

    ghost view = { λ s. s.faults };
}

impl<W> StreamSink<W> {
    /// Writes to `to`. The count is 0.
    pub fn new(to: W) -> StreamSink<W>
        ensures { result ≡ 0 }
    {
        StreamSink { to, faults: 0 }
    }

    /// How many calls failed, at most 2^64 - 1.
    pub fn faults(&self) -> u64
        ensures { result ≡ self.now }
    {
        self.faults
    }
}

/// Writes the front of `piece` to `to`, and flushes it.
fn write_on<W: Write>(to: &mut W, piece: &[u8]) -> io::Result<usize>
    ensures within { IfOk result (λ n. n ≤ length piece.now) }
    ensures some { IfOk result (λ n. 0 < length piece.now → 0 < n) }
    ensures bytes { IfOk result (λ n.
        Appends (W.contents to.old) (W.contents to.new) (take n piece.now)) }
{
    let count = to.write(piece)?;
    if count == 0 && !piece.is_empty() {
        return Err(io::Error::from(ErrorKind::WriteZero));
    }
    to.flush()?;
    Ok(count)
}

impl<W: Write> Sink for StreamSink<W> {
    ghost state = { system_sink };

    fn put(&mut self, piece: &[u8]) -> Result<usize, Failed>
        ensures puts { Puts (system_sink self.old) (system_sink self.new) piece.now result }
        ensures counts { Counts result self.old self.new }
    {
        answer(write_on(&mut self.to, piece), &mut self.faults)
    }
}
