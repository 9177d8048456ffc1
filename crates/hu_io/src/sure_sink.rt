//! A sink that never fails.

ghost use Rattle.std.specs.Prelude.{◌≡◌, ℕ, ◌+◌, ◌-◌, ◌^◌, min, [], None, Ok, length};
ghost use Rattle.hu_io.specs.State.{Puts};
ghost use Rattle.hu_io.specs.Sure.{sure_sink};

use crate::failed::Failed;
use crate::sink::Sink;
use std::marker::Model;

/// Counts the bytes that it takes, and drops them. No call of `put` fails.
#[derive(Debug, Drop)]
pub struct SureSink {
    count: u64,
}

impl Model for SureSink {
    ghost Value = { ℕ };

    ghost view = { λ s. s.count };
}

impl SureSink {
    /// No byte was put.
    pub fn new() -> SureSink
        ensures { result ≡ 0 }
    {
        SureSink { count: 0 }
    }

    /// How many bytes were put, at most 2^64 - 1.
    pub fn count(&self) -> u64
        ensures { result ≡ self.now }
    {
        self.count
    }
}

impl Sink for SureSink {
    ghost state = { λ _. sure_sink };

    /// Takes the whole piece.
    fn put(&mut self, piece: &[u8]) -> Result<usize, Failed>
        ensures puts { Puts sure_sink sure_sink piece.now result }
        ensures all { result ≡ Ok (length piece.now) }
        ensures after { self.new ≡ min (self.old + length piece.now) (2 ^ 64 - 1) }
    {
        self.count = self.count.saturating_add(piece.len() as u64);
        Ok(piece.len())
    }
}
