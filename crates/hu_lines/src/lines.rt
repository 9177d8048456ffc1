//! Lines gathered from the pieces of a file.

ghost use Rattle.std.specs.Prelude.{◌≡◌, ◌+◌, ◌-◌, ◌^◌, ◌<◌, ◌≤◌, ◌↔◌, [], ◌∷◌, ◌++◌, length, take, true, false, IsTrue, None, Some, IfSome, IfOk, IfErr, OnOk, if◌then◌else◌};
ghost use Rattle.std.specs.Result.{result_err};
ghost use Rattle.hu_lines.specs.Pieces.{has_line_feed, first_piece, pieces, without_last, line_of, lines};
ghost use Rattle.hu_lines.specs.Limits.{refusal, refusal_by_counts};
ghost use Rattle.hu_lines.specs.Lines.{State, at_start, at_line, begun, grown, at_end, at_next_file, refusal_of, HasLine, IsHeld};

use crate::limits::{LARGEST_INPUT, LONGEST_LINE, LineFault};
use hu_kind::NoMemory;
use memchr::memchr;
use std::alloc::Global;
use std::marker::Model;

/// What a [`Lines`] took of the bytes that it was given.
#[derive(Clone, Copy, Debug, PartialEq, Eq)]
pub struct Fed {
    /// How many bytes were taken, from the front.
    pub taken: usize,
    /// Whether they end the line.
    pub whole: bool,
}

/// The lines of the files of a run, one at a time, from the pieces in which the files are read.
///
/// Feed it a file's bytes in turn, each time what it didn't take before, and read the line where it is whole; at the
/// file's end call `end`, which tells of a last line without a line feed, and then `next_file`.
#[derive(Debug, Drop)]
pub struct Lines {
    bytes: Vec<u8>,
    whole: bool,
    number: u64,
    before: u64,
    ended: bool,
    refused: Option<LineFault>,
}

impl Model for Lines {
    ghost use Rattle.hu_lines.specs.Lines.{State};

    ghost Value = { State };

    ghost use Rattle.hu_lines.specs.Held.{state_of, IsKept};

    ghost view = { state_of };

    ghost invariant = { IsKept };
}

impl Lines {
    /// Ready for the first file of a run. It takes the room of one longest line; no later call takes memory.
    #[tactic(auto, using(crate::proofs::lemmas::HeldLemmas::held_empty))]
    pub fn new(alloc: Global) -> Result<Lines, NoMemory>
        ensures start { IfOk result (λ lines. lines ≡ at_start) }
        ensures held { IfOk result IsHeld }
    {
        Ok(Lines {
            bytes: Vec::with_capacity(alloc, LONGEST_LINE as usize + 1)?,
            whole: false,
            number: 1,
            before: 0,
            ended: false,
            refused: None,
        })
    }

    /// Takes bytes of the line up to and with its line feed, or all of the piece where it has none. A line that has
    /// ended is left before, also by an empty piece. The first byte that passes a limit is refused, and after that
    /// every byte. One pass over what is taken, which is copied once.
    #[tactic(auto, using(crate::proofs::lemmas::PieceLemmas::first_piece_twice))]
    pub fn feed(&mut self, piece: &[u8]) -> Result<Fed, LineFault>
        requires { self.old.ended ≡ false }

        // It is refused exactly where an earlier piece was, or the line passes a limit with the bytes taken.
        ensures refusal { result_err result ≡ refusal_of (begun self.old) (first_piece piece.now) }
        ensures ok { OnOk result (self.new ≡ grown (begun self.old) (first_piece piece.now)) }
        ensures err { IfErr result (λ fault. self.new ≡ record (begun self.old) { refused = Some fault }) }
        ensures stays { IfSome self.old.refused (λ fault. (result ≡ Err fault) × (self.new ≡ self.old)) }

        // The file goes on, and so may the line.
        ensures going { self.new.ended ≡ false }
        ensures accepted { OnOk result (self.new.refused ≡ None) }
        ensures held { IsHeld self.new }

        // What is taken: a front of the piece, of at least one byte where it has any.
        ensures taken { IfOk result (λ fed. fed.taken ≡ length (first_piece piece.now)) }
        ensures front { IfOk result (λ fed. take fed.taken piece.now ≡ first_piece piece.now) }
        ensures whole { IfOk result (λ fed. fed.whole ≡ has_line_feed (first_piece piece.now)) }
        ensures some { IfOk result (λ fed. 0 < length piece.now → 0 < fed.taken) }
        ensures within { IfOk result (λ fed. fed.taken ≤ length piece.now) }
    {
        self.begin();
        if let Some(fault) = self.refused {
            return Err(fault);
        }
        let fed = front_of(piece);
        let taken = &piece[..fed.taken];
        if let Some(fault) = self.passed_limit(taken, fed.whole) {
            self.refused = Some(fault);
            return Err(fault);
        }
        self.grow(taken, fed.whole);
        Ok(fed)
    }

    /// Begins the next line where the line has ended.
    #[tactic(auto, using(crate::proofs::lemmas::HeldLemmas::kept_number))]
    fn begin(&mut self)
        ensures begun { self.new ≡ begun self.old }
        ensures stays { IfSome self.old.refused (λ _. self.new ≡ self.old) }
        ensures held { IsHeld self.new }
    {
        if self.whole {
            self.start_line(self.number + 1);
        }
    }

    /// Begins a line of this number after the bytes held.
    #[tactic(auto, using(crate::proofs::lemmas::HeldLemmas::kept_within))]
    fn start_line(&mut self, number: u64)
        requires { number ≤ self.old.before + length self.old.bytes + 1 }
        ensures line { self.new ≡ at_line number self.old }
        ensures held { IsHeld self.new }
    {
        self.before += self.bytes.len() as u64;
        self.number = number;
        self.bytes.clear();
        self.whole = false;
    }

    /// The limit that the line passes with these bytes, of which the last is a line feed where they make it `whole`.
    #[tactic(auto, using(crate::proofs::lemmas::HeldLemmas::kept_within))]
    fn passed_limit(&self, taken: &[u8], whole: bool) -> Option<LineFault>
        requires begun { self.now.whole ≡ false }
        requires one { first_piece taken.now ≡ taken.now }
        requires whole { whole ≡ has_line_feed taken.now }
        ensures { result ≡ refusal self.now.number self.now.before (self.now.bytes ++ taken.now) }
    {
        let length = self.bytes.len() as u64 + taken.len() as u64;
        limit_passed(self.number, self.before, length - u64::from(whole), length)
    }

    /// Adds bytes to the line, for which there is room where they pass no limit.
    #[tactic(auto, using(crate::proofs::lemmas::HeldLemmas::kept_room))]
    fn grow(&mut self, taken: &[u8], whole: bool)
        requires begun { self.old.whole ≡ false }
        requires accepted { self.old.refused ≡ None }
        requires one { first_piece taken.now ≡ taken.now }
        requires whole { whole ≡ has_line_feed taken.now }
        requires within { refusal self.old.number self.old.before (self.old.bytes ++ taken.now) ≡ None }
        ensures grown { self.new ≡ grown self.old taken.now }
        ensures held { IsHeld self.new }
    {
        match self.bytes.extend_from_slice(taken) {
            Ok(()) => self.whole = whole,
            Err(_) => unreachable!(),
        }
    }

    /// Ends the file. Answers whether bytes stand after its last line feed: they are then the line.
    pub fn end(&mut self) -> bool
        requires { self.old.refused ≡ None }
        ensures rest { IsTrue result ↔ ((self.old.whole ≡ false) × (0 < length self.old.bytes)) }
        ensures left { pieces (begun self.old).bytes ≡ (if result then self.old.bytes ∷ [] else []) }
        ensures ended { self.new ≡ at_end self.old }
        ensures held { IsHeld self.new }
    {
        self.ended = true;
        !self.whole && !self.bytes.is_empty()
    }

    /// The line, without its line feed and without one carriage return at its end.
    #[tactic(auto, using(crate::proofs::lemmas::HeldLemmas::held_line))]
    pub fn line(&self) -> &[u8]
        requires { HasLine self.now }
        ensures value { result.now ≡ line_of self.now.bytes }
        ensures only { lines self.now.bytes ≡ result.now ∷ [] }
        ensures short { length result.now ≤ LONGEST_LINE }
    {
        without_last(without_last(&self.bytes, b'\n'), b'\r')
    }

    /// The number of the line in its file, from 1. It is at most one more than the bytes of the run before the line.
    pub fn number(&self) -> u64
        ensures value { result ≡ self.now.number }
        ensures held { IsHeld self.now }
    {
        self.number
    }

    /// Begins the next file at line 1. The bytes of the run stay counted.
    pub fn next_file(&mut self)
        requires { self.old.ended ≡ true }
        ensures next { self.new ≡ at_next_file self.old }
        ensures held { IsHeld self.new }
    {
        self.start_line(1);
        self.ended = false;
    }
}

/// The limit that a line passes, by the number of its bytes without and with its line feed.
#[tactic(auto, using(std::proofs::lemmas::Bool::Decides::nat_tests))]
fn limit_passed(number: u64, before: u64, body: u64, all: u64) -> Option<LineFault>
    requires within { before ≤ LARGEST_INPUT }
    requires fits { before + all < 2 ^ 64 }
    ensures { result ≡ refusal_by_counts 1048576 268435456 number before body all }
{
    if body > LONGEST_LINE && before + LONGEST_LINE <= LARGEST_INPUT {
        Some(LineFault::LineTooLong { number })
    } else if before + all > LARGEST_INPUT {
        Some(LineFault::InputTooLarge { number })
    } else {
        None
    }
}

/// What a feed takes of a piece: the bytes up to and with its first line feed, all of them where it has none.
fn front_of(piece: &[u8]) -> Fed
    ensures taken { result.taken ≡ length (first_piece piece.now) }
    ensures front { take result.taken piece.now ≡ first_piece piece.now }
    ensures whole { result.whole ≡ has_line_feed (first_piece piece.now) }
    ensures some { 0 < length piece.now → 0 < result.taken }
    ensures within { result.taken ≤ length piece.now }
{
    match memchr(b'\n', piece) {
        Some(place) => Fed {
            taken: place + 1,
            whole: true,
        },
        None => Fed {
            taken: piece.len(),
            whole: false,
        },
    }
}

/// The bytes without one such byte at their end.
fn without_last(bytes: &[u8], byte: u8) -> &[u8]
    ensures { result.now ≡ without_last byte bytes.now }
{
    match bytes {
        [front @ .., last] if *last == byte => front,
        _ => bytes,
    }
}
