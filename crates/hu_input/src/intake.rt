//! The taking in of files: bytes to lines, lines to records, the records of a file to its base.

ghost use Rattle.std.specs.Prelude.{◌≡◌, ◌<◌, ◌^◌, [], length, pos, unsigned_abs, ◌≤ℤ◌, OnOk, IfOk, IfErr};
ghost use Rattle.hu_base.specs.Base.{sum_of};
ghost use Rattle.hu_lines.specs.Lines.{HasLine, at_end};
ghost use Rattle.hu_input.specs.Intake.{IsOpen, IsFresh, IsStopAt, Judges, Took, Refuses, RefusesLast, Ends, Closes, ReadsPiece, ReadsFile};

use crate::format::Format;
use crate::input::InputStop;
use crate::reason::Reason;
use hu_base::{AddFault, Base};
use hu_io::{Failed, Files};
use hu_kind::NoMemory;
use hu_lines::{LineFault, Lines, is_skipped};
use std::alloc::Global;
use std::marker::Model;
use std::mem;

/// Why taking in stopped.
pub(crate) enum LineStop {
    /// This line is refused.
    Refused { number: u64, reason: Reason },
    /// There is no memory.
    NoMemory,
}

impl LineStop {
    /// The same in the file of this name.
    fn in_file(self, name: &str) -> InputStop<'_>
        ensures { IsStopAt name.now self result }
    {
        match self {
            LineStop::Refused { number, reason } => InputStop::Refused {
                name,
                number,
                reason,
            },
            LineStop::NoMemory => InputStop::NoMemory,
        }
    }
}

/// What was taken in so far: the line that is held, and the records of the file.
#[derive(Drop)]
pub(crate) struct Intake<T: Format> {
    alloc: Global,
    lines: Lines,
    base: Base<T::Record>,
}

impl<T: Format> Model for Intake<T> {
    ghost use Rattle.hu_input.specs.View.{View};

    ghost Value = { View T.Record };

    ghost view = { λ i. record { lines = i.lines; base = i.base } };
}

impl<T: Format> Intake<T> {
    /// Nothing was taken in, and the sum begins at `carried`. It takes the room of one longest line.
    pub(crate) fn new(alloc: Global, carried: i128) -> Result<Intake<T>, NoMemory>
        requires { pos 0 ≤ℤ carried }
        ensures fresh { IfOk result (λ intake. IsFresh intake) }
        ensures first { IfOk result (λ intake. intake.lines.before ≡ 0) }
        ensures sum { IfOk result (λ intake. intake.base.0 ≡ unsigned_abs carried) }
    {
        Ok(Intake {
            alloc,
            lines: Lines::new(alloc)?,
            base: Base::after(alloc, carried),
        })
    }

    /// Reads a file to its end, in pieces of the buffer's size, and gives its records; the next file begins after their
    /// sum. A refused line is answered before any further read.
    pub(crate) fn read_file<'a, F: Files>(
        &mut self,
        files: &mut F,
        name: &'a str,
        buffer: &mut [u8],
    ) -> Result<Base<T::Record>, InputStop<'a>>
        requires fresh { IsFresh self.old }
        requires some { 0 < length buffer.old }
        ensures { ReadsFile T.reading T.Record.absolute self.old self.new
            (F.state files.old) (F.state files.new) name.now result }
    {
        let mut at = 0;
        loop {
            let count = self.read_piece(files, name, at, buffer)?;
            if count == 0 {
                break;
            }
            at += count as u64;
        }
        match self.end_file() {
            Ok(base) => Ok(base),
            Err(stop) => Err(stop.in_file(name)),
        }
    }

    /// Reads a piece of a file from a place on, and takes it in.
    fn read_piece<'a, F: Files>(
        &mut self,
        files: &mut F,
        name: &'a str,
        at: u64,
        buffer: &mut [u8],
    ) -> Result<usize, InputStop<'a>>
        requires open { IsOpen self.old.lines }
        requires some { 0 < length buffer.old }
        ensures { ReadsPiece T.reading T.Record.absolute self.old self.new
            (F.state files.old) (F.state files.new) name.now at result }
    {
        let count = match files.get(name, at, buffer) {
            Ok(count) => count,
            Err(Failed) => return Err(InputStop::ReadFailed { name }),
        };
        match self.take(&buffer[..count]) {
            Ok(()) => Ok(count),
            Err(stop) => Err(stop.in_file(name)),
        }
    }

    /// Ends the file, whose last line may have no line feed, and gives its records; the next begins after their sum.
    fn end_file(&mut self) -> Result<Base<T::Record>, LineStop>
        requires { IsOpen self.old.lines }
        ensures ok { IfOk result (Closes T.reading T.Record.absolute self.old self.new) }
        ensures err { IfErr result (RefusesLast T.reading T.Record.absolute self.old) }
    {
        self.judge_last()?;
        self.lines.next_file();
        Ok(self.take_base())
    }

    /// Gives the records, and begins a base after their sum.
    fn take_base(&mut self) -> Base<T::Record>
        ensures given { result ≡ self.old.base }
        ensures next { self.new.base ≡ (sum_of T.Record.absolute self.old.base, []) }
        ensures lines { self.new.lines ≡ self.old.lines }
        ensures fits { sum_of T.Record.absolute self.old.base < 2 ^ 127 }
    {
        let next = Base::after(self.alloc, self.base.sum());
        mem::replace(&mut self.base, next)
    }

    /// Ends the file, and judges its last line where that has no line feed.
    fn judge_last(&mut self) -> Result<(), LineStop>
        requires { IsOpen self.old.lines }
        ensures ok { OnOk result (Ends T.reading T.Record.absolute self.old self.new) }
        ensures err { IfErr result (RefusesLast T.reading T.Record.absolute self.old) }
    {
        if self.lines.end() {
            self.judge()
        } else {
            Ok(())
        }
    }

    /// Takes in a piece of the file.
    fn take(&mut self, piece: &[u8]) -> Result<(), LineStop>
        requires { IsOpen self.old.lines }
        ensures ok { OnOk result (Took T.reading T.Record.absolute self.old self.new piece.now
            (length piece.now)) }
        ensures err { IfErr result (Refuses T.reading T.Record.absolute self.old piece.now) }
    {
        let mut rest = piece;
        while !rest.is_empty() {
            let taken = self.take_front(rest)?;
            rest = &rest[taken..];
        }
        Ok(())
    }

    /// Takes in bytes of a piece up to and with its first line feed, and judges the line that has ended.
    fn take_front(&mut self, piece: &[u8]) -> Result<usize, LineStop>
        requires open { IsOpen self.old.lines }
        requires some { 0 < length piece.now }
        ensures ok { IfOk result (Took T.reading T.Record.absolute self.old self.new piece.now) }
        ensures err { IfErr result (Refuses T.reading T.Record.absolute self.old piece.now) }
    {
        let fed = self.lines.feed(piece)?;
        if fed.whole {
            self.judge()?;
        }
        Ok(fed.taken)
    }

    /// Judges the line that is held.
    fn judge(&mut self) -> Result<(), LineStop>
        requires { HasLine self.old.lines }
        ensures judged { Judges T.reading T.Record.absolute self.old.lines self.old.base
            self.new.base result }
        ensures lines { self.new.lines ≡ self.old.lines }
    {
        let line = self.lines.line();
        if is_skipped(line) {
            return Ok(());
        }
        let number = self.lines.number();
        let one = match T::read(self.alloc, line)? {
            Ok(one) => one,
            Err(reason) => return Err(LineStop::Refused { number, reason }),
        };
        match self.base.add(one) {
            Ok(()) => Ok(()),
            Err(AddFault::SumTooLarge { .. }) => Err(LineStop::Refused {
                number,
                reason: Reason::SumTooLarge,
            }),
            Err(AddFault::NoMemory) => Err(LineStop::NoMemory),
        }
    }
}

impl From<NoMemory> for LineStop {
    ghost use Rattle.std.specs.Prelude.{◌≡◌};
    ghost use Rattle.hu_input.specs.declared.intake.LineStop.TheVariants as stop;

    ghost from_gives = { λ _ e. e ≡ stop.NoMemory };

    fn from(_fault: NoMemory) -> LineStop {
        LineStop::NoMemory
    }
}

impl From<LineFault> for LineStop {
    ghost use Rattle.std.specs.Prelude.{◌≡◌};
    ghost use Rattle.hu_input.specs.Intake.{limit_stop};

    ghost from_gives = { λ fault e. e ≡ limit_stop fault };

    fn from(fault: LineFault) -> LineStop {
        match fault {
            LineFault::LineTooLong { number } => LineStop::Refused {
                number,
                reason: Reason::LineTooLong,
            },
            LineFault::InputTooLarge { number } => LineStop::Refused {
                number,
                reason: Reason::InputTooLarge,
            },
        }
    }
}
