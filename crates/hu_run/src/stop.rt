//! Why a run stops short of its answer.

ghost use Rattle.std.specs.Prelude.{◌≡◌};
ghost use Rattle.hu_input.specs.Part.{Tells};
ghost use Rattle.hu_run.specs.Stop.{stop_status, stop_line, told_line, refusal_line, fault_line, word_text};

use crate::denial::fault_line;
use crate::words::WordFault;
use hu_certify::CertFault;
use hu_input::{InputStop, Part, Reason, tell};
use hu_io::{Failed, Sink};
use hu_kind::NoMemory;
use hu_proof::CheckFault;

/// Why a run stops short of its answer.
#[derive(Clone, Copy)]
pub(crate) enum Stop<'a> {
    /// The words are no job.
    Words(WordFault),
    /// This line of this file is refused.
    Refused {
        name: &'a str,
        number: u64,
        reason: Reason,
    },
    /// A read of this file failed.
    ReadFailed {
        name: &'a str,
    },
    /// This certificate isn't accepted.
    Denied {
        cert: &'a str,
        fault: CheckFault,
    },
    /// The certificate would be too long.
    TooLong,
    /// A write of the answer failed.
    WriteFailed,
    /// There is no memory.
    NoMemory,
}

impl Stop<'_> {
    /// The status with which the program ends.
    pub(crate) fn status(&self) -> u8
        ensures { result ≡ stop_status self.now }
    {
        match self {
            Stop::Refused { .. } => 1,
            Stop::Words(_) => 2,
            Stop::ReadFailed { .. } => 3,
            Stop::WriteFailed => 4,
            Stop::NoMemory => 5,
            Stop::Denied { .. } | Stop::TooLong => 6,
        }
    }

    /// Tells of it in one line.
    pub(crate) fn tell<E: Sink>(&self, err: &mut E)
        ensures { Tells (E.state err.old) (E.state err.new) (stop_line self.now) }
    {
        match self {
            Stop::Words(fault) => tell_text(err, word_text(*fault)),
            Stop::Refused {
                name,
                number,
                reason,
            } => tell_refusal(err, name, *number, *reason),
            Stop::ReadFailed { name } => tell(
                err,
                &[
                    Part::Text("hupm: read failed: "),
                    Part::Text(name),
                    Part::Text("\n"),
                ],
            ),
            Stop::Denied { cert, fault } => tell_denial(err, cert, *fault),
            Stop::TooLong => tell_text(err, "certificate too long"),
            Stop::WriteFailed => tell_text(err, "write failed"),
            Stop::NoMemory => tell_text(err, "out of memory"),
        }
    }
}

/// Tells a text.
fn tell_text<E: Sink>(err: &mut E, text: &str)
    ensures { Tells (E.state err.old) (E.state err.new) (told_line text.now) }
{
    tell(
        err,
        &[Part::Text("hupm: "), Part::Text(text), Part::Text("\n")],
    );
}

/// Tells of a line that is refused.
fn tell_refusal<E: Sink>(err: &mut E, name: &str, number: u64, reason: Reason)
    ensures { Tells (E.state err.old) (E.state err.new) (refusal_line name.now number reason) }
{
    let [first, second, third, fourth] = reason.parts();
    tell(
        err,
        &[
            Part::Text("hupm: "),
            Part::Text(name),
            Part::Text(":"),
            Part::Number(i128::from(number)),
            Part::Text(": "),
            first,
            second,
            third,
            fourth,
            Part::Text("\n"),
        ],
    );
}

/// Tells of a certificate that isn't accepted.
fn tell_denial<E: Sink>(err: &mut E, cert: &str, fault: CheckFault)
    ensures { Tells (E.state err.old) (E.state err.new) (fault_line cert.now fault) }
{
    tell(err, &fault_line(cert, fault));
}

/// The reason of refused words.
fn word_text(fault: WordFault) -> &'static str
    ensures { result.now ≡ word_text fault }
{
    match fault {
        WordFault::TooFewWords => "too few words",
        WordFault::TooManyWords => "too many words",
        WordFault::BadSeed => "bad seed",
        WordFault::TaskUnknown => "unknown task",
        WordFault::EngineNotOffered => "engine not offered",
        WordFault::BadMinimum => "bad minimum",
        WordFault::BadTop => "bad top",
        WordFault::BadLengths => "bad lengths",
        WordFault::TooManyFiles => "too many files",
    }
}

impl From<WordFault> for Stop<'_> {
    ghost use Rattle.std.specs.Prelude.{◌≡◌};
    ghost use Rattle.hu_run.specs.declared.stop.Stop.TheVariants as stop;

    ghost from_gives = { λ fault e. e ≡ stop.Words fault };

    fn from(fault: WordFault) -> Self {
        Stop::Words(fault)
    }
}

impl<'a> From<InputStop<'a>> for Stop<'a> {
    ghost use Rattle.std.specs.Prelude.{◌≡◌};
    ghost use Rattle.hu_run.specs.Stop.{stop_of_input};

    ghost from_gives = { λ stop e. e ≡ stop_of_input stop };

    fn from(stop: InputStop<'a>) -> Self {
        match stop {
            InputStop::Refused {
                name,
                number,
                reason,
            } => Stop::Refused {
                name,
                number,
                reason,
            },
            InputStop::ReadFailed { name } => Stop::ReadFailed { name },
            InputStop::NoMemory => Stop::NoMemory,
        }
    }
}

impl From<NoMemory> for Stop<'_> {
    ghost use Rattle.std.specs.Prelude.{◌≡◌};
    ghost use Rattle.hu_run.specs.declared.stop.Stop.TheVariants as stop;

    ghost from_gives = { λ _ e. e ≡ stop.NoMemory };

    fn from(_fault: NoMemory) -> Self {
        Stop::NoMemory
    }
}

impl From<CertFault> for Stop<'_> {
    ghost use Rattle.std.specs.Prelude.{◌≡◌};
    ghost use Rattle.hu_run.specs.Stop.{stop_of_certificate};

    ghost from_gives = { λ fault e. e ≡ stop_of_certificate fault };

    fn from(fault: CertFault) -> Self {
        match fault {
            CertFault::TooLong => Stop::TooLong,
            CertFault::NoMemory => Stop::NoMemory,
        }
    }
}

impl From<Failed> for Stop<'_> {
    ghost use Rattle.std.specs.Prelude.{◌≡◌};
    ghost use Rattle.hu_run.specs.declared.stop.Stop.TheVariants as stop;

    ghost from_gives = { λ _ e. e ≡ stop.WriteFailed };

    fn from(_failed: Failed) -> Self {
        Stop::WriteFailed
    }
}
