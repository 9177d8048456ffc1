//! Why a run of a store's words stops short of its end.

ghost use Rattle.std.specs.Prelude.{◌≡◌};
ghost use Rattle.hu_input.specs.Part.{Tells};
ghost use Rattle.hu_run.specs.ShelfStop.{declined_line, shelf_stop_line, shelf_stop_status, store_fault_text};

use super::fault::StoreFault;
use crate::stop::Stop;
use crate::words::WordFault;
use hu_input::{Part, tell};
use hu_io::{Failed, Sink};
use hu_kind::NoMemory;

/// Why a run of a store's words stops short of its end.
#[derive(Clone, Copy)]
pub(crate) enum ShelfStop<'a> {
    /// For what may stop any run.
    Job(Stop<'a>),
    /// The store of this name doesn't allow what is asked.
    Declined { name: &'a str, fault: StoreFault },
    /// The keeper failed at this name.
    StoreFailed { name: &'a str },
}

impl ShelfStop<'_> {
    /// The status with which the program ends.
    pub(crate) fn status(&self) -> u8
        ensures { result ≡ shelf_stop_status self.now }
    {
        match self {
            ShelfStop::Job(stop) => stop.status(),
            ShelfStop::Declined { .. } => 7,
            ShelfStop::StoreFailed { .. } => 8,
        }
    }

    /// Tells of it in one line.
    pub(crate) fn tell<E: Sink>(&self, err: &mut E)
        ensures { Tells (E.state err.old) (E.state err.new) (shelf_stop_line self.now) }
    {
        match self {
            ShelfStop::Job(stop) => stop.tell(err),
            ShelfStop::Declined { name, fault } => tell_declined(err, name, *fault),
            ShelfStop::StoreFailed { name } => tell(
                err,
                &[
                    Part::Text("hupm: store failed: "),
                    Part::Text(name),
                    Part::Text("\n"),
                ],
            ),
        }
    }
}

/// Tells of a store that doesn't allow what is asked.
fn tell_declined<E: Sink>(err: &mut E, name: &str, fault: StoreFault)
    ensures { Tells (E.state err.old) (E.state err.new) (declined_line name.now fault) }
{
    tell(
        err,
        &[
            Part::Text("hupm: "),
            Part::Text(name),
            Part::Text(": "),
            Part::Text(fault_text(fault)),
            Part::Text("\n"),
        ],
    );
}

/// The reason in words.
fn fault_text(fault: StoreFault) -> &'static str
    ensures { result.now ≡ store_fault_text fault }
{
    match fault {
        StoreFault::Absent => "no store",
        StoreFault::Present => "store is there",
        StoreFault::Damaged => "damaged store",
        StoreFault::TooLarge => "store too large",
    }
}

impl<'a> From<Stop<'a>> for ShelfStop<'a> {
    ghost use Rattle.std.specs.Prelude.{◌≡◌};
    ghost use Rattle.hu_run.specs.declared.shelf.stop.ShelfStop.TheVariants as stop;

    ghost from_gives = { λ why e. e ≡ stop.Job why };

    fn from(stop: Stop<'a>) -> Self {
        ShelfStop::Job(stop)
    }
}

impl From<WordFault> for ShelfStop<'_> {
    ghost use Rattle.std.specs.Prelude.{◌≡◌};
    ghost use Rattle.hu_run.specs.declared.shelf.stop.ShelfStop.TheVariants as stop;
    ghost use Rattle.hu_run.specs.declared.stop.Stop.TheVariants as job;

    ghost from_gives = { λ fault e. e ≡ stop.Job (job.Words fault) };

    fn from(fault: WordFault) -> Self {
        ShelfStop::Job(Stop::Words(fault))
    }
}

impl From<NoMemory> for ShelfStop<'_> {
    ghost use Rattle.std.specs.Prelude.{◌≡◌};
    ghost use Rattle.hu_run.specs.declared.shelf.stop.ShelfStop.TheVariants as stop;
    ghost use Rattle.hu_run.specs.declared.stop.Stop.TheVariants as job;

    ghost from_gives = { λ _ e. e ≡ stop.Job job.NoMemory };

    fn from(_fault: NoMemory) -> Self {
        ShelfStop::Job(Stop::NoMemory)
    }
}

impl From<Failed> for ShelfStop<'_> {
    ghost use Rattle.std.specs.Prelude.{◌≡◌};
    ghost use Rattle.hu_run.specs.declared.shelf.stop.ShelfStop.TheVariants as stop;
    ghost use Rattle.hu_run.specs.declared.stop.Stop.TheVariants as job;

    ghost from_gives = { λ _ e. e ≡ stop.Job job.WriteFailed };

    fn from(_failed: Failed) -> Self {
        ShelfStop::Job(Stop::WriteFailed)
    }
}
