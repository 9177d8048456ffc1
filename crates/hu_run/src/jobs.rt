//! The jobs: each answers with its text, or with what stops it.

ghost use Rattle.std.specs.Prelude.{◌≡◌};
ghost use Rattle.hu_input.specs.Names.{texts_of};
ghost use Rattle.hu_run.specs.Job.{asked_of, files_of, IsLawful, IsDrill};
ghost use Rattle.hu_run.specs.Attempt.{Answers};

mod average;
mod certify;
mod check;
mod drill;
mod mine;
mod sized;

use crate::answer::Answer;
use crate::stop::Stop;
use crate::words::Job;
use hu_io::Files;
use hu_mine::Wanted;
use std::alloc::Global;

/// The answer of a job over its files, or what stops it.
pub(crate) fn answer<'a, F: Files>(
    alloc: Global,
    job: &Job<'a>,
    files: &mut F,
) -> Result<Answer, Stop<'a>>
    requires { IsLawful (asked_of job.now) }
    ensures answers { Answers (asked_of job.now)
        (F.state files.old) (F.state files.new) (texts_of (files_of job.now)) result }
    ensures drilled { IsDrill (asked_of job.now) → files.new ≡ files.old }
{
    match *job {
        Job::Mine {
            task,
            engine,
            least,
            top,
            names,
        } => mine::answer(alloc, files, task, Wanted { engine, least, top }, names),
        Job::Sized {
            engine,
            least,
            top,
            short,
            long,
            names,
        } => {
            let wanted = Wanted { engine, least, top };
            sized::answer(alloc, files, wanted, short, long, names)
        }
        Job::Average {
            engine,
            least,
            top,
            names,
        } => average::answer(alloc, files, Wanted { engine, least, top }, names),
        Job::Certify { least, names } => certify::answer(alloc, files, least, names),
        Job::Check { least, cert, names } => check::answer(alloc, files, least, cert, names),
        Job::Drill { seed } => Ok(drill::answer(alloc, seed)?),
    }
}
