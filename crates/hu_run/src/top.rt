//! The top call.

ghost use Rattle.std.specs.Prelude.{◌≡◌, ◌≢◌, IsErr, IsOkAnd};
ghost use Rattle.hu_input.specs.Names.{texts_of};
ghost use Rattle.hu_run.specs.Job.{job, IsDrill};
ghost use Rattle.hu_run.specs.Run.{Runs, streams};
ghost use Rattle.hu_run.specs.Attempt.{Ends, KeepsOut};

use crate::jobs;
use crate::stop::Stop;
use crate::words::read_words;
use hu_io::{Files, Sink};
use std::alloc::Global;

/// Does all that the program does: reads the words, does their job over the named files, writes its text on `out` and at
/// most one line on `err`, and answers the status: 0 done, 1 a refused line, 2 refused words, 3 a read failed, 4 a write
/// failed, 5 want of memory, 6 a certificate that isn't accepted or can't be given. Each file is read once, in pieces of 65,536
/// bytes, and a certificate after them; a refused line is answered before any further read. All memory is taken before the
/// first call of `out`.
pub fn run<F: Files, O: Sink, E: Sink>(
    alloc: Global,
    words: &[String],
    files: &mut F,
    out: &mut O,
    err: &mut E,
) -> u8
    ensures runs { Runs (streams (texts_of words.now) (F.state files.old) (F.state files.new)
        (O.state out.old) (O.state out.new) (E.state err.old) (E.state err.new)) result }
    ensures silent { result ≡ 0 → err.new ≡ err.old }
    ensures unread { result ≡ 2 → files.new ≡ files.old }
    ensures unwritten { result ≢ 0 → result ≢ 4 → out.new ≡ out.old }
    ensures drilled { IsOkAnd (job (texts_of words.now)) IsDrill → files.new ≡ files.old }
{
    match attempt(alloc, words, files, out) {
        Ok(()) => 0,
        Err(stop) => {
            stop.tell(err);
            stop.status()
        }
    }
}

/// Does what the words ask for, up to the text on `out`, or says what stopped it.
fn attempt<'a, F: Files, O: Sink>(
    alloc: Global,
    words: &'a [String],
    files: &mut F,
    out: &mut O,
) -> Result<(), Stop<'a>>
    ensures ends { Ends (texts_of words.now) (F.state files.old) (F.state files.new)
        (O.state out.old) (O.state out.new) result }
    ensures unread { IsErr (job (texts_of words.now)) → files.new ≡ files.old }
    ensures unwritten { KeepsOut result out.old out.new }
    ensures drilled { IsOkAnd (job (texts_of words.now)) IsDrill → files.new ≡ files.old }
{
    let job = read_words(words)?;
    let answer = jobs::answer(alloc, &job, files)?;
    answer.write(out)?;
    Ok(())
}
