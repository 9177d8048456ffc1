//! The words that begin with `shelf`: stores that last from one run to the next.

ghost use Rattle.std.specs.Prelude.{◌≡◌, ◌≢◌, true, false, IsErr, IsOkAnd};
ghost use Rattle.hu_input.specs.Names.{texts_of};
ghost use Rattle.hu_run.specs.Job.{job, IsDrill};
ghost use Rattle.hu_run.specs.Run.{Runs, streams};
ghost use Rattle.hu_run.specs.ShelfJob.{is_shelf, shelf_job};
ghost use Rattle.hu_run.specs.ShelfRun.{RunsShelf};
ghost use Rattle.hu_run.specs.ShelfAttempt.{Attempts, KeepsOut, scene};

mod fault;
mod jobs;
pub mod laws;
mod line;
mod stop;
mod words;

use crate::top::run;
use crate::words::begins_with;
pub use fault::StoreFault;
use hu_io::{Files, Sink};
use hu_shelf::Keeper;
use std::alloc::Global;
use stop::ShelfStop;
pub use words::{ShelfJob, read_shelf_words};

/// Does all that the program does: where the first word is `shelf`, what the words ask of a store that `keeper` has, and all
/// that [`run`] does otherwise, with the keeper left alone. The status is that of `run`, or 7 where the store doesn't allow it,
/// or 8 where the keeper failed. A store is read once and written once, and all memory but the keeper's own is taken before it
/// is written; what is told on `out` comes after that.
pub fn run_all<F: Files, O: Sink, E: Sink, K: Keeper>(
    alloc: Global,
    words: &[String],
    files: &mut F,
    out: &mut O,
    err: &mut E,
    keeper: &mut K,
) -> u8
    ensures job { is_shelf (texts_of words.now) ≡ false
        → Runs (streams (texts_of words.now) (F.state files.old) (F.state files.new)
        (O.state out.old) (O.state out.new) (E.state err.old) (E.state err.new)) result }
    ensures alone { is_shelf (texts_of words.now) ≡ false → keeper.new ≡ keeper.old }
    ensures shelf { is_shelf (texts_of words.now) ≡ true
        → RunsShelf (streams (texts_of words.now) (F.state files.old) (F.state files.new)
        (O.state out.old) (O.state out.new) (E.state err.old) (E.state err.new))
        (K.state keeper.old) (K.state keeper.new) result }
    ensures silent { result ≡ 0 → err.new ≡ err.old }
    ensures unread { result ≡ 2 → files.new ≡ files.old }
    ensures unwritten { result ≢ 0 → result ≢ 4 → out.new ≡ out.old }
    ensures unkept { result ≡ 2 → keeper.new ≡ keeper.old }
    ensures drilled { is_shelf (texts_of words.now) ≡ false
        → IsOkAnd (job (texts_of words.now)) IsDrill
        → files.new ≡ files.old }
{
    if !begins_with(words, "shelf") {
        return run(alloc, words, files, out, err);
    }
    match attempt(alloc, words, files, out, keeper) {
        Ok(()) => 0,
        Err(stop) => {
            stop.tell(err);
            stop.status()
        }
    }
}

/// Does what the words ask of a store, up to the text on `out`, or says what stopped it.
fn attempt<'a, F: Files, O: Sink, K: Keeper>(
    alloc: Global,
    words: &'a [String],
    files: &mut F,
    out: &mut O,
    keeper: &mut K,
) -> Result<(), ShelfStop<'a>>
    requires { is_shelf (texts_of words.now) ≡ true }
    ensures ends { Attempts (texts_of words.now) (scene (F.state files.old) (F.state files.new)
        (O.state out.old) (O.state out.new) (K.state keeper.old) (K.state keeper.new)) result }
    ensures unread { IsErr (shelf_job (texts_of words.now)) → files.new ≡ files.old }
    ensures unwritten { KeepsOut result out.old out.new }
    ensures unkept { IsErr (shelf_job (texts_of words.now)) → keeper.new ≡ keeper.old }
{
    let job = read_shelf_words(words)?;
    jobs::answer(alloc, &job, &words[3..], files, out, keeper)
}
