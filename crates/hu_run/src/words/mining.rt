//! The words of mining.

ghost use Rattle.std.specs.Prelude.{◌≡◌, IfOk};
ghost use Rattle.std.specs.Result.{result_err};
ghost use Rattle.hu_input.specs.Names.{texts_of};
ghost use Rattle.hu_run.specs.Job.{task_of, mining_job, names_of, asked_of, files_of, IsLawful};

use super::search::{read_engine, read_search};
use super::{Job, WordFault};
use hu_kind::Task;

/// The mining that words ask for, or their first fault.
pub(super) fn read(words: &[String]) -> Result<Job<'_>, WordFault>
    ensures fault { result_err result ≡ result_err (mining_job (texts_of words.now)) }
    ensures job { IfOk result (λ found. mining_job (texts_of words.now) ≡ Ok (asked_of found)) }
    ensures names { IfOk result (λ found. files_of found ≡ names_of (asked_of found) words.now) }
    ensures lawful { IfOk result (λ found. IsLawful (asked_of found)) }
{
    if words.len() < 5 {
        return Err(WordFault::TooFewWords);
    }
    let task = read_task(&words[0]).ok_or(WordFault::TaskUnknown)?;
    let search = read_search(read_engine(task, &words[1]), words)?;
    let names = &words[4..];
    if names.len() > 64 {
        return Err(WordFault::TooManyFiles);
    }
    Ok(Job::Mine {
        task,
        engine: search.engine,
        least: search.least,
        top: search.top,
        names,
    })
}

/// The task that a word names.
fn read_task(word: &str) -> Option<Task>
    ensures { result ≡ task_of word.now }
{
    match word {
        "items" => Some(Task::Items),
        "closed" => Some(Task::Closed),
        "seq" => Some(Task::Sequences),
        _ => None,
    }
}
