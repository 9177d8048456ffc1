//! The words of a job for itemsets of high average utility.

ghost use Rattle.std.specs.Prelude.{◌≡◌, IfOk};
ghost use Rattle.std.specs.Result.{result_err};
ghost use Rattle.hu_input.specs.Names.{texts_of};
ghost use Rattle.hu_run.specs.Job.{average_job, names_of, asked_of, files_of, IsLawful};

use super::search::{read_further_engine, read_search};
use super::{Job, WordFault};

/// The itemsets of high average utility that words ask for of which the first is `average`, or their first fault.
pub(super) fn read(words: &[String]) -> Result<Job<'_>, WordFault>
    ensures fault { result_err result ≡ result_err (average_job (texts_of words.now)) }
    ensures job { IfOk result (λ found. average_job (texts_of words.now) ≡ Ok (asked_of found)) }
    ensures names { IfOk result (λ found. files_of found ≡ names_of (asked_of found) words.now) }
    ensures lawful { IfOk result (λ found. IsLawful (asked_of found)) }
{
    if words.len() < 5 {
        return Err(WordFault::TooFewWords);
    }
    let search = read_search(read_further_engine(&words[1]), words)?;
    let names = &words[4..];
    if names.len() > 64 {
        return Err(WordFault::TooManyFiles);
    }
    Ok(Job::Average {
        engine: search.engine,
        least: search.least,
        top: search.top,
        names,
    })
}
