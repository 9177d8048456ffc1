//! The words of a job for itemsets of some lengths.

ghost use Rattle.std.specs.Prelude.{◌≡◌, IfOk, IfSome};
ghost use Rattle.std.specs.Result.{result_err};
ghost use Rattle.hu_input.specs.Names.{texts_of};
ghost use Rattle.hu_run.specs.Job.{lengths_of, sized_job, names_of, asked_of, files_of, IsLawful, AreLengths};

use super::numbers::read_length;
use super::search::{read_further_engine, read_search};
use super::{Job, WordFault};

/// The itemsets of some lengths that words ask for of which the first is `sized`, or their first fault.
pub(super) fn read(words: &[String]) -> Result<Job<'_>, WordFault>
    ensures fault { result_err result ≡ result_err (sized_job (texts_of words.now)) }
    ensures job { IfOk result (λ found. sized_job (texts_of words.now) ≡ Ok (asked_of found)) }
    ensures names { IfOk result (λ found. files_of found ≡ names_of (asked_of found) words.now) }
    ensures lawful { IfOk result (λ found. IsLawful (asked_of found)) }
{
    if words.len() < 7 {
        return Err(WordFault::TooFewWords);
    }
    let search = read_search(read_further_engine(&words[1]), words)?;
    let (short, long) = read_lengths(&words[4], &words[5]).ok_or(WordFault::BadLengths)?;
    let names = &words[6..];
    if names.len() > 64 {
        return Err(WordFault::TooManyFiles);
    }
    Ok(Job::Sized {
        engine: search.engine,
        least: search.least,
        top: search.top,
        short,
        long,
        names,
    })
}

/// The least and the greatest length that two words say.
fn read_lengths(short: &str, long: &str) -> Option<(u32, u32)>
    ensures value { result ≡ lengths_of short.now long.now }
    ensures range { IfSome result (λ lengths. AreLengths lengths.0 lengths.1) }
{
    let lengths = (read_length(short)?, read_length(long)?);
    (lengths.0 <= lengths.1).then_some(lengths)
}
