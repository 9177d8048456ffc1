//! The words of a drill.

ghost use Rattle.std.specs.Prelude.{◌≡◌, IfOk};
ghost use Rattle.std.specs.Result.{result_err};
ghost use Rattle.hu_input.specs.Names.{texts_of};
ghost use Rattle.hu_run.specs.Job.{drill_job, names_of, asked_of, files_of, IsLawful};

use super::numbers::read_seed;
use super::{Job, WordFault};

/// The drill that words ask for of which the first is `drill`, or their first fault.
pub(super) fn read(words: &[String]) -> Result<Job<'_>, WordFault>
    ensures fault { result_err result ≡ result_err (drill_job (texts_of words.now)) }
    ensures job { IfOk result (λ found. drill_job (texts_of words.now) ≡ Ok (asked_of found)) }
    ensures names { IfOk result (λ found. files_of found ≡ names_of (asked_of found) words.now) }
    ensures lawful { IfOk result (λ found. IsLawful (asked_of found)) }
{
    if words.len() < 2 {
        return Err(WordFault::TooFewWords);
    }
    if words.len() > 2 {
        return Err(WordFault::TooManyWords);
    }
    let seed = read_seed(&words[1]).ok_or(WordFault::BadSeed)?;
    Ok(Job::Drill { seed })
}
