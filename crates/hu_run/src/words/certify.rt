//! The words that ask for a certificate.

ghost use Rattle.std.specs.Prelude.{◌≡◌, IfOk};
ghost use Rattle.std.specs.Result.{result_err};
ghost use Rattle.hu_input.specs.Names.{texts_of};
ghost use Rattle.hu_run.specs.Job.{certify_job, names_of, asked_of, files_of, IsLawful};

use super::numbers::read_least;
use super::{Job, WordFault};

/// The making of a certificate that words ask for of which the first is `certify`, or their first fault.
pub(super) fn read(words: &[String]) -> Result<Job<'_>, WordFault>
    ensures fault { result_err result ≡ result_err (certify_job (texts_of words.now)) }
    ensures job { IfOk result (λ found. certify_job (texts_of words.now) ≡ Ok (asked_of found)) }
    ensures names { IfOk result (λ found. files_of found ≡ names_of (asked_of found) words.now) }
    ensures lawful { IfOk result (λ found. IsLawful (asked_of found)) }
{
    if words.len() < 3 {
        return Err(WordFault::TooFewWords);
    }
    let least = read_least(&words[1]).ok_or(WordFault::BadMinimum)?;
    let names = &words[2..];
    if names.len() > 64 {
        return Err(WordFault::TooManyFiles);
    }
    Ok(Job::Certify { least, names })
}
