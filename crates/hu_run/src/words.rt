//! The words of the command line.

ghost use Rattle.std.specs.Prelude.{◌≡◌, ◌<◌, length, IfOk};
ghost use Rattle.std.specs.Result.{result_err};
ghost use Rattle.std.specs.Str.{bytes_eq};
ghost use Rattle.hu_input.specs.Names.{texts_of};
ghost use Rattle.hu_run.specs.Job.{word_at, job, names_of, asked_of, files_of, IsLawful};

mod average;
mod certify;
mod check;
mod drill;
mod mining;
pub(crate) mod numbers;
mod search;
mod sized;

use hu_kind::Task;
use hu_mine::Engine;

/// What the words ask for.
#[derive(Clone, Copy, Debug)]
pub enum Job<'a> {
    /// The first `top` patterns of a task, or all of them, that earn at least `least` in the records of the named files.
    Mine {
        task: Task,
        engine: Engine,
        least: i128,
        top: Option<u32>,
        names: &'a [String],
    },
    /// The first `top` itemsets of `short` to `long` items, or all of them, that earn at least `least` in the records of the
    /// named files.
    Sized {
        engine: Engine,
        least: i128,
        top: Option<u32>,
        short: u32,
        long: u32,
        names: &'a [String],
    },
    /// The first `top` itemsets, or all of them, that earn at least `least` for each of their items in the records of the named
    /// files.
    Average {
        engine: Engine,
        least: i128,
        top: Option<u32>,
        names: &'a [String],
    },
    /// A certificate of all itemsets that earn at least `least` in the records of the named files.
    Certify {
        least: i128,
        names: &'a [String],
    },
    /// Whether the certificate that is named `cert` shows all itemsets that earn at least `least` in the records of the named
    /// files; and which these are.
    Check {
        least: i128,
        cert: &'a str,
        names: &'a [String],
    },
    /// The patterns of generated records, which a seed tells, by one engine after another.
    Drill {
        seed: u32,
    },
}

/// Why words are no job. Where several are, the first of this list is meant.
#[derive(Clone, Copy, Debug, PartialEq, Eq)]
pub enum WordFault {
    /// There are fewer than five words, or fewer than two where the first is `drill`, seven where it is `sized`, three where it is
    /// `certify`, four where it is `check`; or fewer than a form that begins with `shelf` has.
    TooFewWords,
    /// The first word is `drill`, and there are more than two; or more than a form that begins with `shelf` has.
    TooManyWords,
    /// The first word is `drill`, and the second is no number from 1 to 2,147,483,646.
    BadSeed,
    /// The first word is no task; or it is `shelf`, and the second is none of `new`, `add` and `list`, or the task is neither `items`
    /// nor `closed`.
    TaskUnknown,
    /// The second word is no engine that the task offers.
    EngineNotOffered,
    /// The third word, or the second where the first is `certify` or `check`, or the fifth after `shelf new`, is no number from 1 to
    /// 2^127 - 1.
    BadMinimum,
    /// The fourth word, or the sixth after `shelf new`, is neither `all` nor a number from 1 to 1,000,000.
    BadTop,
    /// The first word is `sized`, and the fifth and the sixth aren't numbers from 1 to 4,096, or fall.
    BadLengths,
    /// There are more than 64 names of files.
    TooManyFiles,
}

/// The job of the words, or their first fault. It takes no memory.
pub fn read_words(words: &[String]) -> Result<Job<'_>, WordFault>
    ensures fault { result_err result ≡ result_err (job (texts_of words.now)) }
    ensures job { IfOk result (λ found. job (texts_of words.now) ≡ Ok (asked_of found)) }
    ensures names { IfOk result (λ found. files_of found ≡ names_of (asked_of found) words.now) }
    ensures lawful { IfOk result (λ found. IsLawful (asked_of found)) }
{
    if begins_with(words, "drill") {
        drill::read(words)
    } else if begins_with(words, "sized") {
        sized::read(words)
    } else if begins_with(words, "average") {
        average::read(words)
    } else if begins_with(words, "certify") {
        certify::read(words)
    } else if begins_with(words, "check") {
        check::read(words)
    } else {
        mining::read(words)
    }
}

/// Whether the first word is this one, which isn't empty.
pub(crate) fn begins_with(words: &[String], first: &str) -> bool
    requires { 0 < length first.now }
    ensures { result ≡ bytes_eq (word_at (texts_of words.now) 0) first.now }
{
    !words.is_empty() && words[0].as_str() == first
}
