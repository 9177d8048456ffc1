//! The words of the command line that begin with `shelf`.

ghost use Rattle.std.specs.Prelude.{◌≡◌, ◌<◌, ◌≤◌, Ok, true, drop, length, IfOk, OnOk};
ghost use Rattle.std.specs.Str.{bytes_eq};
ghost use Rattle.std.specs.Result.{result_err};
ghost use Rattle.hu_input.specs.Names.{texts_of};
ghost use Rattle.hu_run.specs.Job.{word_at};
ghost use Rattle.hu_run.specs.ShelfAttempt.{AreFiles};
ghost use Rattle.hu_run.specs.ShelfJob.{closed_of, shelf_job, make_job, add_job, show_job, refuse_unless, is_shelf, shelving_of, IsLawful};

use crate::words::WordFault;
use crate::words::numbers::{read_least, read_top};

/// What words that begin with `shelf` ask of a store.
#[derive(Clone, Copy, Debug)]
pub enum ShelfJob<'a> {
    /// To make it, without records: the first `top` itemsets, or all of them, that earn at least `least` are its answer, or the
    /// closed ones among them.
    New {
        name: &'a str,
        closed: bool,
        least: i128,
        top: Option<u32>,
    },
    /// To add the records of a file to it.
    Add {
        name: &'a str,
        file: &'a str,
    },
    /// To show its answer.
    Show {
        name: &'a str,
    },
}

/// What the words ask of a store, or their first fault. It takes no memory.
pub fn read_shelf_words(words: &[String]) -> Result<ShelfJob<'_>, WordFault>
    requires { is_shelf (texts_of words.now) ≡ true }
    ensures fault { result_err result ≡ result_err (shelf_job (texts_of words.now)) }
    ensures job { IfOk result (λ found. shelf_job (texts_of words.now) ≡ Ok (shelving_of found)) }
    ensures lawful { IfOk result (λ found. IsLawful (shelving_of found)) }
    ensures len { OnOk result (3 ≤ length words.now) }
    ensures file { IfOk result
        (λ found. AreFiles (shelving_of found) (texts_of (drop 3 words.now))) }
{
    if words.len() < 3 {
        return Err(WordFault::TooFewWords);
    }
    if second_is(words, "new") {
        read_new(words)
    } else if second_is(words, "add") {
        read_add(words)
    } else if second_is(words, "list") {
        read_list(words)
    } else {
        Err(WordFault::TaskUnknown)
    }
}

/// Whether the second word is this one.
fn second_is(words: &[String], word: &str) -> bool
    requires { 1 < length words.now }
    ensures { result ≡ bytes_eq (word_at (texts_of words.now) 1) word.now }
{
    words[1].as_str() == word
}

/// What the words ask that begin with `shelf new`.
fn read_new(words: &[String]) -> Result<ShelfJob<'_>, WordFault>
    ensures fault { result_err result ≡ result_err (make_job (texts_of words.now)) }
    ensures job { IfOk result (λ found. make_job (texts_of words.now) ≡ Ok (shelving_of found)) }
    ensures lawful { IfOk result (λ found. IsLawful (shelving_of found)) }
    ensures len { OnOk result (3 ≤ length words.now) }
    ensures file { IfOk result
        (λ found. AreFiles (shelving_of found) (texts_of (drop 3 words.now))) }
{
    refuse_unless(6, words)?;
    let closed = read_closed(&words[3]).ok_or(WordFault::TaskUnknown)?;
    let least = read_least(&words[4]).ok_or(WordFault::BadMinimum)?;
    let top = read_top(&words[5]).ok_or(WordFault::BadTop)?;
    Ok(ShelfJob::New {
        name: &words[2],
        closed,
        least,
        top,
    })
}

/// What the words ask that begin with `shelf add`.
fn read_add(words: &[String]) -> Result<ShelfJob<'_>, WordFault>
    ensures fault { result_err result ≡ result_err (add_job (texts_of words.now)) }
    ensures job { IfOk result (λ found. add_job (texts_of words.now) ≡ Ok (shelving_of found)) }
    ensures lawful { IfOk result (λ found. IsLawful (shelving_of found)) }
    ensures len { OnOk result (3 ≤ length words.now) }
    ensures file { IfOk result
        (λ found. AreFiles (shelving_of found) (texts_of (drop 3 words.now))) }
{
    refuse_unless(4, words)?;
    Ok(ShelfJob::Add {
        name: &words[2],
        file: &words[3],
    })
}

/// What the words ask that begin with `shelf list`.
fn read_list(words: &[String]) -> Result<ShelfJob<'_>, WordFault>
    ensures fault { result_err result ≡ result_err (show_job (texts_of words.now)) }
    ensures job { IfOk result (λ found. show_job (texts_of words.now) ≡ Ok (shelving_of found)) }
    ensures lawful { IfOk result (λ found. IsLawful (shelving_of found)) }
    ensures len { OnOk result (3 ≤ length words.now) }
    ensures file { IfOk result
        (λ found. AreFiles (shelving_of found) (texts_of (drop 3 words.now))) }
{
    refuse_unless(3, words)?;
    Ok(ShelfJob::Show { name: &words[2] })
}

/// Refuses words that aren't just so many.
fn refuse_unless(count: usize, words: &[String]) -> Result<(), WordFault>
    ensures { result ≡ refuse_unless count (texts_of words.now) }
{
    if words.len() < count {
        return Err(WordFault::TooFewWords);
    }
    if words.len() > count {
        return Err(WordFault::TooManyWords);
    }
    Ok(())
}

/// Whether closed itemsets alone are wanted, by the word of a task.
fn read_closed(word: &str) -> Option<bool>
    ensures { result ≡ closed_of word.now }
{
    match word {
        "items" => Some(false),
        "closed" => Some(true),
        _ => None,
    }
}
