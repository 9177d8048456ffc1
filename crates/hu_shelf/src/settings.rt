//! The settings of a store.

ghost use Rattle.std.specs.Prelude.{◌≡◌, pos, ◌≤ℤ◌, true, false, ◌&&◌, [], ◌++◌, codes, IfSome, IfNone, OnOk};
ghost use Rattle.std.specs.Fmt.{signed_decimal};
ghost use Rattle.hu_kept.specs.Kept.{fresh};
ghost use Rattle.hu_shelf.specs.Store.{is_least, is_top, least_said, settings_in, settings_line, task_word, top_said, top_word};

use crate::cut::cut;
use hu_kind::{NoMemory, read_number};
use itoa::Buffer;

/// What a store's records are kept for.
#[derive(Clone, Copy)]
pub(crate) struct Settings {
    /// The least utility, at least 1.
    pub(crate) least: i128,
    /// How many entries there may be, from 1 to 1,000,000, where there is a limit.
    pub(crate) top: Option<u32>,
    /// Whether closed itemsets alone are wanted.
    pub(crate) closed: bool,
}

impl Settings {
    /// What a line tells of them, where that is within their limits.
    pub(crate) fn read(line: &[u8]) -> Option<Settings>
        ensures some { IfSome result (λ s. settings_in line.now ≡ fresh s.least s.top s.closed) }
        ensures least { IfSome result (λ s. is_least s.least ≡ true) }
        ensures top { IfSome result (λ s. is_top s.top ≡ true) }
        ensures none { IfNone result
            ((is_least (settings_in line.now).least && is_top (settings_in line.now).top) ≡ false) }
    {
        let (task, words) = cut(line, b' ');
        let (least, top) = cut(words, b' ');
        Some(Settings {
            least: read_least(least)?,
            top: read_top(top)?,
            closed: task == b"closed".as_slice(),
        })
    }

    /// Writes their line, without a line feed.
    pub(crate) fn push_line(&self, text: &mut Vec<u8>) -> Result<(), NoMemory>
        ensures { OnOk result (text.new.items
            ≡ text.old.items ++ settings_line (fresh self.now.least self.now.top self.now.closed)) }
    {
        text.extend_from_slice(task_word(self.closed))?;
        text.push(b' ')?;
        push_number(text, self.least)?;
        text.push(b' ')?;
        push_top(text, self.top)
    }
}

/// The least utility that a word says, where it is at least 1.
fn read_least(word: &[u8]) -> Option<i128>
    ensures some { IfSome result (λ n. least_said word.now ≡ n) }
    ensures lawful { IfSome result (λ n. is_least n ≡ true) }
    ensures none { IfNone result (is_least (least_said word.now) ≡ false) }
{
    match read_number(word) {
        Ok(least) if least >= 1 => Some(least),
        _ => None,
    }
}

/// The limit that a word says, none where it is no number, where that is within its limits.
fn read_top(word: &[u8]) -> Option<Option<u32>>
    ensures some { IfSome result (λ top. top_said word.now ≡ top) }
    ensures lawful { IfSome result (λ top. is_top top ≡ true) }
    ensures none { IfNone result (is_top (top_said word.now) ≡ false) }
{
    match read_number(word) {
        Ok(top) if 1 <= top && top <= 1_000_000 => Some(Some(top as u32)),
        Ok(_) => None,
        Err(_) => Some(None),
    }
}

/// The word of a task.
fn task_word(closed: bool) -> &'static [u8]
    ensures { result.now ≡ task_word closed }
{
    if closed { b"closed" } else { b"items" }
}

/// Writes the word of a limit.
fn push_top(text: &mut Vec<u8>, top: Option<u32>) -> Result<(), NoMemory>
    ensures { OnOk result (text.new.items ≡ text.old.items ++ top_word top) }
{
    match top {
        Some(limit) => push_number(text, i128::from(limit)),
        None => Ok(text.extend_from_slice(b"all")?),
    }
}

/// Writes a number.
fn push_number(text: &mut Vec<u8>, number: i128) -> Result<(), NoMemory>
    ensures { OnOk result (text.new.items ≡ text.old.items ++ signed_decimal number) }
{
    let mut buffer = Buffer::new();
    text.extend_from_slice(buffer.format(number).as_bytes())?;
    Ok(())
}
