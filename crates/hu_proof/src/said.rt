//! What the line of a prefix says. No word of it is copied.

ghost use Rattle.std.specs.Prelude.{◌≡◌, ◌==◌, None, is_some, [], ◌∷◌, IfSome, IfNone};
ghost use Rattle.std.specs.List.{slice_split};
ghost use Rattle.hu_proof.specs.Text.{each, plain_item, said_in, said_of, token_of, words};
ghost use Rattle.hu_proof.specs.Words.{are_those, numbers_of, IsLine};

use crate::token::{plain_item, plain_signed, token_of};
use crate::words::{begin, cut, next_word};
use hu_kind::Item;

/// A line of its form: the text of a prefix, a utility, and the text of tokens.
#[derive(Clone, Copy)]
pub(crate) struct Line<'a> {
    pub prefix: &'a [u8],
    pub utility: i128,
    pub tokens: &'a [u8],
}

/// What a line says, where it is of its form.
pub(crate) fn line_of(text: &[u8]) -> Option<Line<'_>>
    ensures some { IfSome result
        (λ line. IsLine text.now line.prefix.now line.utility line.tokens.now) }
    ensures none { IfNone result (said_of text.now ≡ None) }
{
    let (prefix, utility, tokens) = parts_of(text)?;
    let utility = plain_signed(utility)?;
    if are_items(prefix) && are_tokens(tokens) {
        Some(Line {
            prefix,
            utility,
            tokens,
        })
    } else {
        None
    }
}

/// The parts of a line that has just two `:`.
fn parts_of(text: &[u8]) -> Option<(&[u8], &[u8], &[u8])>
    ensures some { IfSome result (λ r. slice_split (λ b. b == 58) text.now
        ≡ r.0.now ∷ r.1.now ∷ r.2.now ∷ []) }
    ensures none { IfNone result (said_of text.now ≡ None) }
{
    let (prefix, rest) = cut(b':', text)?;
    let (utility, tokens) = cut(b':', rest)?;
    match cut(b':', tokens) {
        Some(_) => None,
        None => Some((prefix, utility, tokens)),
    }
}

/// Whether a text is items with one space between.
fn are_items(text: &[u8]) -> bool
    ensures { result ≡ is_some (each plain_item (words text.now)) }
{
    let mut left = begin(text);
    'words: while let Some((word, more)) = next_word(left) {
        if plain_item(word).is_none() {
            return false;
        }
        left = more;
    }
    true
}

/// Whether a text is tokens with one space between.
fn are_tokens(text: &[u8]) -> bool
    ensures { result ≡ is_some (each token_of (words text.now)) }
{
    let mut left = begin(text);
    'words: while let Some((word, more)) = next_word(left) {
        if token_of(word).is_none() {
            return false;
        }
        left = more;
    }
    true
}

/// Whether a text is just these items.
pub(crate) fn is_prefix(text: &[u8], items: &[Item]) -> bool
    ensures { result ≡ are_those (each plain_item (words text.now)) (numbers_of items.now) }
{
    let mut left = begin(text);
    let mut rest = items;
    'words: while let Some((word, more)) = next_word(left) {
        let Some((item, others)) = rest.split_first() else {
            return false;
        };
        if plain_item(word) != Some(*item) {
            return false;
        }
        left = more;
        rest = others;
    }
    rest.is_empty()
}
