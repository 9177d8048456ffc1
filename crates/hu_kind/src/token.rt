//! Tokens: the runs of bytes of a text without spaces.

ghost use Rattle.std.specs.Prelude.{◌≡◌, ◌≤◌, [], ◌∷◌, length, position, IfSome, IfNone};
ghost use Rattle.std.specs.Iterator.{YieldsFirstRef, item_count};
ghost use Rattle.std.specs.List.{position_or_len};
ghost use Rattle.hu_kind.specs.Token.{tokens, is_space, is_no_space};

use std::iter::FusedIterator;
use std::marker::Model;

/// The tokens of a text from left to right, as pieces of that text. It is seen as the list of those still to come. All
/// of them take one pass over the text and no memory.
#[derive(Debug, Drop)]
pub struct Tokens<'a> {
    rest: &'a [u8],
}

impl<'a> Model for Tokens<'a> {
    ghost use Rattle.std.specs.Prelude.{List, ℕ};
    ghost use Rattle.hu_kind.specs.Token.{tokens};

    ghost Value = { List (List ℕ) };

    ghost view = { λ t. tokens t.rest.now };
}

impl<'a> Tokens<'a> {
    /// The tokens of a text.
    pub fn of(text: &'a [u8]) -> Tokens<'a>
        ensures all { result ≡ tokens text.now }
        ensures few { length result ≤ length text.now }
    {
        Tokens { rest: text }
    }
}

impl<'a> Iterator for Tokens<'a> {
    type Item = &'a [u8];

    ghost next_gives = { YieldsFirstRef (λ left. left) };

    ghost remaining = { item_count (λ left. left) };

    fn next(&mut self) -> Option<&'a [u8]> {
        let (token, rest) = first_token(self.rest)?;
        self.rest = rest;
        Some(token)
    }
}

impl FusedIterator for Tokens<'_> {}

/// The first token of a text, and what stands after it.
fn first_token(text: &[u8]) -> Option<(&[u8], &[u8])>
    ensures found { IfSome result (λ r. tokens text.now ≡ r.0.now ∷ tokens r.1.now) }
    ensures none { IfNone result (tokens text.now ≡ []) }
{
    let start = token_start(text)?;
    let (_, begun) = text.split_at(start);
    Some(begun.split_at(token_len(begun)))
}

/// Where the first token of a text begins.
pub(crate) fn token_start(text: &[u8]) -> Option<usize>
    ensures { result ≡ position is_no_space text.now }
{
    text.iter().position(|byte| *byte != b' ')
}

/// Where the first space of a text stands.
fn space_place(text: &[u8]) -> Option<usize>
    ensures { result ≡ position is_space text.now }
{
    text.iter().position(|byte| *byte == b' ')
}

/// How many bytes stand before the first space.
pub(crate) fn token_len(text: &[u8]) -> usize
    ensures value { result ≡ position_or_len is_space text.now }
    ensures within { result ≤ length text.now }
{
    space_place(text).unwrap_or(text.len())
}
