//! Numbers, items and tokens of a line.

ghost use Rattle.std.specs.Prelude.{◌≡◌, ◌&&◌, ◌==◌, nat_lt, length, slice_index, [], ◌∷◌};
ghost use Rattle.std.specs.List.{slice_split};
ghost use Rattle.std.specs.Option.{option_map};
ghost use Rattle.hu_proof.specs.Text.{plain_number, plain_signed, plain_item, token_from, token_of, bounded, has_idle_zero};

use crate::words::cut;
use hu_kind::{Item, read_number, read_signed};

/// An item that stands with a prefix, and where it is cut the most that the prefix may earn with it and with later items.
#[derive(Clone, Copy, Debug, PartialEq, Eq)]
pub(crate) struct Token {
    pub item: Item,
    pub bound: Option<i128>,
}

/// The number that a text says without leading zeros.
pub(crate) fn plain_number(text: &[u8]) -> Option<i128>
    ensures { result ≡ plain_number text.now }
{
    if has_idle_zero(text) {
        None
    } else {
        read_number(text).ok()
    }
}

/// Whether a text begins with a `0` that isn't all of it.
fn has_idle_zero(text: &[u8]) -> bool
    ensures { result ≡ has_idle_zero text.now }
{
    text.len() > 1 && text[0] == b'0'
}

/// The number that a text says without leading zeros, perhaps after a `-`; never `-0`.
pub(crate) fn plain_signed(text: &[u8]) -> Option<i128>
    ensures { result ≡ plain_signed text.now }
{
    if text.first() != Some(&b'-') {
        plain_number(text)
    } else if text.get(1) == Some(&b'0') {
        None
    } else {
        read_signed(text).ok()
    }
}

/// The item that a text says.
pub(crate) fn plain_item(text: &[u8]) -> Option<Item>
    ensures { option_map (λ item. item.0) result ≡ plain_item text.now }
{
    let number = plain_number(text)?.unsigned_abs();
    if number > u128::from(Item::GREATEST) {
        None
    } else {
        Some(Item(number as u32))
    }
}

/// The token that a text says.
pub(crate) fn token_of(text: &[u8]) -> Option<Token>
    ensures { result ≡ token_of text.now }
{
    match cut(b'=', text) {
        Some((item, bound)) => with_bound(item, bound),
        None => without_bound(text),
    }
}

/// The token of an item alone.
fn without_bound(item: &[u8]) -> Option<Token>
    ensures { result ≡ token_from (item.now ∷ []) }
{
    let item = plain_item(item)?;
    Some(Token { item, bound: None })
}

/// The token of an item and what stands after the first `=`.
fn with_bound(item: &[u8], bound: &[u8]) -> Option<Token>
    ensures { result ≡ token_from (item.now ∷ slice_split (λ b. b == 61) bound.now) }
{
    match cut(b'=', bound) {
        Some(_) => None,
        None => bounded(plain_item(item), plain_number(bound)),
    }
}

/// The token of an item with a bound.
fn bounded(item: Option<Item>, bound: Option<i128>) -> Option<Token>
    ensures { result ≡ bounded (option_map (λ i. i.0) item) bound }
{
    Some(Token {
        item: item?,
        bound: Some(bound?),
    })
}
