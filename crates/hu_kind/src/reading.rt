//! The first token of a text, read as a number.

ghost use Rattle.std.specs.Prelude.{◌≡◌, ◌<◌, ◌≤◌, [], length, pos, slice_index, IsTrue, IfSome, IfNone};
ghost use Rattle.hu_kind.specs.Number.{number, signed_number};
ghost use Rattle.hu_kind.specs.Token.{tokens};
ghost use Rattle.hu_kind.specs.Reading.{IsFirstRead, BeginsWith};

use crate::number::{NumberFault, front_digits, read_number, read_signed};
use crate::token::{token_len, token_start};

/// The number that the first token of a text says, and what stands after that token. One pass over a token of at most
/// 18 digits, and three over another.
pub fn first_number(text: &[u8]) -> Option<(Result<i128, NumberFault>, &[u8])>
    ensures found { IfSome result (λ r. IsFirstRead number text.now r.1.now r.0) }
    ensures shorter { IfSome result (λ r. length r.1.now < length text.now) }
    ensures none { IfNone result (tokens text.now ≡ []) }
{
    let start = token_start(text)?;
    let (_, begun) = text.split_at(start);
    if let Some((value, count)) = short_number(begun) {
        let (_, rest) = begun.split_at(count);
        return Some((Ok(i128::from(value)), rest));
    }
    let (token, rest) = begun.split_at(token_len(begun));
    Some((read_number(token), rest))
}

/// The number that the first token of a text says which may have one `-` in front of its digits, and what stands after
/// that token. One pass over a token of at most 18 digits, and three over another.
pub fn first_signed(text: &[u8]) -> Option<(Result<i128, NumberFault>, &[u8])>
    ensures found { IfSome result (λ r. IsFirstRead signed_number text.now r.1.now r.0) }
    ensures shorter { IfSome result (λ r. length r.1.now < length text.now) }
    ensures none { IfNone result (tokens text.now ≡ []) }
{
    let start = token_start(text)?;
    let (_, begun) = text.split_at(start);
    if let Some((value, count)) = short_signed(begun) {
        let (_, rest) = begun.split_at(count);
        return Some((Ok(value), rest));
    }
    let (token, rest) = begun.split_at(token_len(begun));
    Some((read_signed(token), rest))
}

/// The number and the length of the token with which a text begins, where that is 1 to 18 digits.
fn short_number(text: &[u8]) -> Option<(u64, usize)>
    ensures { IfSome result (λ r. BeginsWith number text.now (pos r.0) r.1) }
{
    let (value, count) = front_digits(text);
    if count > 0 && is_end(text, count) {
        Some((value, count))
    } else {
        None
    }
}

/// Whether a text ends at a place, or a space stands there.
fn is_end(text: &[u8], place: usize) -> bool
    requires { place ≤ length text.now }
    ensures { IsTrue result → place < length text.now → slice_index text.now place ≡ 32 }
{
    place == text.len() || text[place] == b' '
}

/// The number and the length of the token with which a text begins, where that is 1 to 18 digits, perhaps after a `-`.
fn short_signed(text: &[u8]) -> Option<(i128, usize)>
    ensures { IfSome result (λ r. BeginsWith signed_number text.now r.0 r.1) }
{
    if text.first() == Some(&b'-') {
        let (value, count) = short_number(&text[1..])?;
        Some((-i128::from(value), count + 1))
    } else {
        let (value, count) = short_number(text)?;
        Some((i128::from(value), count))
    }
}
