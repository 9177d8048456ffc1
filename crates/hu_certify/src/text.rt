//! The lines of a certificate.

ghost use Rattle.std.specs.Prelude.{◌≡◌, ℕ, ◌<◌, [], ◌∷◌, ◌++◌, codes, decimal, drop, length, map, OnOk};
ghost use Rattle.std.specs.Fmt.{signed_decimal};
ghost use Rattle.std.specs.List.{AllByRecursion};
ghost use Rattle.hu_totals.specs.Weights.{numbers_of};
ghost use Rattle.hu_certify.specs.Spots.{named_children};
ghost use Rattle.hu_certify.specs.Text.{bound_text, line_text, minimum_line, order_line, spaced, token_text, tokens_text};
ghost use Rattle.hu_certify.specs.Written.{gap, Writes};

use crate::fault::CertFault;
use crate::slots::Child;
use hu_kind::{Item, NoMemory};
use hu_proof::MOST_BYTES;
use itoa::Buffer;

/// Writes line 1.
pub(crate) fn push_minimum(text: &mut Vec<u8>, least: i128) -> Result<(), NoMemory>
    ensures { OnOk result (text.new.items ≡ text.old.items ++ (minimum_line least ++ 10 ∷ [])) }
{
    text.extend_from_slice(b"cert ")?;
    push_number(text, least)?;
    text.push(b'\n')?;
    Ok(())
}

/// Writes line 2.
pub(crate) fn push_order(text: &mut Vec<u8>, items: &[Item]) -> Result<(), NoMemory>
    ensures { OnOk result (text.new.items ≡ text.old.items
        ++ (order_line (numbers_of items.now) ++ 10 ∷ [])) }
{
    text.extend_from_slice(b"order")?;
    for item in items {
        push_spaced(text, *item)?;
    }
    text.push(b'\n')?;
    Ok(())
}

/// Writes an item with a space in front.
pub(crate) fn push_spaced(text: &mut Vec<u8>, item: Item) -> Result<(), NoMemory>
    ensures { OnOk result (text.new.items ≡ text.old.items ++ spaced (item.0 ∷ [])) }
{
    text.push(b' ')?;
    push_item(text, item)
}

/// Writes the line of a prefix, whose items are given with a space in front of each.
pub(crate) fn put_line(
    text: &mut Vec<u8>,
    prefix: &[u8],
    utility: i128,
    items: &[Item],
    children: &[Child],
    least: i128,
) -> Result<(), CertFault>
    requires { AllByRecursion (λ child. child.rank < length items.now) children.now }
    ensures { Writes text.old.items text.new.items
        (line_text least (drop 1 prefix.now) utility (named_children items.now children.now)
        ++ 10 ∷ []) result }
{
    push_line(text, prefix, utility, items, children, least)?;
    if text.len() > MOST_BYTES {
        return Err(CertFault::TooLong);
    }
    Ok(())
}

/// Writes the line of a prefix, however long the text becomes.
fn push_line(
    text: &mut Vec<u8>,
    prefix: &[u8],
    utility: i128,
    items: &[Item],
    children: &[Child],
    least: i128,
) -> Result<(), NoMemory>
    requires { AllByRecursion (λ child. child.rank < length items.now) children.now }
    ensures { OnOk result (text.new.items ≡ text.old.items
        ++ (line_text least (drop 1 prefix.now) utility (named_children items.now children.now)
        ++ 10 ∷ [])) }
{
    text.extend_from_slice(without_first(prefix))?;
    text.push(b':')?;
    push_number(text, utility)?;
    text.push(b':')?;
    push_tokens(text, items, children, least)?;
    text.push(b'\n')?;
    Ok(())
}

/// A text without its first byte.
fn without_first(text: &[u8]) -> &[u8]
    ensures { result.now ≡ drop 1 text.now }
{
    if text.is_empty() { text } else { &text[1..] }
}

/// Writes tokens with one space between.
fn push_tokens(
    text: &mut Vec<u8>,
    items: &[Item],
    children: &[Child],
    least: i128,
) -> Result<(), NoMemory>
    requires { AllByRecursion (λ child. child.rank < length items.now) children.now }
    ensures { OnOk result (text.new.items ≡ text.old.items
        ++ tokens_text least (named_children items.now children.now)) }
{
    for (at, child) in children.iter().enumerate() {
        push_gap(text, at)?;
        push_token(text, items[child.rank as usize], child.bound, least)?;
    }
    Ok(())
}

/// Writes what stands in front of the token at a place.
fn push_gap(text: &mut Vec<u8>, at: usize) -> Result<(), NoMemory>
    ensures { OnOk result (text.new.items ≡ text.old.items ++ gap at) }
{
    if at > 0 {
        text.push(b' ')?;
    }
    Ok(())
}

/// Writes a token: an item, and its bound where that is below the minimum.
fn push_token(text: &mut Vec<u8>, item: Item, bound: i128, least: i128) -> Result<(), NoMemory>
    ensures { OnOk result (text.new.items ≡ text.old.items ++ token_text least (item.0, bound)) }
{
    push_item(text, item)?;
    push_bound(text, bound, least)
}

/// Writes a bound where it is below the minimum.
fn push_bound(text: &mut Vec<u8>, bound: i128, least: i128) -> Result<(), NoMemory>
    ensures { OnOk result (text.new.items ≡ text.old.items ++ bound_text least bound) }
{
    if bound < least {
        text.push(b'=')?;
        push_number(text, bound)?;
    }
    Ok(())
}

/// Writes an item.
fn push_item(text: &mut Vec<u8>, item: Item) -> Result<(), NoMemory>
    ensures { OnOk result (text.new.items ≡ text.old.items ++ decimal item.0) }
{
    let mut buffer = Buffer::new();
    text.extend_from_slice(buffer.format(item.0).as_bytes())?;
    Ok(())
}

/// Writes a number.
fn push_number(text: &mut Vec<u8>, number: i128) -> Result<(), NoMemory>
    ensures { OnOk result (text.new.items ≡ text.old.items ++ signed_decimal number) }
{
    let mut buffer = Buffer::new();
    text.extend_from_slice(buffer.format(number).as_bytes())?;
    Ok(())
}
