//! The three parts of a line.

ghost use Rattle.std.specs.Prelude.{◌≡◌, ◌==◌, ◌≤◌, [], ◌∷◌, length, position, Some, IfSome, IfNone};
ghost use Rattle.hu_trans.specs.Line.{parts};
ghost use Rattle.hu_trans.specs.Reading.{not_three_parts};

use crate::fault::Fault;
use memchr::memchr;

/// The parts of a line: what stands before, between and after its two `:`.
#[derive(Clone, Copy)]
pub(crate) struct Parts<'a> {
    pub items: &'a [u8],
    pub total: &'a [u8],
    pub utilities: &'a [u8],
}

impl<'a> Parts<'a> {
    /// The parts of a line that has just two `:`.
    pub(crate) fn of(line: &'a [u8]) -> Option<Parts<'a>>
        ensures three { IfSome result (λ p. parts line.now ≡ p.items.now ∷ p.total.now ∷ p.utilities.now ∷ []) }
        ensures other { IfNone result (not_three_parts (parts line.now) ≡ Some Fault.NotThreeParts) }
        ensures items_fit { IfSome result (λ p. length p.items.now ≤ length line.now) }
        ensures utilities_fit { IfSome result (λ p. length p.utilities.now ≤ length line.now) }
    {
        let (items, rest) = cut(line)?;
        let (total, utilities) = cut(rest)?;
        match cut(utilities) {
            Some(_) => None,
            None => Some(Parts {
                items,
                total,
                utilities,
            }),
        }
    }
}

/// What stands before the first `:` of a text, and what after it.
fn cut(text: &[u8]) -> Option<(&[u8], &[u8])>
    ensures found { IfSome result (λ r. parts text.now ≡ r.0.now ∷ parts r.1.now) }
    ensures none { IfNone result (parts text.now ≡ text.now ∷ []) }
    ensures front { IfSome result (λ r. length r.0.now ≤ length text.now) }
    ensures back { IfSome result (λ r. length r.1.now ≤ length text.now) }
{
    let place = colon_place(text)?;
    Some((&text[..place], &text[place + 1..]))
}

/// Where the first `:` of a text stands.
fn colon_place(text: &[u8]) -> Option<usize>
    ensures { result ≡ position (λ byte. byte == 58) text.now }
{
    memchr(b':', text)
}
