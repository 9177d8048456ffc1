//! Pieces of a text between bytes of one kind.

ghost use Rattle.std.specs.Prelude.{◌≡◌, ◌==◌, ◌<◌, [], ◌∷◌, length, position, IfSome, IfNone};
ghost use Rattle.std.specs.List.{slice_split};
ghost use Rattle.hu_proof.specs.Text.{words};
ghost use Rattle.hu_proof.specs.Words.{words_left};

/// What stands before the first such byte of a text, and what after it.
pub(crate) fn cut(byte: u8, text: &[u8]) -> Option<(&[u8], &[u8])>
    ensures found { IfSome result (λ r. slice_split (λ b. b == byte) text.now
        ≡ r.0.now ∷ slice_split (λ b. b == byte) r.1.now) }
    ensures shorter { IfSome result (λ r. length r.1.now < length text.now) }
    ensures none { IfNone result (slice_split (λ b. b == byte) text.now ≡ text.now ∷ []) }
{
    let place = place_of(byte, text)?;
    Some((&text[..place], &text[place + 1..]))
}

/// Where the first such byte stands.
fn place_of(byte: u8, text: &[u8]) -> Option<usize>
    ensures { result ≡ position (λ b. b == byte) text.now }
{
    text.iter().position(|b| *b == byte)
}

/// The words of a text, all still to come.
pub(crate) fn begin(text: &[u8]) -> Option<&[u8]>
    ensures { words_left result ≡ words text.now }
{
    if text.is_empty() { None } else { Some(text) }
}

/// The next word of those that are still to come, and the later ones.
pub(crate) fn next_word<'a>(left: Option<&'a [u8]>) -> Option<(&'a [u8], Option<&'a [u8]>)>
    ensures some { IfSome result (λ r. words_left left.entry ≡ r.0.now ∷ words_left r.1) }
    ensures none { IfNone result (words_left left.entry ≡ []) }
{
    let text = left?;
    match cut(b' ', text) {
        Some((word, rest)) => Some((word, Some(rest))),
        None => Some((text, None)),
    }
}
