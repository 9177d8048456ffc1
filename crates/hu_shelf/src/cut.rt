//! Texts that are cut at a byte.

ghost use Rattle.std.specs.Prelude.{◌≡◌, ◌==◌, ◌<◌, length, position};
ghost use Rattle.hu_shelf.specs.Store.{after_byte, before_byte};

/// What stands before the first such byte, all where it doesn't stand there, and what after it.
pub(crate) fn cut(text: &[u8], byte: u8) -> (&[u8], &[u8])
    ensures before { result.0.now ≡ before_byte byte text.now }
    ensures after { result.1.now ≡ after_byte byte text.now }
    ensures shorter { 0 < length text.now → length result.1.now < length text.now }
{
    match place_of(text, byte) {
        Some(place) => (&text[..place], &text[place + 1..]),
        None => (text, &[]),
    }
}

/// Where the first such byte stands.
fn place_of(text: &[u8], byte: u8) -> Option<usize>
    ensures { result ≡ position (λ other. other == byte) text.now }
{
    text.iter().position(|other| *other == byte)
}
