//! Lines that hold no record.

ghost use Rattle.std.specs.Prelude.{◌≡◌, ◌==◌};
ghost use Rattle.std.specs.List.{list_all};
ghost use Rattle.hu_lines.specs.Skipped.{is_marked, is_skipped_line};

/// Whether a line holds no record: it has no byte but spaces, or begins with `#`, `%` or `@`. It stops at the first
/// byte that decides.
pub fn is_skipped(line: &[u8]) -> bool
    ensures { result ≡ is_skipped_line line.now }
{
    is_blank(line) || is_marked(line)
}

/// Whether a line has no byte but spaces.
fn is_blank(line: &[u8]) -> bool
    ensures { result ≡ list_all (λ b. b == 32) line.now }
{
    line.iter().all(|byte| *byte == b' ')
}

/// Whether a line begins with one of the marks of lines to be skipped.
fn is_marked(line: &[u8]) -> bool
    ensures { result ≡ is_marked line.now }
{
    matches!(line.first(), Some(b'#' | b'%' | b'@'))
}
