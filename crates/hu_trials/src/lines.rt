//! Lines of small texts in several cuts, the limits of a line and of a run, and lines that are skipped.

ghost use Rattle.std.specs.Prelude.{◌≡◌, false, None, IfOk, vec_len, OnOk};
ghost use Rattle.hu_lines.specs.Lines.{HasLine};

use hu_lines::{Fed, LineFault, Lines, is_skipped};
use std::alloc::Global;
use std::test::Fail;

/// Adds the line and a bar to a text.
fn tell(lines: &Lines, text: &mut Vec<u8>) -> Result<(), Fail>
    requires { HasLine lines.now }
{
    text.extend_from_slice(lines.line())?;
    text.push(b'|')?;
    Ok(())
}

/// Feeds a piece whole, and tells each line that ends.
fn feed_all(lines: &mut Lines, piece: &[u8], text: &mut Vec<u8>) -> Result<(), Fail>
    requires going { lines.old.ended ≡ false }
    requires accepted { lines.old.refused ≡ None }
    ensures going { lines.new.ended ≡ false }
    ensures accepted { OnOk result (lines.new.refused ≡ None) }
{
    let mut rest = piece;
    while !rest.is_empty() {
        let fed = lines.feed(rest)?;
        if fed.whole {
            tell(lines, text)?;
        }
        rest = &rest[fed.taken..];
    }
    Ok(())
}

/// The lines of one file that comes in these pieces, each with a bar after it.
fn gather(alloc: Global, pieces: &[&[u8]]) -> Result<Vec<u8>, Fail> {
    let mut text = Vec::new(alloc);
    let mut lines = Lines::new(alloc)?;
    for piece in pieces {
        feed_all(&mut lines, piece, &mut text)?;
    }
    if lines.end() {
        tell(&lines, &mut text)?;
    }
    Ok(text)
}

#[test]
fn lines_in_any_cut(rt: HostRuntime) -> Result<(), Fail> {
    for (pieces, want) in [
        (
            [b"ab\r\n\ncd\r".as_slice(), b"", b""],
            b"ab||cd|".as_slice(),
        ),
        (
            [b"a".as_slice(), b"b\r", b"\n\ncd\r"],
            b"ab||cd|".as_slice(),
        ),
        (
            [b"ab\r\n".as_slice(), b"\n", b"cd\r"],
            b"ab||cd|".as_slice(),
        ),
        ([b"\r\r\n".as_slice(), b"x", b"\n"], b"\r|x|".as_slice()),
        ([b"".as_slice(), b"", b""], b"".as_slice()),
    ] {
        let text = gather(rt.alloc(), &pieces)?;
        assert_eq!(rt; text.as_slice(), want);
    }
    Ok(())
}

#[test]
fn numbers_begin_again_in_each_file(rt: HostRuntime) -> Result<(), Fail> {
    let mut lines = Lines::new(rt.alloc())?;
    assert_eq!(rt; lines.number(), 1);
    assert_eq!(rt;
        lines.feed(b"a\nb")?,
        Fed {
            taken: 2,
            whole: true
        }
    );
    assert_eq!(rt; lines.line(), b"a".as_slice());
    assert_eq!(rt;
        lines.feed(b"b")?,
        Fed {
            taken: 1,
            whole: false
        }
    );
    assert_eq!(rt; lines.number(), 2);
    assert!(rt; lines.end());
    assert_eq!(rt; lines.line(), b"b".as_slice());
    lines.next_file();
    assert_eq!(rt; lines.number(), 1);
    assert!(rt; !lines.end());
    Ok(())
}

#[test]
fn skipped_lines(rt: HostRuntime) {
    for (line, want) in [
        (b"".as_slice(), true),
        (b"   ".as_slice(), true),
        (b"# 1".as_slice(), true),
        (b"%".as_slice(), true),
        (b"@x".as_slice(), true),
        (b" #".as_slice(), false),
        (b"\t".as_slice(), false),
        (b"1:1:1".as_slice(), false),
    ] {
        assert_eq!(rt; is_skipped(line), want);
    }
}

/// A piece of so many marks `#`.
fn marks(alloc: Global, count: usize) -> Result<Vec<u8>, Fail>
    ensures { IfOk result (λ piece. vec_len piece ≡ count) }
{
    Ok(vec![in alloc; b'#'; count]?)
}

#[test]
fn limits_of_a_line(rt: HostRuntime) -> Result<(), Fail> {
    let piece = marks(rt.alloc(), 1_048_576)?;
    let mut lines = Lines::new(rt.alloc())?;
    assert_eq!(rt;
        lines.feed(piece.as_slice())?,
        Fed {
            taken: 1_048_576,
            whole: false
        }
    );
    assert_eq!(rt;
        lines.feed(b"\n")?,
        Fed {
            taken: 1,
            whole: true
        }
    );
    assert!(rt; is_skipped(lines.line()));
    assert_eq!(rt;
        lines.feed(piece.as_slice())?,
        Fed {
            taken: 1_048_576,
            whole: false
        }
    );
    assert_eq!(rt; lines.feed(b"#"), Err(LineFault::LineTooLong { number: 2 }));
    assert_eq!(rt;
        lines.feed(b"\n"),
        Err(LineFault::LineTooLong { number: 2 })
    );
    Ok(())
}

#[test]
fn limits_of_a_run(rt: HostRuntime) -> Result<(), Fail> {
    let mut piece = marks(rt.alloc(), 1_048_575)?;
    piece.push(b'\n')?;
    let mut lines = Lines::new(rt.alloc())?;
    for number in 1..=256 {
        assert_eq!(rt;
            lines.feed(piece.as_slice())?,
            Fed {
                taken: 1_048_576,
                whole: true
            }
        );
        assert_eq!(rt; lines.number(), number);
    }
    assert_eq!(rt;
        lines.feed(b"#"),
        Err(LineFault::InputTooLarge { number: 257 })
    );
    assert_eq!(rt;
        lines.feed(b"\n"),
        Err(LineFault::InputTooLarge { number: 257 })
    );
    Ok(())
}
