//! Lines on the error stream, part by part.

ghost use Rattle.std.specs.Prelude.{flat_map};
ghost use Rattle.hu_io.specs.State.{PutsAll};
ghost use Rattle.hu_input.specs.Part.{part_text, Tells};

use hu_io::{Failed, Sink, put_all};
use itoa::Buffer;

/// A part of a line.
#[derive(Clone, Copy, Debug, PartialEq, Eq)]
pub enum Part<'a> {
    /// These bytes.
    Text(&'a str),
    /// A number in decimal digits, with a minus sign where it is below 0.
    Number(i128),
}

/// Puts a line, part by part, and tells nothing of a failure, which leaves a front of it. It takes no memory, and calls
/// the sink at least once for each part that isn't empty.
pub fn tell<E: Sink>(err: &mut E, parts: &[Part<'_>])
    ensures { Tells (E.state err.old) (E.state err.new) (flat_map part_text parts.now) }
{
    let _ = put_parts(err, parts);
}

/// Puts parts, one after the other. It takes no memory.
fn put_parts<S: Sink>(sink: &mut S, parts: &[Part<'_>]) -> Result<(), Failed>
    ensures { PutsAll (S.state sink.old) (S.state sink.new) result (flat_map part_text parts.now) }
{
    for part in parts {
        put_part(sink, *part)?;
    }
    Ok(())
}

/// Puts a part.
fn put_part<S: Sink>(sink: &mut S, part: Part<'_>) -> Result<(), Failed>
    ensures { PutsAll (S.state sink.old) (S.state sink.new) result (part_text part.entry) }
{
    match part {
        Part::Text(text) => put_all(sink, text.as_bytes()),
        Part::Number(n) => {
            let mut buffer = Buffer::new();
            put_all(sink, buffer.format(n).as_bytes())
        }
    }
}
