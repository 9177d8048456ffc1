//! Readers, and the places of their next bytes.

ghost use Rattle.std.specs.Prelude.{◌≡◌, ◌≢◌, ◌↔◌, IsErr, IsTrue};
ghost use Rattle.std.specs.Io.{ReadsAtMost};
ghost use Rattle.std.specs.Io.KnownBytes.{ReadConsumes};
ghost use Rattle.hu_io.specs.Edge.{next_place};

use std::io;
use std::io::{ErrorKind, Read};

/// A reader, and the place of its next byte.
#[derive(Drop)]
pub(crate) struct Placed<T> {
    reader: T,
    next: u64,
}

impl<T> Placed<T> {
    /// The reader's next byte has this place.
    pub(crate) fn new(reader: T, next: u64) -> Placed<T>
        ensures reader { result.reader ≡ reader }
        ensures next { result.next ≡ next }
    {
        Placed { reader, next }
    }

    /// Whether the next byte has this place.
    pub(crate) fn is_at(&self, at: u64) -> bool
        ensures { IsTrue result ↔ (at ≡ self.now.next) }
    {
        at == self.next
    }
}

impl<T: Read> Placed<T> {
    /// Reads on, one read of the reader. An error of it is an error, and not the end.
    pub(crate) fn read(&mut self, into: &mut [u8]) -> io::Result<usize>
        ensures bound { ReadsAtMost result into.new }
        ensures bytes { ReadConsumes (T.remaining self.old.reader) (T.remaining self.new.reader)
            result into.new }
        ensures next { self.new.next ≡ next_place self.old.next result }
    {
        let count = self.reader.read(into)?;
        self.next = self.next.saturating_add(count as u64);
        Ok(count)
    }

    /// Reads on from this place. It fails where that isn't the next one.
    pub(crate) fn read_at(&mut self, at: u64, into: &mut [u8]) -> io::Result<usize>
        ensures bound { ReadsAtMost result into.new }
        ensures bytes { ReadConsumes (T.remaining self.old.reader) (T.remaining self.new.reader)
            result into.new }
        ensures next { self.new.next ≡ next_place self.old.next result }
        ensures elsewhere { at ≢ self.old.next → IsErr result }
    {
        if !self.is_at(at) {
            return Err(io::Error::from(ErrorKind::Unsupported));
        }
        self.read(into)
    }
}
