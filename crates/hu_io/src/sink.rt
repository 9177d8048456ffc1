//! Sinks, which take bytes in order.

ghost use Rattle.hu_io.specs.State.{Puts, PutsAll, SinkState};

use crate::failed::Failed;

/// Takes bytes in order.
pub trait Sink {
    // The bytes so far where they are told, the count of faults, and the room and the calls that are to fail by a
    // test's plan.
    ghost state: { Self → SinkState };

    /// Appends the front of `piece`, and returns how many bytes: at least one, unless the piece is empty. A failed
    /// call appends nothing.
    fn put(&mut self, piece: &[u8]) -> Result<usize, Failed>
        ensures { Puts (state self.old) (state self.new) piece.now result };
}

/// Appends all of `bytes`, in as many calls of `put` as the sink needs. A failure may leave some of them appended,
/// but not all.
pub fn put_all<S: Sink>(sink: &mut S, bytes: &[u8]) -> Result<(), Failed>
    ensures { PutsAll (S.state sink.old) (S.state sink.new) result bytes.now }
{
    let mut sent = 0;
    while sent < bytes.len() {
        sent += sink.put(&bytes[sent..])?;
    }
    Ok(())
}
