//! A failed read or write.

ghost use Rattle.hu_io.specs.Edge.{Answers};

use std::io;

/// A call of a file or a sink failed, and its count of faults rose.
#[derive(Clone, Copy, Debug, PartialEq, Eq)]
pub struct Failed;

/// The answer where a call of the system gave this: its number of bytes, and for an error `Failed` and one more fault.
pub(crate) fn answer(given: io::Result<usize>, faults: &mut u64) -> Result<usize, Failed>
    ensures { Answers given result faults.old faults.new }
{
    match given {
        Ok(count) => Ok(count),
        Err(_) => {
            *faults = faults.saturating_add(1);
            Err(Failed)
        }
    }
}
