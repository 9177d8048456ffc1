//! Files, read by name and place.

ghost use Rattle.std.specs.Io.{ReadsAtMost};
ghost use Rattle.hu_io.specs.State.{FilesState, Gets};

use crate::failed::Failed;

/// Files that are read by name.
pub trait Files {
    // The contents by name where they are told, the count of faults of each name, and the calls that are to fail by a
    // test's plan.
    ghost state: { Self → FilesState };

    /// Reads bytes of the file `name` from the place `at` on, counted from 0, into the front of `into`, and returns
    /// how many. None are read into room for some only where `at` is the end of the file or past it. What `into`
    /// holds after `Failed`, and after the bytes that were read, is open.
    fn get(&mut self, name: &str, at: u64, into: &mut [u8]) -> Result<usize, Failed>
        ensures bound { ReadsAtMost result into.new }
        ensures gets { Gets (state self.old) (state self.new) name.now at into.new result };
}
