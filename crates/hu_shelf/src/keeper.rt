//! Keepers, which hold texts by name from one run to the next.

ghost use Rattle.std.specs.Io.{ReadsAtMost};
ghost use Rattle.hu_shelf.specs.Keeper.{KeeperState, Loads, Replaces};

use hu_io::Failed;

/// Why a text was not put under a name.
#[derive(Clone, Copy, Debug, PartialEq, Eq)]
pub enum KeepFault {
    /// The keeper failed, and its count of faults of the name rose.
    Failed,
    /// There is no memory for it.
    NoMemory,
}

/// Holds a text for each name, which is empty until one is put there.
pub trait Keeper {
    // The texts by name where they are told, the count of faults of each name, and the calls that are to fail by a
    // test's plan.
    ghost state: { Self → KeeperState };

    /// Reads bytes of the text of `name` from the place `at` on, counted from 0, into the front of `into`, and returns
    /// how many. None are read into room for some only where `at` is the end of the text or past it. What `into` holds
    /// after `Failed`, and after the bytes that were read, is open.
    fn load(&mut self, name: &str, at: u64, into: &mut [u8]) -> Result<usize, Failed>
        ensures bound { ReadsAtMost result into.new }
        ensures loads { Loads (state self.old) (state self.new) name.now at into.new result };

    /// Puts a text under a name, in place of the one there, or leaves all texts as they are.
    fn replace(&mut self, name: &str, text: &[u8]) -> Result<(), KeepFault>
        ensures { Replaces (state self.old) (state self.new) name.now text.now result };
}
