//! Files in memory that never fail.

ghost use Rattle.std.specs.Prelude.{◌≡◌, ℕ, ◌-◌, min, List, [], Some, Ok, length, OnOk, OnErr};
ghost use Rattle.std.specs.Io.{ReadsAtMost};
ghost use Rattle.hu_io.specs.Files.{Adds, content_or_empty};
ghost use Rattle.hu_io.specs.State.{Gets};
ghost use Rattle.hu_io.specs.Sure.{sure_state};

use crate::contents::{Contents, copy_from};
use crate::failed::Failed;
use crate::files::Files;
use hu_kind::NoMemory;
use std::alloc::Global;
use std::marker::Model;

/// Files in memory of which every name is there: one that wasn't added is empty. No call of `get` fails.
#[derive(Drop)]
pub struct SureFiles {
    contents: Contents,
}

impl Model for SureFiles {
    ghost Value = { List (List ℕ × List ℕ) };

    ghost view = { λ s. s.contents };
}

impl SureFiles {
    /// Every file is empty.
    pub fn new(alloc: Global) -> SureFiles
        ensures { result ≡ [] }
    {
        SureFiles {
            contents: Contents::new(alloc),
        }
    }

    /// Gives the file `name` these bytes, in place of those that it had. Copies the name and the bytes, and compares the
    /// name as often as the number of files doubles.
    pub fn add(&mut self, name: &str, bytes: &[u8]) -> Result<(), NoMemory>
        ensures ok { OnOk result (Adds self.old self.new name.now bytes.now) }
        ensures err { OnErr result (self.new ≡ self.old) }
    {
        self.contents.add(name, bytes)
    }
}

impl Files for SureFiles {
    ghost state = { sure_state };

    /// Reads all that is there and fits.
    fn get(&mut self, name: &str, at: u64, into: &mut [u8]) -> Result<usize, Failed>
        ensures bound { ReadsAtMost result into.new }
        ensures gets { Gets (sure_state self.old)
            (sure_state self.new) name.now at into.new result }
        ensures all { result
            ≡ Ok (min (length into.new) (length (content_or_empty self.old name.now) - at)) }
        ensures same { self.new ≡ self.old }
    {
        let content = self.contents.content(name).unwrap_or(&[]);
        Ok(copy_from(content, at, usize::MAX, into))
    }
}
