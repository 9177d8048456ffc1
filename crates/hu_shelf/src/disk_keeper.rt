//! A keeper of files of the system.

ghost use Rattle.std.specs.Prelude.{◌≡◌, ℕ, length, OnOk, OnErr, IfOk};
ghost use Rattle.std.specs.Io.{ReadsAtMost};
ghost use Rattle.hu_io.specs.Count.{Counts};
ghost use Rattle.hu_shelf.specs.DiskKeeper.{system_keeper};
ghost use Rattle.hu_shelf.specs.Keeper.{Loads, Replaces};

use crate::keeper::{KeepFault, Keeper};
use hu_io::Failed;
use std::alloc::{AllocError, Global};
use std::fs::{File, OpenFile};
use std::io::{ErrorKind, Read, Seek, SeekFrom, Write};
use std::marker::Model;
use std::{fs, io, rt};

/// Files of the system, by their paths. A text is written to a file beside it whose name ends in `.new`, brought to the
/// disk, and then given its name, so that the name has the old text or the new one whatever happens. Every error counts
/// as a fault, also want of memory for a name. A file that isn't there is an empty text, and
/// what isn't a file, as a device or a pipe, can't be read.
#[derive(Drop)]
pub struct DiskKeeper<R: rt::Files> {
    alloc: Global,
    files: R,
    faults: u64,
}

impl<R: rt::Files> Model for DiskKeeper<R> {
    ghost Value = { ℕ };

    ghost view = { λ d. d.faults };
}

impl<R: rt::Files> DiskKeeper<R> {
    /// Files are opened and renamed by `files`. The count is 0. No file is opened, and no memory is taken.
    pub fn new(alloc: Global, files: R) -> DiskKeeper<R>
        ensures { result ≡ 0 }
    {
        DiskKeeper {
            alloc,
            files,
            faults: 0,
        }
    }

    /// How many calls failed, at most 2^64 - 1.
    pub fn faults(&self) -> u64
        ensures { result ≡ self.now }
    {
        self.faults
    }

    /// Reads a file from the place. One that isn't there has no byte; what isn't a file, as a device, is an error.
    fn read(&self, name: &str, at: u64, into: &mut [u8]) -> io::Result<usize>
        ensures { ReadsAtMost result into.new }
    {
        let mut file = match fs::open(&self.files, name) {
            Ok(file) => file,
            Err(error) if error.kind() == ErrorKind::NotFound => return Ok(0),
            Err(error) => return Err(error),
        };
        if !file.metadata()?.is_file() {
            return Err(io::Error::from(ErrorKind::InvalidInput));
        }
        if at > 0 {
            file.seek(SeekFrom::Start(at))?;
        }
        file.read(into)
    }

    /// The name of the file beside this one.
    fn beside(&self, name: &str) -> Result<String, AllocError> {
        format!(in self.alloc; "{name}.new")
    }

    /// Writes a text to a new file, or over one that is there, and brings it to the disk.
    fn write(&self, name: &str, text: &[u8]) -> io::Result<()> {
        let mut file = fs::create(&self.files, name)?;
        file.write_all(text)?;
        file.sync_all()
    }

    /// Puts a text under a name, by way of a file beside it, which is removed where that fails.
    fn put(&self, name: &str, beside: &str, text: &[u8]) -> io::Result<()> {
        let done = self.write_and_rename(name, beside, text);
        if done.is_err() {
            let _ = fs::remove_file(&self.files, beside);
        }
        done
    }

    /// Writes a text to the file beside a name, and gives it the name.
    fn write_and_rename(&self, name: &str, beside: &str, text: &[u8]) -> io::Result<()> {
        self.write(beside, text)?;
        fs::rename(&self.files, beside, name)
    }

    /// Puts a text under a name.
    fn store(&self, name: &str, text: &[u8]) -> Result<(), KeepFault> {
        let Ok(beside) = self.beside(name) else {
            return Err(KeepFault::NoMemory);
        };
        match self.put(name, beside.as_str(), text) {
            Ok(()) => Ok(()),
            Err(_) => Err(KeepFault::Failed),
        }
    }
}

/// The same answer, and one more fault where it is an error.
fn counted<T, E>(answer: Result<T, E>, faults: &mut u64) -> Result<T, E>
    ensures same { result ≡ answer }
    ensures counts { Counts answer faults.old faults.new }
{
    if answer.is_err() {
        *faults = faults.saturating_add(1);
    }
    answer
}

impl<R: rt::Files> Keeper for DiskKeeper<R> {
    ghost state = { system_keeper };

    fn load(&mut self, name: &str, at: u64, into: &mut [u8]) -> Result<usize, Failed>
        ensures bound { ReadsAtMost result into.new }
        ensures loads { Loads (system_keeper self.old) (system_keeper self.new)
            name.now at into.new result }
        ensures counts { Counts result self.old self.new }
    {
        let read = self.read(name, at, into).map_err(|_| Failed);
        counted(read, &mut self.faults)
    }

    fn replace(&mut self, name: &str, text: &[u8]) -> Result<(), KeepFault>
        ensures replaces { Replaces (system_keeper self.old) (system_keeper self.new)
            name.now text.now result }
        ensures counts { Counts result self.old self.new }
    {
        let stored = self.store(name, text);
        counted(stored, &mut self.faults)
    }
}
