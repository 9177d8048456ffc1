//! The files of the system.

ghost use Rattle.std.specs.Prelude.{◌≡◌, ℕ};
ghost use Rattle.std.specs.Io.{ReadsAtMost};
ghost use Rattle.hu_io.specs.Count.{Counts};
ghost use Rattle.hu_io.specs.Edge.{system_files};
ghost use Rattle.hu_io.specs.State.{Gets};

use crate::failed::{Failed, answer};
use crate::files::Files;
use crate::placed::Placed;
use std::alloc::Global;
use std::io::{Read, Seek, SeekFrom};
use std::marker::Model;
use std::{fs, io, rt};

/// The name of standard input.
const INPUT_NAME: &str = "-";

/// The system's files, by their paths, and standard input under the name `-`, which is read forward only: a call at
/// another place than the next one fails. Every error counts as a fault, also one of opening a file or of finding the
/// place in it, and want of memory for its name. The file that was read last stays open: it is opened anew only for
/// another place than the next one. So a file that is read front to back is opened once, and may be a pipe.
#[derive(Drop)]
pub struct DiskFiles<R: rt::Files, I> {
    alloc: Global,
    files: R,
    input: Placed<I>,
    open: Option<OpenFile<R::File>>,
    faults: u64,
}

/// A file that is open, and its name.
#[derive(Drop)]
struct OpenFile<T> {
    name: String,
    file: Placed<T>,
}

impl<R: rt::Files, I> Model for DiskFiles<R, I> {
    ghost Value = { ℕ };

    ghost view = { λ d. d.faults };
}

impl<R: rt::Files, I> DiskFiles<R, I> {
    /// Files are opened by `files`, and `input` is read at its start. The count is 0. No file is opened, and no memory
    /// is taken.
    pub fn new(alloc: Global, files: R, input: I) -> DiskFiles<R, I>
        ensures { result ≡ 0 }
    {
        DiskFiles {
            alloc,
            files,
            input: Placed::new(input, 0),
            open: None,
            faults: 0,
        }
    }

    /// How many calls failed, at most 2^64 - 1.
    pub fn faults(&self) -> u64
        ensures { result ≡ self.now }
    {
        self.faults
    }
}

impl<R: rt::Files, I> DiskFiles<R, I> {
    /// Opens the file at the place, which is sought only where it isn't the start.
    fn open_at(&self, name: &str, at: u64) -> io::Result<OpenFile<R::File>> {
        let name = String::from_str(self.alloc, name)?;
        let mut file = fs::open(&self.files, name.as_str())?;
        if at > 0 {
            file.seek(SeekFrom::Start(at))?;
        }
        Ok(OpenFile {
            name,
            file: Placed::new(file, at),
        })
    }

    /// Reads a file from the place, on from the last read where that ended there. A file of which a read failed is
    /// closed.
    fn read_file(&mut self, name: &str, at: u64, into: &mut [u8]) -> io::Result<usize>
        ensures bound { ReadsAtMost result into.new }
        ensures same { self.new ≡ self.old }
    {
        let mut open = match self.open.take() {
            Some(open) if open.name.as_str() == name && open.file.is_at(at) => open,
            _ => self.open_at(name, at)?,
        };
        let count = open.file.read(into)?;
        self.open = Some(open);
        Ok(count)
    }
}

impl<R: rt::Files, I: Read> DiskFiles<R, I> {
    /// Reads standard input or a file from the place.
    fn read(&mut self, name: &str, at: u64, into: &mut [u8]) -> io::Result<usize>
        ensures bound { ReadsAtMost result into.new }
        ensures same { self.new ≡ self.old }
    {
        if name == INPUT_NAME {
            self.input.read_at(at, into)
        } else {
            self.read_file(name, at, into)
        }
    }
}

impl<R: rt::Files, I: Read> Files for DiskFiles<R, I> {
    ghost state = { system_files };

    fn get(&mut self, name: &str, at: u64, into: &mut [u8]) -> Result<usize, Failed>
        ensures bound { ReadsAtMost result into.new }
        ensures gets { Gets (system_files self.old) (system_files self.new)
            name.now at into.new result }
        ensures counts { Counts result self.old self.new }
    {
        let read = self.read(name, at, into);
        answer(read, &mut self.faults)
    }
}
