//! The input of a job: all its files, taken in one after the other.

ghost use Rattle.std.specs.Prelude.{pos, ◌<◌, ◌≤ℤ◌, IfOk, vec_len};
ghost use Rattle.hu_input.specs.Names.{texts_of};
ghost use Rattle.hu_input.specs.Reading.{ReadsFiles};

use crate::format::Format;
use crate::intake::Intake;
use crate::reason::Reason;
use hu_base::Base;
use hu_io::Files;
use hu_kind::NoMemory;
use std::alloc::{AllocError, AllocFailed, Global};

/// How many bytes are read at once.
const BUFFER: usize = 65_536;

/// Why files gave no records.
#[derive(Clone, Copy, Debug, PartialEq, Eq)]
pub enum InputStop<'a> {
    /// This line of this file is refused.
    Refused {
        name: &'a str,
        number: u64,
        reason: Reason,
    },
    /// A read of this file failed.
    ReadFailed {
        name: &'a str,
    },
    /// There is no memory.
    NoMemory,
}

/// Reads the files in order, each to its end, and gives a base of records for each. The first line that is refused, by
/// its own limits or where the sum passes, ends it before any further read.
pub fn read_files<'a, T: Format, F: Files>(
    alloc: Global,
    files: &mut F,
    names: &'a [String],
    carried: i128,
) -> Result<Vec<Base<T::Record>>, InputStop<'a>>
    requires { pos 0 ≤ℤ carried }
    ensures { ReadsFiles T.reading T.Record.absolute carried
        (F.state files.old) (F.state files.new) (texts_of names.now) result }
{
    let mut intake = Intake::<T>::new(alloc, carried)?;
    let mut buffer = new_buffer(alloc)?;
    let mut bases = Vec::new(alloc);
    for name in names {
        bases.push(intake.read_file(files, name.as_str(), buffer.as_mut_slice())?)?;
    }
    Ok(bases)
}

/// The buffer into which files are read.
pub(crate) fn new_buffer(alloc: Global) -> Result<Vec<u8>, NoMemory>
    ensures { IfOk result (λ buffer. 0 < vec_len buffer) }
{
    Ok(vec![in alloc; 0u8; BUFFER]?)
}

impl From<NoMemory> for InputStop<'_> {
    ghost use Rattle.std.specs.Prelude.{◌≡◌};
    ghost use Rattle.hu_input.specs.declared.input.InputStop.TheVariants as stop;

    ghost from_gives = { λ _ e. e ≡ stop.NoMemory };

    fn from(_fault: NoMemory) -> Self {
        InputStop::NoMemory
    }
}

impl From<AllocError> for InputStop<'_> {
    ghost use Rattle.std.specs.Prelude.{◌≡◌};
    ghost use Rattle.hu_input.specs.declared.input.InputStop.TheVariants as stop;

    ghost from_gives = { λ _ e. e ≡ stop.NoMemory };

    fn from(_error: AllocError) -> Self {
        InputStop::NoMemory
    }
}

impl<T: Drop> From<AllocFailed<T>> for InputStop<'_> {
    ghost use Rattle.std.specs.Prelude.{◌≡◌};
    ghost use Rattle.hu_input.specs.declared.input.InputStop.TheVariants as stop;

    ghost from_gives = { λ _ e. e ≡ stop.NoMemory };

    fn from(_failed: AllocFailed<T>) -> Self {
        InputStop::NoMemory
    }
}
