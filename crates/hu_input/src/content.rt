//! The content of a file, as it stands.

ghost use Rattle.std.specs.Prelude.{◌<◌, length};
ghost use Rattle.hu_input.specs.Content.{ReadsContent, ReadsOn};

use crate::input::{InputStop, new_buffer};
use hu_io::{Failed, Files};
use std::alloc::Global;

/// The first `most` bytes of a file, or all of them where there are fewer. It is read in pieces, until it ends or
/// `most` bytes are there.
pub fn read_content<'a, F: Files>(
    alloc: Global,
    files: &mut F,
    name: &'a str,
    most: usize,
) -> Result<Vec<u8>, InputStop<'a>>
    requires some { 0 < most }
    ensures { ReadsContent most (F.state files.old) (F.state files.new) name.now result }
{
    let mut buffer = new_buffer(alloc)?;
    let mut content = Vec::new(alloc);
    loop {
        let count = read_on(files, name, &mut content, buffer.as_mut_slice())?;
        if count == 0 || content.len() >= most {
            break;
        }
    }
    content.truncate(most);
    Ok(content)
}

/// Reads a piece of a file from the place where what was read of it ends, and appends it.
fn read_on<'a, F: Files>(
    files: &mut F,
    name: &'a str,
    content: &mut Vec<u8>,
    buffer: &mut [u8],
) -> Result<usize, InputStop<'a>>
    requires some { 0 < length buffer.old }
    ensures { ReadsOn (F.state files.old)
        (F.state files.new) name.now content.old.items content.new.items
        result }
{
    let count = match files.get(name, content.len() as u64, buffer) {
        Ok(count) => count,
        Err(Failed) => return Err(InputStop::ReadFailed { name }),
    };
    content.extend_from_slice(&buffer[..count])?;
    Ok(count)
}
