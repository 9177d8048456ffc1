//! Small files and sinks in memory and on the system, and what a caller of generic code can show.

ghost use Rattle.std.specs.Prelude.{◌≡◌, ◌+◌, ◌≤◌, [], length, IsSome};
ghost use Rattle.hu_io.specs.Files.{content_in};
ghost use Rattle.hu_io.specs.State.{Gets};

use hu_io::{
    DiskFiles, Failed, Files, MemoryFiles, MemorySink, Sink, StreamSink, SureFiles, SureSink,
    named_files_never_fail, put_all,
};
use std::io::{ErrorKind, Read, Write};
use std::process::Abort;
use std::test::Fail;
use std::{env, fs, io, process};

/// Reads through the bound alone.
fn read<F: Files>(files: &mut F, name: &str, at: u64, into: &mut [u8]) -> Result<usize, Failed>
    ensures { Gets (F.state files.old) (F.state files.new) name.now at into.new result }
{
    files.get(name, at, into)
}

/// What a caller of generic code can show: a read of a file that is there succeeds.
fn read_named(files: &mut MemoryFiles, name: &str, into: &mut [u8]) -> usize
    requires unplanned { files.old.plan.failing ≡ [] }
    requires named { IsSome (content_in files.old.files name.now) }
{
    named_files_never_fail();
    read(files, name, 0, into).unwrap()
}

/// The same for a file of any name.
fn read_sure(files: &mut SureFiles, name: &str, into: &mut [u8]) -> usize {
    read(files, name, 0, into).unwrap()
}

/// What a caller of generic code can show: a text that fits goes out.
fn put_fitting(sink: &mut MemorySink, text: &[u8])
    requires unplanned { sink.old.plan.failing ≡ [] }
    requires fits { length sink.old.bytes + length text.now ≤ sink.old.room }
{
    put_all(sink, text).unwrap()
}

/// The same for any text.
fn put_sure(sink: &mut SureSink, text: &[u8]) {
    put_all(sink, text).unwrap()
}

/// A read into room for four bytes gives these bytes, or fails.
fn expect_read<F: Files>(
    rt: &impl Abort,
    files: &mut F,
    name: &str,
    at: u64,
    wanted: Option<&[u8]>,
) {
    let mut into = [0; 4];
    let given = match files.get(name, at, &mut into) {
        Ok(count) => Some(&into[..count]),
        Err(Failed) => None,
    };
    assert_eq!(rt; given, wanted, "{name} at {at}");
}

/// Of `abcd`, these bytes go out.
fn expect_put(rt: &impl Abort, mut sink: MemorySink, answer: Result<(), Failed>, bytes: &[u8]) {
    assert_eq!(rt; put_all(&mut sink, b"abcd"), answer);
    assert_eq!(rt; sink.bytes(), bytes);
    assert_eq!(rt; sink.faults(), u64::from(answer.is_err()));
}

/// The writer takes so many bytes of a piece, or the call fails and is counted.
fn expect_write(rt: &impl Abort, to: Pipe, piece: &[u8], answer: Result<usize, Failed>) {
    let mut sink = StreamSink::new(to);
    assert_eq!(rt; sink.put(piece), answer);
    assert_eq!(rt; sink.faults(), u64::from(answer.is_err()));
}

#[test]
fn small_sinks(rt: HostRuntime) -> Result<(), Fail> {
    let alloc = rt.alloc();
    expect_put(&rt, MemorySink::new(alloc, 3)?, Err(Failed), b"abc");
    expect_put(&rt, MemorySink::new(alloc, 4)?, Ok(()), b"abcd");
    let mut failing = MemorySink::new(alloc, 4)?;
    failing.fail_at(1)?;
    expect_put(&rt, failing, Err(Failed), b"");
    Ok(())
}

#[test]
fn small_files(rt: HostRuntime) -> Result<(), Fail> {
    let mut files = MemoryFiles::new(rt.alloc());
    files.add("f", b"abc")?;
    files.fail_at(4)?;
    expect_read(&rt, &mut files, "f", 1, Some(b"bc"));
    expect_read(&rt, &mut files, "f", 3, Some(b""));
    expect_read(&rt, &mut files, "g", 0, None);
    assert_eq!(rt; files.faults(), 1);
    expect_read(&rt, &mut files, "f", 0, None);
    assert_eq!(rt; files.faults(), 2);
    files.give_at_most(2);
    expect_read(&rt, &mut files, "f", 0, Some(b"ab"));
    Ok(())
}

#[test]
fn sure_reads(rt: HostRuntime) -> Result<(), Fail> {
    let mut files = MemoryFiles::new(rt.alloc());
    files.add("f", b"abc")?;
    assert_eq!(rt; read_named(&mut files, "f", &mut [0; 4]), 3);
    let mut files = SureFiles::new(rt.alloc());
    assert_eq!(rt; read_sure(&mut files, "g", &mut [0; 4]), 0);
    Ok(())
}

#[test]
fn sure_writes(rt: HostRuntime) -> Result<(), Fail> {
    let mut sink = MemorySink::new(rt.alloc(), 4)?;
    put_fitting(&mut sink, b"abcd");
    assert_eq!(rt; sink.bytes(), b"abcd".as_slice());
    let mut sink = SureSink::new();
    put_sure(&mut sink, b"abcd");
    assert_eq!(rt; sink.count(), 4);
    Ok(())
}

#[test]
fn sure_files(rt: HostRuntime) -> Result<(), Fail> {
    let mut files = SureFiles::new(rt.alloc());
    files.add("f", b"abc")?;
    expect_read(&rt, &mut files, "f", 1, Some(b"bc"));
    expect_read(&rt, &mut files, "f", 3, Some(b""));
    expect_read(&rt, &mut files, "g", 0, Some(b""));
    Ok(())
}

#[test]
fn disk_files(rt: HostRuntime) -> Result<(), Fail> {
    let folder = env::temp_dir(&rt)?;
    let own = process::id(rt.process());
    let path = format!(in rt.alloc(); "{}/hu_io-{own}", folder.display())?;
    fs::write(&rt, path.as_str(), "abcdef")?;
    let mut files = DiskFiles::new(rt.alloc(), rt, b"xy".as_slice());
    expect_read(&rt, &mut files, path.as_str(), 1, Some(b"bcde"));
    expect_read(&rt, &mut files, path.as_str(), 2, Some(b"cdef"));
    expect_read(&rt, &mut files, "-", 0, Some(b"xy"));
    expect_read(&rt, &mut files, path.as_str(), 0, Some(b"abcd"));
    // The file is open, and is read on.
    fs::remove_file(&rt, path.as_str())?;
    expect_read(&rt, &mut files, path.as_str(), 4, Some(b"ef"));
    expect_read(&rt, &mut files, path.as_str(), 6, Some(b""));
    assert_eq!(rt; files.faults(), 0);
    expect_read(&rt, &mut files, path.as_str(), 0, None);
    assert_eq!(rt; files.faults(), 1);
    Ok(())
}

/// A directory opens, and can't be read.
#[test]
fn directories(rt: HostRuntime) {
    let mut files = DiskFiles::new(rt.alloc(), rt, b"".as_slice());
    expect_read(&rt, &mut files, "/", 0, None);
    expect_read(&rt, &mut files, "/", 0, None);
    assert_eq!(rt; files.faults(), 2);
}

/// Gives a byte a call, and fails at the second call.
#[derive(Drop)]
struct Flawed {
    calls: u64,
}

impl Read for Flawed {
    fn read(&mut self, into: &mut [u8]) -> io::Result<usize> {
        self.calls = self.calls.saturating_add(1);
        if self.calls == 2 {
            return Err(io::Error::from(ErrorKind::BrokenPipe));
        }
        let count = into.len().min(1);
        into[..count].fill(b'x');
        Ok(count)
    }
}

#[test]
fn failed_reads(rt: HostRuntime) {
    let mut files = DiskFiles::new(rt.alloc(), rt, Flawed { calls: 0 });
    expect_read(&rt, &mut files, "-", 0, Some(b"x"));
    expect_read(&rt, &mut files, "-", 1, None);
    expect_read(&rt, &mut files, "-", 1, Some(b"x"));
    assert_eq!(rt; files.faults(), 1);
}

#[test]
fn standard_input(rt: HostRuntime) {
    let mut files = DiskFiles::new(rt.alloc(), rt, b"abcdef".as_slice());
    expect_read(&rt, &mut files, "-", 0, Some(b"abcd"));
    expect_read(&rt, &mut files, "-", 0, None);
    expect_read(&rt, &mut files, "-", 4, Some(b"ef"));
    expect_read(&rt, &mut files, "-", 6, Some(b""));
    assert_eq!(rt; files.faults(), 1);
}

/// Takes so many bytes of each piece, or fails, and may fail to flush.
#[derive(Drop)]
struct Pipe {
    takes: Option<usize>,
    flushes: bool,
}

impl Write for Pipe {
    fn write(&mut self, piece: &[u8]) -> io::Result<usize> {
        match self.takes {
            Some(most) => Ok(most.min(piece.len())),
            None => Err(io::Error::from(ErrorKind::BrokenPipe)),
        }
    }

    fn flush(&mut self) -> io::Result<()> {
        if self.flushes {
            return Ok(());
        }
        Err(io::Error::from(ErrorKind::BrokenPipe))
    }
}

#[test]
fn stream_sinks(rt: HostRuntime) -> Result<(), Fail> {
    let mut written = Vec::new(rt.alloc());
    let mut sink = StreamSink::new(&mut written);
    assert_eq!(rt; put_all(&mut sink, b"abcd"), Ok(()));
    assert_eq!(rt; written.as_slice(), b"abcd".as_slice());

    let takes = |takes| Pipe {
        takes,
        flushes: true,
    };
    expect_write(&rt, takes(Some(2)), b"abcd", Ok(2));
    expect_write(&rt, takes(Some(0)), b"abcd", Err(Failed));
    expect_write(&rt, takes(Some(0)), b"", Ok(0));
    expect_write(&rt, takes(None), b"abcd", Err(Failed));
    let stuck = Pipe {
        takes: Some(2),
        flushes: false,
    };
    expect_write(&rt, stuck, b"abcd", Err(Failed));
    Ok(())
}
