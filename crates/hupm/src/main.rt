//! hupm, a miner of patterns of high utility. The README has the words that it takes. All that it does is one call of
//! [`hu_run::run_all`] over the words, the files of the system, its streams, and stores in its files.
#![tactic(auto)]

use hu_io::{DiskFiles, StreamSink};
use hu_run::run_all;
use hu_shelf::DiskKeeper;
use std::process::ExitCode;
use std::rt::Env;
use std::{env, io};

#[cfg(test)]
mod tests;

/// The status where the words find no memory.
const OUT_OF_MEMORY: u8 = 5;

fn main(rt: HostRuntime) -> ExitCode {
    let Ok(words) = read_args(&rt) else {
        return ExitCode::from(OUT_OF_MEMORY);
    };
    let mut files = DiskFiles::new(rt.alloc(), rt, rt.stdin());
    let mut out = StreamSink::new(rt.stdout());
    let mut err = StreamSink::new(rt.stderr());
    let mut keeper = DiskKeeper::new(rt.alloc(), rt);
    ExitCode::from(run_all(
        rt.alloc(),
        &words,
        &mut files,
        &mut out,
        &mut err,
        &mut keeper,
    ))
}

/// The words of the command line, without the program's name.
fn read_args(rt: &(impl Env + AllocGlobal)) -> io::Result<Vec<String>> {
    let mut words = Vec::new(rt.alloc());
    for word in env::args(rt)?.skip(1) {
        words.push(word)?;
    }
    Ok(words)
}
