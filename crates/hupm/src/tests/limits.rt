//! The limit of a run's bytes.

ghost use Rattle.hu_io.specs.Edge.{system_files};

use super::words_of;
use hu_io::{Failed, Files, MemorySink, SureSink};
use hu_run::run;
use std::test::Fail;

/// Files of which each holds so many bytes: marks, and the end of a line at the end of each read.
#[derive(Drop)]
struct Marks {
    length: u64,
}

impl Files for Marks {
    ghost state = { λ _. system_files 0 };

    fn get(&mut self, _name: &str, at: u64, into: &mut [u8]) -> Result<usize, Failed> {
        into.fill(b'#');
        if !into.is_empty() {
            let last = into.len() - 1;
            into[last] = b'\n';
        }
        let left = self.length.saturating_sub(at);
        Ok(left.min(into.len() as u64) as usize)
    }
}

/// The length of each file, and how a run over such files ends: 268,435,456 bytes are read whole, one more is refused.
const RUNS: [(u64, &str, u8, &str); 2] = [
    (134_217_728, "items plain 1 all f g", 0, ""),
    (
        268_435_457,
        "seq chain 1 all f",
        1,
        "hupm: f:4097: input too large\n",
    ),
];

#[test]
fn bytes_of_a_run(rt: HostRuntime) -> Result<(), Fail> {
    for (length, text, status, told) in &RUNS {
        let words = words_of(rt.alloc(), "", *text)?;
        let mut files = Marks { length: *length };
        let mut out = SureSink::new();
        let mut err = MemorySink::new(rt.alloc(), 100)?;
        assert_eq!(rt;
            run(rt.alloc(), &words, &mut files, &mut out, &mut err),
            *status
        );
        assert_eq!(rt; out.count(), 0);
        assert_eq!(rt; err.bytes(), told.as_bytes());
    }
    Ok(())
}
