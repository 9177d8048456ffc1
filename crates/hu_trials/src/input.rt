//! Files read into bases, what stops a reading, and how a refusal is told.

ghost use Rattle.hu_io.specs.MemoryFiles.{files_state};

use hu_input::{InputStop, Part, Reason, Transactions, read_files, tell};
use hu_io::{Failed, Files, MemoryFiles, MemorySink};
use hu_trans::Fault;
use std::alloc::{AllocError, Global};
use std::test::Fail;

/// Files in memory that note how they are read: how many calls weren't asked for 65,536 bytes, how many calls there were, and
/// how many gave nothing.
#[derive(Drop)]
struct Noting {
    files: MemoryFiles,
    others: u64,
    calls: u64,
    ends: u64,
}

impl Noting {
    fn new(files: MemoryFiles) -> Noting {
        Noting {
            files,
            others: 0,
            calls: 0,
            ends: 0,
        }
    }
}

impl Files for Noting {
    ghost state = { λ n. files_state n.files };

    fn get(&mut self, name: &str, at: u64, into: &mut [u8]) -> Result<usize, Failed> {
        if into.len() != 65_536 {
            self.others = self.others.saturating_add(1);
        }
        self.calls = self.calls.saturating_add(1);
        let given = self.files.get(name, at, into)?;
        if given == 0 {
            self.ends = self.ends.saturating_add(1);
        }
        Ok(given)
    }
}

/// Two files, read three bytes at a time.
fn small_files(alloc: Global) -> Result<MemoryFiles, Fail> {
    let mut files = MemoryFiles::new(alloc);
    files.add("a", b"1 2:5:2 3\n%\n1:7:7")?;
    files.add("b", b"\n4:1:1\r\n1:2\n4:3:3\n")?;
    files.give_at_most(3);
    Ok(files)
}

fn names(alloc: Global, first: &str, second: &str) -> Result<Vec<String>, Fail> {
    let mut names = Vec::new(alloc);
    names.push(String::from_str(alloc, first)?)?;
    names.push(String::from_str(alloc, second)?)?;
    Ok(names)
}

#[test]
fn a_base_for_each_file(rt: HostRuntime) -> Result<(), Fail> {
    let alloc = rt.alloc();
    let mut files = Noting::new(small_files(alloc)?);
    let names = names(alloc, "a", "a")?;
    let bases = read_files::<Transactions, Noting>(alloc, &mut files, &names, 100);
    let bases = bases.ok().ok_or("not read")?;
    let mut sums = Vec::new(alloc);
    for base in &bases {
        sums.push((base.records().len(), base.carried(), base.sum()))?;
    }
    assert_eq!(rt; sums.as_slice(), [(2, 100, 112), (2, 112, 124)].as_slice());
    assert_eq!(rt; (files.others, files.calls, files.ends), (0, 14, 2));
    Ok(())
}

#[test]
fn stops_at_the_first_cause(rt: HostRuntime) -> Result<(), Fail> {
    let alloc = rt.alloc();
    let refused = Reason::Transaction(Fault::NotThreeParts);
    let cases = [
        (
            "a",
            "b",
            0,
            11,
            InputStop::Refused {
                name: "b",
                number: 3,
                reason: refused,
            },
        ),
        (
            "a",
            "b",
            i128::MAX - 12,
            10,
            InputStop::Refused {
                name: "b",
                number: 2,
                reason: Reason::SumTooLarge,
            },
        ),
        ("c", "b", 0, 1, InputStop::ReadFailed { name: "c" }),
    ];
    for (first, second, carried, calls, stop) in cases {
        let mut files = Noting::new(small_files(alloc)?);
        let names = names(alloc, first, second)?;
        let read = read_files::<Transactions, Noting>(alloc, &mut files, &names, carried);
        assert_eq!(rt; read.err(), Some(stop));
        assert_eq!(rt; files.calls, calls);
    }
    Ok(())
}

#[test]
fn tells_of_a_reason(rt: HostRuntime) -> Result<(), Fail> {
    let mut err = MemorySink::new(rt.alloc(), 99)?;
    tell(
        &mut err,
        &[Part::Text("line "), Part::Number(-7), Part::Text(": ")],
    );
    tell(
        &mut err,
        &Reason::Transaction(Fault::CountsDiffer {
            items: 2,
            utilities: 1,
        })
        .parts(),
    );
    assert_eq!(rt; err.bytes(), b"line -7: 2 items but 1 utilities".as_slice());
    Ok(())
}
