//! Reads and writes that fail, and files that break off.

use super::{BASE_A, BASE_A_AT_30, CLOSED_JOBS, ITEM_JOBS, SEQUENCE_JOBS, ends, files, words_of};
use hu_io::{MemoryFiles, MemorySink};
use hu_run::run;
use std::alloc::Global;
use std::process::Abort;
use std::test::Fail;

/// How many bytes a read gives at most, which read fails, and how a run of the words after a job ends.
const READS: [(usize, u64, &str, u8, &str, &str); 12] = [
    (
        65_536,
        1,
        "30 all front back",
        3,
        "",
        "hupm: read failed: front\n",
    ),
    (
        65_536,
        2,
        "30 all front back",
        3,
        "",
        "hupm: read failed: front\n",
    ),
    (
        65_536,
        3,
        "30 all front back",
        3,
        "",
        "hupm: read failed: back\n",
    ),
    (
        65_536,
        4,
        "30 all front back",
        3,
        "",
        "hupm: read failed: back\n",
    ),
    (65_536, 5, "30 all front back", 0, BASE_A_AT_30, ""),
    (65_536, 2, "30 all a", 3, "", "hupm: read failed: a\n"),
    (
        47,
        2,
        "30 all wrong",
        1,
        "",
        "hupm: wrong:2: total 21 but sum 20\n",
    ),
    (46, 2, "30 all wrong", 3, "", "hupm: read failed: wrong\n"),
    (1, 0, "30 all a", 0, BASE_A_AT_30, ""),
    (7, 0, "30 all a", 0, BASE_A_AT_30, ""),
    (1, 0, "30 all headers", 0, BASE_A_AT_30, ""),
    (7, 0, "30 all headers", 0, BASE_A_AT_30, ""),
];

/// The words after a job, the room for its answer, and how its run ends where nothing can be told.
const UNTOLD: [(&str, usize, u8, &str); 4] = [
    ("30 all wrong", 1000, 1, ""),
    ("0 all a", 1000, 2, ""),
    ("30 all missing", 1000, 3, ""),
    ("30 all a", 10, 4, "2 3 4 5 #U"),
];

const TWO_SEQUENCES: &str =
    "1[2] -1 1[5] -1 2[3] -1 -2 SUtility:10\n1[1] -1 2[4] -1 6[9] -1 5[1] -1 -2 SUtility:15\n";

/// Asserts how runs of a job end whose reads are short or fail.
fn each_read(rt: &impl Abort, alloc: Global, job: &str) -> Result<(), Fail> {
    for (most, call, rest, status, written, told) in &READS {
        let words = words_of(alloc, job, *rest)?;
        let mut files = files(alloc)?;
        files.give_at_most((*most).max(1));
        files.fail_at(*call)?;
        ends(rt, alloc, &words, &mut files, (*status, *written, *told))?;
    }
    Ok(())
}

/// Asserts that runs of a job over base A write what has room: each room but the last is too small for the answer.
fn each_room(rt: &impl Abort, alloc: Global, job: &str) -> Result<(), Fail> {
    let words = words_of(alloc, job, "30 all a")?;
    for room in 0..133 {
        let mut files = files(alloc)?;
        let mut out = MemorySink::new(alloc, room)?;
        let mut err = MemorySink::new(alloc, 100)?;
        let status = run(alloc, &words, &mut files, &mut out, &mut err);
        let front = BASE_A_AT_30.get(..room).ok_or("short")?;
        assert_eq!(rt; status, if room < 132 { 4 } else { 0 });
        assert_eq!(rt; out.bytes(), front.as_bytes());
    }
    Ok(())
}

/// Asserts that runs of a job keep their status, and what they write, where their line can't be told.
fn each_untold(rt: &impl Abort, alloc: Global, job: &str) -> Result<(), Fail> {
    for (rest, room, status, written) in &UNTOLD {
        let words = words_of(alloc, job, *rest)?;
        let mut files = files(alloc)?;
        let mut out = MemorySink::new(alloc, *room)?;
        let mut err = MemorySink::new(alloc, 100)?;
        err.fail_at(1)?;
        let answer = run(alloc, &words, &mut files, &mut out, &mut err);
        let wanted = (*status, written.as_bytes(), 1);
        assert_eq!(rt; (answer, out.bytes(), err.faults()), wanted);
        assert_eq!(rt; err.bytes(), b"".as_slice());
    }
    Ok(())
}

#[test]
fn failing_reads_and_writes(rt: HostRuntime) -> Result<(), Fail> {
    for job in &ITEM_JOBS {
        each_read(&rt, rt.alloc(), *job)?;
        each_room(&rt, rt.alloc(), *job)?;
        each_untold(&rt, rt.alloc(), *job)?;
    }
    Ok(())
}

/// How a run over a file of this content ends, and what it puts on the two sinks.
fn ending(
    alloc: Global,
    job: &str,
    rest: &str,
    text: &str,
) -> Result<(u8, MemorySink, MemorySink), Fail> {
    let words = words_of(alloc, job, rest)?;
    let mut files = MemoryFiles::new(alloc);
    files.add("f", text.as_bytes())?;
    let mut out = MemorySink::new(alloc, 1000)?;
    let mut err = MemorySink::new(alloc, 1000)?;
    let status = run(alloc, &words, &mut files, &mut out, &mut err);
    Ok((status, out, err))
}

/// Asserts that runs of two jobs end alike over each front of a text.
fn end_alike(
    rt: &impl Abort,
    alloc: Global,
    (one, other): (&str, &str),
    rest: &str,
    text: &str,
) -> Result<(), Fail> {
    for length in 0..text.len() + 1 {
        let front = text.get(..length).ok_or("short")?;
        let (status, out, err) = ending(alloc, one, rest, front)?;
        let (other_status, other_out, other_err) = ending(alloc, other, rest, front)?;
        assert_eq!(rt; other_status, status);
        assert_eq!(rt; other_out.bytes(), out.bytes());
        assert_eq!(rt; other_err.bytes(), err.bytes());
    }
    Ok(())
}

#[test]
fn fronts_of_a_file(rt: HostRuntime) -> Result<(), Fail> {
    for job in &ITEM_JOBS[1..] {
        end_alike(&rt, rt.alloc(), ("items plain", *job), "30 all f", BASE_A)?;
    }
    for job in &CLOSED_JOBS[1..] {
        end_alike(&rt, rt.alloc(), ("closed plain", *job), "30 all f", BASE_A)?;
    }
    for job in &SEQUENCE_JOBS[1..] {
        end_alike(
            &rt,
            rt.alloc(),
            ("seq plain", *job),
            "5 all f",
            TWO_SEQUENCES,
        )?;
    }
    Ok(())
}
