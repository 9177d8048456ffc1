//! Runs over texts that are too long to be written out: at the limits of a line, and at sizes at which a want of memory
//! that isn't there would show.

use super::{CLOSED_JOBS, ITEM_JOBS, SEQUENCE_JOBS, ends, words_of};
use hu_io::MemoryFiles;
use std::alloc::Global;
use std::process::Abort;
use std::test::Fail;

/// A row of 64 marks: 16,384 of them are a line of 1,048,576 bytes, which is skipped.
const MARKS: &str = "################################################################";

/// The parts of texts, in order: the name of the text, how often a part stands in it, whether a count from 1 stands before
/// it each time, and the part.
const PARTS: [(&str, u32, bool, &str); 31] = [
    ("longest line", 16_384, false, MARKS),
    ("longer line", 16_384, false, MARKS),
    ("longer line", 1, false, "#"),
    ("20 items", 20, true, " "),
    ("20 items", 1, false, ":20:"),
    ("20 items", 20, false, "1 "),
    ("all 20", 20, true, " "),
    ("100 items", 100, true, " "),
    ("100 items", 1, false, ":100:"),
    ("100 items", 100, false, "1 "),
    ("all 100", 100, true, " "),
    ("4096 items", 4096, true, " "),
    ("4096 items", 1, false, ":4096:"),
    ("4096 items", 4096, false, "1 "),
    ("all 4096", 4096, true, " "),
    ("4097 items", 1, false, "1:1:1\n"),
    ("4097 items", 4097, true, " "),
    ("4097 items", 1, false, ":4097:"),
    ("4097 items", 4097, false, "1 "),
    ("70000 records", 70_000, true, ":1:1\n"),
    ("first 1200", 1200, true, " #UTIL: 1\n"),
    ("first 1200 closed", 1200, true, " #SUP: 1 #UTIL: 1\n"),
    ("300 itemsets", 300, true, "[1] -1 "),
    ("300 itemsets", 1, false, "-2"),
    ("all 300", 300, true, " -1 "),
    ("300 alike", 300, false, "1[1] -1 "),
    ("300 alike", 1, false, "-2"),
    ("all 300 alike", 300, false, "1 -1 "),
    ("4097 cells", 1, false, "1[2] -1 -2\n"),
    ("4097 cells", 4097, false, "1[0] -1 "),
    ("4097 cells", 1, false, "-2 SUtility:0"),
];

/// How runs end of the words after a job, over one of these texts: the status, the text that is written with its end, and
/// what is told.
const ITEM_SIZES: [(&str, &str, u8, &str, &str, &str); 4] = [
    ("1 all f", "longest line", 0, "", "", ""),
    (
        "1 all f",
        "longer line",
        1,
        "",
        "",
        "hupm: f:1: line too long\n",
    ),
    ("1 1200 f", "70000 records", 0, "first 1200", "", ""),
    (
        "1 all f",
        "4097 items",
        1,
        "",
        "",
        "hupm: f:2: too many items: 4097\n",
    ),
];

const CLOSED_SIZES: [(&str, &str, u8, &str, &str, &str); 4] = [
    ("1 all f", "longest line", 0, "", "", ""),
    (
        "1 all f",
        "longer line",
        1,
        "",
        "",
        "hupm: f:1: line too long\n",
    ),
    ("1 1200 f", "70000 records", 0, "first 1200 closed", "", ""),
    (
        "1 all f",
        "4097 items",
        1,
        "",
        "",
        "hupm: f:2: too many items: 4097\n",
    ),
];

const SEQUENCE_SIZES: [(&str, &str, u8, &str, &str, &str); 4] = [
    ("1 all f", "longest line", 0, "", "", ""),
    (
        "1 all f",
        "longer line",
        1,
        "",
        "",
        "hupm: f:1: line too long\n",
    ),
    (
        "300 all f",
        "300 alike",
        0,
        "all 300 alike",
        "#UTIL: 300\n",
        "",
    ),
    (
        "1 all f",
        "4097 cells",
        1,
        "",
        "",
        "hupm: f:2: too many items: 4097\n",
    ),
];

/// One pattern reaches the minimum, the longest of one record; the plain engine lists all of them.
const DEPTHS: [(&str, &str, u8, &str, &str, &str); 9] = [
    (
        "items plain 20 all f",
        "20 items",
        0,
        "all 20",
        "#UTIL: 20\n",
        "",
    ),
    (
        "items lists 100 all f",
        "100 items",
        0,
        "all 100",
        "#UTIL: 100\n",
        "",
    ),
    (
        "items kept 100 all f",
        "100 items",
        0,
        "all 100",
        "#UTIL: 100\n",
        "",
    ),
    (
        "items project 100 all f",
        "100 items",
        0,
        "all 100",
        "#UTIL: 100\n",
        "",
    ),
    (
        "closed lists 100 all f",
        "100 items",
        0,
        "all 100",
        "#SUP: 1 #UTIL: 100\n",
        "",
    ),
    (
        "closed kept 100 all f",
        "100 items",
        0,
        "all 100",
        "#SUP: 1 #UTIL: 100\n",
        "",
    ),
    (
        "closed project 100 all f",
        "100 items",
        0,
        "all 100",
        "#SUP: 1 #UTIL: 100\n",
        "",
    ),
    (
        "items project 4096 all f",
        "4096 items",
        0,
        "all 4096",
        "#UTIL: 4096\n",
        "",
    ),
    (
        "seq chain 300 all f",
        "300 itemsets",
        0,
        "all 300",
        "#UTIL: 300\n",
        "",
    ),
];

/// Adds a part to a text so many times.
fn repeat(
    alloc: Global,
    text: &mut String,
    times: u32,
    counted: bool,
    part: &str,
) -> Result<(), Fail> {
    for count in 1..=times {
        if counted {
            text.push_str(&format!(in alloc; "{count}")?)?;
        }
        text.push_str(part)?;
    }
    Ok(())
}

/// The text of a name.
fn text_of(alloc: Global, name: &str) -> Result<String, Fail> {
    let mut text = String::new(alloc);
    for (of, times, counted, part) in &PARTS {
        if *of == name {
            repeat(alloc, &mut text, *times, *counted, *part)?;
        }
    }
    Ok(text)
}

/// Asserts that runs of a job over such texts end so.
fn each_size(
    rt: &impl Abort,
    alloc: Global,
    job: &str,
    cases: &[(&str, &str, u8, &str, &str, &str)],
) -> Result<(), Fail> {
    for (rest, name, status, written, end, told) in cases {
        let words = words_of(alloc, job, *rest)?;
        let mut files = MemoryFiles::new(alloc);
        files.add("f", text_of(alloc, *name)?.as_bytes())?;
        let mut written = text_of(alloc, *written)?;
        written.push_str(*end)?;
        let ending = (*status, written.as_str(), *told);
        ends(rt, alloc, &words, &mut files, ending)?;
    }
    Ok(())
}

#[test]
fn sizes(rt: HostRuntime) -> Result<(), Fail> {
    for job in &ITEM_JOBS {
        each_size(&rt, rt.alloc(), *job, &ITEM_SIZES)?;
    }
    for job in &CLOSED_JOBS {
        each_size(&rt, rt.alloc(), *job, &CLOSED_SIZES)?;
    }
    for job in &SEQUENCE_JOBS {
        each_size(&rt, rt.alloc(), *job, &SEQUENCE_SIZES)?;
    }
    Ok(())
}

#[test]
fn depths(rt: HostRuntime) -> Result<(), Fail> {
    each_size(&rt, rt.alloc(), "", &DEPTHS)
}
