//! Runs over files and sinks in memory.

mod certificates;
mod failures;
mod limits;
mod mining;
mod refusals;
mod shelf;
mod sizes;

use hu_io::{MemoryFiles, MemorySink};
use hu_kind::NoMemory;
use hu_run::run;
use std::alloc::Global;
use std::process::Abort;
use std::test::Fail;

const BASE_A: &str =
    "3 5 1 2 4 6:30:1 3 5 10 6 5\n3 5 2 4:20:3 3 8 6\n3 1 4:8:1 5 2\n3 5 1 7:27:6 6 10 5\n3 5 2 7:11:2 3 4 2\n";

const FIRST_THREE: &str = "3 5 1 2 4 6:30:1 3 5 10 6 5\n3 5 2 4:20:3 3 8 6\n3 1 4:8:1 5 2\n";

const LAST_TWO: &str = "3 5 1 7:27:6 6 10 5\n3 5 2 7:11:2 3 4 2\n";

const WRONG_TOTAL: &str = "3 5 1 2 4 6:30:1 3 5 10 6 5\n3 5 2 4:21:3 3 8 6\n3 1 4:8:1 5 2\n";

const WITH_HEADERS: &str =
    "@CONVERTED_FROM_TEXT\r\n@ITEM=1=apple\r\n# shop 7\r\n\r\n3 5 1 2 4 6:30:1 3 5 10 6 5\r\n3 5 2 4:20:3 3 8 6\r\n3 1 4:8:1 5 2\r\n3 5 1 7:27:6 6 10 5\r\n  3 5 2 7:11:2 3 4 2";

const SIGNED: &str = "1 2:-7:-10 3\n1 2 3:11:4 1 6\n2 3:5:2 3\n";

const GREATEST: &str =
    "1:170141183460469231731687303715884105727:170141183460469231731687303715884105727\n";

const PAST_THE_GREATEST: &str =
    "1:170141183460469231731687303715884105727:170141183460469231731687303715884105727\n2:1:1\n";

const GREATEST_SEQUENCE: &str = "1[170141183460469231731687303715884105727] -1 -2\n";

const FORTY_ITEMS: &str =
    "1 2 3 4 5 6 7 8 9 10 11 12 13 14 15 16 17 18 19 20 21 22 23 24 25 26 27 28 29 30 31 32 33 34 35 36 37 38 39 40:40:1 1 1 1 1 1 1 1 1 1 1 1 1 1 1 1 1 1 1 1 1 1 1 1 1 1 1 1 1 1 1 1 1 1 1 1 1 1 1 1\n";

const FORTY_ITEMSETS: &str =
    "1[1] -1 2[1] -1 3[1] -1 4[1] -1 5[1] -1 6[1] -1 7[1] -1 8[1] -1 9[1] -1 10[1] -1 11[1] -1 12[1] -1 13[1] -1 14[1] -1 15[1] -1 16[1] -1 17[1] -1 18[1] -1 19[1] -1 20[1] -1 21[1] -1 22[1] -1 23[1] -1 24[1] -1 25[1] -1 26[1] -1 27[1] -1 28[1] -1 29[1] -1 30[1] -1 31[1] -1 32[1] -1 33[1] -1 34[1] -1 35[1] -1 36[1] -1 37[1] -1 38[1] -1 39[1] -1 40[1] -1 -2 SUtility:40\n";

const LATER: &str = "1[2] -1 1[5] -1 2[3] -1 -2 SUtility:10\n";

const PLACES: &str = "1[9] -1 2[1] -1 1[2] -1 3[8] -1 -2 SUtility:20\n";

const FOUR: &str =
    "1[1] 2[4] -1 3[10] -1 6[9] -1 7[2] -1 5[1] -1 -2 SUtility:27\n1[1] 4[12] -1 3[20] -1 2[4] -1 5[1] 7[2] -1 -2 SUtility:40\n1[1] -1 2[4] -1 6[9] -1 5[1] -1 -2 SUtility:15\n1[3] 2[4] 3[5] -1 6[3] 7[1] -1 -2 SUtility:16\n";

/// The files that the tests name.
const FILES: [(&str, &str); 25] = [
    ("a", BASE_A),
    ("front", FIRST_THREE),
    ("back", LAST_TWO),
    ("wrong", WRONG_TOTAL),
    ("headers", WITH_HEADERS),
    ("empty", ""),
    ("comments", "# shop 7\n# shop 8\n"),
    ("signed", SIGNED),
    ("zero", "1 2:5:5 0\n"),
    ("lawful", "1 2:5:8 -3\n1 2:8:8 -3\n"),
    ("unlawful", "1 2:6:8 -3\n"),
    ("pair", "1 2:10:5 5\n3:1:1\n"),
    ("greatest", GREATEST),
    ("past", PAST_THE_GREATEST),
    ("one", "2:1:1\n"),
    ("forty", FORTY_ITEMS),
    ("later", LATER),
    ("places", PLACES),
    ("four", FOUR),
    ("untold", "3[1] 1[2] -1 -2\n"),
    ("apart", "1[2] -1 1[3] -1 -2 SUtility:5\n"),
    ("heavy", GREATEST_SEQUENCE),
    ("light", "2[1] -1 -2\n"),
    ("open", "1[2] -1 -2\n1[2] -2\n"),
    ("itemsets", FORTY_ITEMSETS),
];

const BASE_A_AT_30: &str =
    "2 3 4 5 #UTIL: 40\n2 3 5 #UTIL: 37\n2 4 5 #UTIL: 36\n2 3 4 #UTIL: 34\n1 3 5 #UTIL: 31\n2 5 #UTIL: 31\n1 2 3 4 5 6 #UTIL: 30\n2 4 #UTIL: 30\n";

/// The tasks with their engines.
const ITEM_JOBS: [&str; 4] = ["items plain", "items lists", "items project", "items kept"];

const CLOSED_JOBS: [&str; 4] = [
    "closed plain",
    "closed lists",
    "closed project",
    "closed kept",
];

const SEQUENCE_JOBS: [&str; 2] = ["seq plain", "seq chain"];

/// The words of a task with its engine, and the words after them.
fn words_of(alloc: Global, job: &str, rest: &str) -> Result<Vec<String>, NoMemory> {
    let mut words = Vec::new(alloc);
    for text in [job, rest] {
        for part in text.split_whitespace() {
            let mut word = String::new(alloc);
            word.push_str(part)?;
            words.push(word)?;
        }
    }
    Ok(words)
}

/// The files that the tests name.
fn files(alloc: Global) -> Result<MemoryFiles, NoMemory> {
    let mut files = MemoryFiles::new(alloc);
    for (name, text) in &FILES {
        files.add(*name, text.as_bytes())?;
    }
    Ok(files)
}

/// Asserts that a run of these words over these files ends with this status, with this text on the one sink and this on
/// the other.
fn ends(
    rt: &impl Abort,
    alloc: Global,
    words: &[String],
    files: &mut MemoryFiles,
    (status, written, told): (u8, &str, &str),
) -> Result<(), Fail> {
    let mut out = MemorySink::new(alloc, 30_000)?;
    let mut err = MemorySink::new(alloc, 1000)?;
    assert_eq!(rt; run(alloc, words, files, &mut out, &mut err), status);
    assert_eq!(rt; out.bytes(), written.as_bytes());
    assert_eq!(rt; err.bytes(), told.as_bytes());
    Ok(())
}

/// Asserts that runs of a job end with a status, and with these texts on the two sinks.
fn each_ends(
    rt: &impl Abort,
    alloc: Global,
    job: &str,
    status: u8,
    cases: &[(&str, &str, &str)],
) -> Result<(), Fail> {
    for (rest, written, told) in cases {
        let words = words_of(alloc, job, *rest)?;
        let mut files = files(alloc)?;
        ends(rt, alloc, &words, &mut files, (status, *written, *told))?;
    }
    Ok(())
}
