//! Words, lines and names that are refused.

use super::{CLOSED_JOBS, ITEM_JOBS, SEQUENCE_JOBS, each_ends, ends, words_of};
use hu_io::MemoryFiles;
use std::alloc::Global;
use std::process::Abort;
use std::test::Fail;

const WORDS: [(&str, &str, &str); 29] = [
    ("", "", "hupm: too few words\n"),
    ("items plain 30 all", "", "hupm: too few words\n"),
    ("drill", "", "hupm: too few words\n"),
    ("drill 1 2", "", "hupm: too many words\n"),
    ("drill 0", "", "hupm: bad seed\n"),
    ("drill 2147483647", "", "hupm: bad seed\n"),
    ("drill x", "", "hupm: bad seed\n"),
    ("sized lists 0 0 0 0", "", "hupm: too few words\n"),
    ("sized project 0 0 0 0 f", "", "hupm: engine not offered\n"),
    ("sized plain 0 0 0 0 f", "", "hupm: bad minimum\n"),
    ("sized plain 1 0 0 0 f", "", "hupm: bad top\n"),
    ("sized lists 30 all 5 4 f", "", "hupm: bad lengths\n"),
    ("sized lists 30 all 1 4097 f", "", "hupm: bad lengths\n"),
    ("average project 0 0 f", "", "hupm: engine not offered\n"),
    ("average plain 0 0 f", "", "hupm: bad minimum\n"),
    ("average lists 1 0 f", "", "hupm: bad top\n"),
    ("certify 0", "", "hupm: too few words\n"),
    ("certify 0 f", "", "hupm: bad minimum\n"),
    ("check 0 c", "", "hupm: too few words\n"),
    ("check 0 c f", "", "hupm: bad minimum\n"),
    ("sets lists 0 0 f", "", "hupm: unknown task\n"),
    ("seq kept 1 all f", "", "hupm: engine not offered\n"),
    ("seq lists 1 all f", "", "hupm: engine not offered\n"),
    ("closed chain 0 0 f", "", "hupm: engine not offered\n"),
    ("items plain 0 all f", "", "hupm: bad minimum\n"),
    (
        "items plain 170141183460469231731687303715884105728 all f",
        "",
        "hupm: bad minimum\n",
    ),
    ("items plain 30 0 f", "", "hupm: bad top\n"),
    ("items plain 30 1000001 f", "", "hupm: bad top\n"),
    (
        "items plain 30 all f f f f f f f f f f f f f f f f f f f f f f f f f f f f f f f f f f f f f f f f f f f f f f f f f f f f f f f f f f f f f f f f f",
        "",
        "hupm: too many files\n",
    ),
];

const RECORD_REFUSALS: [(&str, &str, &str); 5] = [
    ("1 all a wrong", "", "hupm: wrong:2: total 21 but sum 20\n"),
    (
        "1 all wrong missing",
        "",
        "hupm: wrong:2: total 21 but sum 20\n",
    ),
    ("1 all greatest one", "", "hupm: one:1: sum too large\n"),
    ("1 all past", "", "hupm: past:2: sum too large\n"),
    (
        "1 all unlawful",
        "",
        "hupm: unlawful:1: total 6 but sum 5\n",
    ),
];

const SEQUENCE_REFUSALS: [(&str, &str, &str); 2] = [
    (
        "1 all open missing",
        "",
        "hupm: open:2: itemset left open\n",
    ),
    ("1 all heavy light", "", "hupm: light:1: sum too large\n"),
];

const MISSING: [(&str, &str, &str); 2] = [
    ("1 all missing", "", "hupm: read failed: missing\n"),
    (
        "1 all empty missing wrong",
        "",
        "hupm: read failed: missing\n",
    ),
];

/// Transactions of which the second is refused.
const RECORD_LINES: [(&str, &str); 16] = [
    ("1:1:1\n1 2\n", "hupm: f:2: not three parts\n"),
    ("1:1:1\n1:1:1:5\n", "hupm: f:2: not three parts\n"),
    ("1:1:1\n1:2\n", "hupm: f:2: not three parts\n"),
    (
        "1:1:1\n1 x:3:1 y\n",
        "hupm: f:2: bad number in part 1 at 2\n",
    ),
    ("1:1:1\n1::1\n", "hupm: f:2: bad number in part 2 at 1\n"),
    ("1:1:1\n1:1 2:1\n", "hupm: f:2: bad number in part 2 at 2\n"),
    ("1:1:1\n-1:1:1\n", "hupm: f:2: bad number in part 1 at 1\n"),
    ("1:1:1\n1:1:1 x\n", "hupm: f:2: bad number in part 3 at 2\n"),
    ("1:1:1\n:0:\n", "hupm: f:2: no items\n"),
    ("1:1:1\n1 2:3:3\n", "hupm: f:2: 2 items but 1 utilities\n"),
    (
        "1:1:1\n1 2147483648:3:1 2\n",
        "hupm: f:2: item out of range at 2\n",
    ),
    ("1:1:1\n1 1:9:2 2\n", "hupm: f:2: item 1 twice\n"),
    ("1:1:1\n1 1:4:2 2\n", "hupm: f:2: item 1 twice\n"),
    (
        "1:1:1\n1 2:0:170141183460469231731687303715884105727 1\n",
        "hupm: f:2: sum too large\n",
    ),
    ("1:1:1\n1:5:4\n", "hupm: f:2: total 5 but sum 4\n"),
    ("1:1:1\n1 2:6:8 -3\n", "hupm: f:2: total 6 but sum 5\n"),
];

/// Sequences of which the second is refused.
const SEQUENCE_LINES: [(&str, &str); 12] = [
    (
        "1[2] -1 -2\n1[x] -1 -2 SUtility:2\n",
        "hupm: f:2: bad token at 1\n",
    ),
    ("1[2] -1 -2\n1[2] -1 SUtility:2\n", "hupm: f:2: no end\n"),
    (
        "1[2] -1 -2\nSUtility:2 1[2] -1 -2\n",
        "hupm: f:2: a total alone may follow the end\n",
    ),
    (
        "1[2] -1 -2\n1[2] -1 -2 SUtility:2 -1\n",
        "hupm: f:2: a total alone may follow the end\n",
    ),
    (
        "1[2] -1 -2\n1[2] -2 SUtility:2\n",
        "hupm: f:2: itemset left open\n",
    ),
    (
        "1[2] -1 -2\n-1 1[2] -1 -2 SUtility:2\n",
        "hupm: f:2: empty itemset\n",
    ),
    ("1[2] -1 -2\n-2 SUtility:0\n", "hupm: f:2: no items\n"),
    (
        "1[2] -1 -2\n2147483648[1] -1 -2 SUtility:1\n",
        "hupm: f:2: item out of range at 1\n",
    ),
    (
        "1[2] -1 -2\n1[2] 1[3] -1 -2 SUtility:5\n",
        "hupm: f:2: item 1 twice\n",
    ),
    (
        "1[2] -1 -2\n1[-2] -1 -2 SUtility:-2\n",
        "hupm: f:2: negative utility at 1\n",
    ),
    (
        "1[2] -1 -2\n1[170141183460469231731687303715884105727] 2[1] -1 -2 SUtility:0\n",
        "hupm: f:2: sum too large\n",
    ),
    (
        "1[2] -1 -2\n1[2] -1 -2 SUtility:3\n",
        "hupm: f:2: total 3 but sum 2\n",
    ),
];

/// Asserts that a run of a job over each of these files tells of its line.
fn each_refused(
    rt: &impl Abort,
    alloc: Global,
    job: &str,
    cases: &[(&str, &str)],
) -> Result<(), Fail> {
    let words = words_of(alloc, job, "1 all f")?;
    for (text, told) in cases {
        let mut files = MemoryFiles::new(alloc);
        files.add("f", text.as_bytes())?;
        ends(rt, alloc, &words, &mut files, (1, "", *told))?;
    }
    Ok(())
}

#[test]
fn refused_words(rt: HostRuntime) -> Result<(), Fail> {
    each_ends(&rt, rt.alloc(), "", 2, &WORDS)
}

#[test]
fn refused_lines(rt: HostRuntime) -> Result<(), Fail> {
    for jobs in [&ITEM_JOBS, &CLOSED_JOBS] {
        for job in jobs {
            each_refused(&rt, rt.alloc(), *job, &RECORD_LINES)?;
            each_ends(&rt, rt.alloc(), *job, 1, &RECORD_REFUSALS)?;
            each_ends(&rt, rt.alloc(), *job, 3, &MISSING)?;
        }
    }
    for job in &SEQUENCE_JOBS {
        each_refused(&rt, rt.alloc(), *job, &SEQUENCE_LINES)?;
        each_ends(&rt, rt.alloc(), *job, 1, &SEQUENCE_REFUSALS)?;
        each_ends(&rt, rt.alloc(), *job, 3, &MISSING)?;
    }
    Ok(())
}
