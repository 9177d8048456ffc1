//! Runs that mine, by each engine of their task.

use super::{BASE_A_AT_30, CLOSED_JOBS, ITEM_JOBS, SEQUENCE_JOBS, each_ends};
use std::test::Fail;

const BASE_A_TWICE_AT_60: &str =
    "2 3 4 5 #UTIL: 80\n2 3 5 #UTIL: 74\n2 4 5 #UTIL: 72\n2 3 4 #UTIL: 68\n1 3 5 #UTIL: 62\n2 5 #UTIL: 62\n1 2 3 4 5 6 #UTIL: 60\n2 4 #UTIL: 60\n";

const BASE_A_64_TIMES_AT_1920: &str =
    "2 3 4 5 #UTIL: 2560\n2 3 5 #UTIL: 2368\n2 4 5 #UTIL: 2304\n2 3 4 #UTIL: 2176\n1 3 5 #UTIL: 1984\n2 5 #UTIL: 1984\n1 2 3 4 5 6 #UTIL: 1920\n2 4 #UTIL: 1920\n";

const CLOSED_AT_30: &str =
    "2 3 4 5 #SUP: 2 #UTIL: 40\n2 3 5 #SUP: 3 #UTIL: 37\n1 3 5 #SUP: 2 #UTIL: 31\n1 2 3 4 5 6 #SUP: 1 #UTIL: 30\n";

const CLOSED_TWICE_AT_60: &str =
    "2 3 4 5 #SUP: 4 #UTIL: 80\n2 3 5 #SUP: 6 #UTIL: 74\n1 3 5 #SUP: 4 #UTIL: 62\n1 2 3 4 5 6 #SUP: 2 #UTIL: 60\n";

const CLOSED_64_TIMES_AT_1920: &str =
    "2 3 4 5 #SUP: 128 #UTIL: 2560\n2 3 5 #SUP: 192 #UTIL: 2368\n1 3 5 #SUP: 128 #UTIL: 1984\n1 2 3 4 5 6 #SUP: 64 #UTIL: 1920\n";

const ITEM_RUNS: [(&str, &str, &str); 14] = [
    ("30 all a", BASE_A_AT_30, ""),
    ("30 all headers", BASE_A_AT_30, ""),
    ("30 all front back", BASE_A_AT_30, ""),
    ("60 all a a", BASE_A_TWICE_AT_60, ""),
    (
        "1920 all a a a a a a a a a a a a a a a a a a a a a a a a a a a a a a a a a a a a a a a a a a a a a a a a a a a a a a a a a a a a a a a a",
        BASE_A_64_TIMES_AT_1920,
        "",
    ),
    (
        "1 3 a",
        "2 3 4 5 #UTIL: 40\n2 3 5 #UTIL: 37\n2 4 5 #UTIL: 36\n",
        "",
    ),
    (
        "1 5 a",
        "2 3 4 5 #UTIL: 40\n2 3 5 #UTIL: 37\n2 4 5 #UTIL: 36\n2 3 4 #UTIL: 34\n1 3 5 #UTIL: 31\n",
        "",
    ),
    ("1 all empty", "", ""),
    ("1 all comments", "", ""),
    ("1 all empty comments", "", ""),
    ("5 all zero", "1 #UTIL: 5\n1 2 #UTIL: 5\n", ""),
    (
        "10 all signed",
        "2 3 #UTIL: 12\n1 2 3 #UTIL: 11\n1 3 #UTIL: 10\n",
        "",
    ),
    ("10 all lawful", "1 #UTIL: 16\n1 2 #UTIL: 10\n", ""),
    (
        "170141183460469231731687303715884105727 all greatest",
        "1 #UTIL: 170141183460469231731687303715884105727\n",
        "",
    ),
];

const CLOSED_RUNS: [(&str, &str, &str); 11] = [
    ("30 all a", CLOSED_AT_30, ""),
    ("30 all headers", CLOSED_AT_30, ""),
    ("30 all front back", CLOSED_AT_30, ""),
    ("60 all a a", CLOSED_TWICE_AT_60, ""),
    (
        "1920 all a a a a a a a a a a a a a a a a a a a a a a a a a a a a a a a a a a a a a a a a a a a a a a a a a a a a a a a a a a a a a a a a",
        CLOSED_64_TIMES_AT_1920,
        "",
    ),
    (
        "30 2 a",
        "2 3 4 5 #SUP: 2 #UTIL: 40\n2 3 5 #SUP: 3 #UTIL: 37\n",
        "",
    ),
    (
        "1 2 pair",
        "1 2 #SUP: 1 #UTIL: 10\n3 #SUP: 1 #UTIL: 1\n",
        "",
    ),
    ("1 all empty", "", ""),
    ("1 all comments", "", ""),
    ("1 all empty comments", "", ""),
    (
        "170141183460469231731687303715884105727 all greatest",
        "1 #SUP: 1 #UTIL: 170141183460469231731687303715884105727\n",
        "",
    ),
];

const SEQUENCE_RUNS: [(&str, &str, &str); 10] = [
    (
        "7 all later",
        "1 -1 1 -1 2 -1 #UTIL: 10\n1 -1 2 -1 #UTIL: 8\n1 -1 1 -1 #UTIL: 7\n",
        "",
    ),
    (
        "17 all places",
        "1 -1 2 -1 1 -1 3 -1 #UTIL: 20\n1 -1 1 -1 3 -1 #UTIL: 19\n1 -1 2 -1 3 -1 #UTIL: 18\n1 -1 3 -1 #UTIL: 17\n",
        "",
    ),
    (
        "40 all four",
        "1 4 -1 3 -1 2 -1 5 7 -1 #UTIL: 40\n3 -1 7 -1 #UTIL: 40\n",
        "",
    ),
    ("1 1 four", "1 4 -1 3 -1 2 -1 5 7 -1 #UTIL: 40\n", ""),
    (
        "2560 all four four four four four four four four four four four four four four four four four four four four four four four four four four four four four four four four four four four four four four four four four four four four four four four four four four four four four four four four four four four four four four four four",
        "1 4 -1 3 -1 2 -1 5 7 -1 #UTIL: 2560\n3 -1 7 -1 #UTIL: 2560\n",
        "",
    ),
    (
        "1 all untold",
        "1 3 -1 #UTIL: 3\n1 -1 #UTIL: 2\n3 -1 #UTIL: 1\n",
        "",
    ),
    ("3 all apart", "1 -1 1 -1 #UTIL: 5\n1 -1 #UTIL: 3\n", ""),
    ("1 all empty", "", ""),
    ("1 all comments", "", ""),
    ("1 all empty comments", "", ""),
];

const AVERAGE_RUNS: [(&str, &str, &str); 4] = [
    (
        "14 all a",
        "2 #UTIL: 22 #LEN: 1\n1 #UTIL: 20 #LEN: 1\n2 5 #UTIL: 31 #LEN: 2\n2 4 #UTIL: 30 #LEN: 2\n5 #UTIL: 15 #LEN: 1\n1 3 #UTIL: 28 #LEN: 2\n2 3 #UTIL: 28 #LEN: 2\n4 #UTIL: 14 #LEN: 1\n",
        "",
    ),
    (
        "1 4 a",
        "2 #UTIL: 22 #LEN: 1\n1 #UTIL: 20 #LEN: 1\n2 5 #UTIL: 31 #LEN: 2\n2 4 #UTIL: 30 #LEN: 2\n",
        "",
    ),
    (
        "5 all signed",
        "3 #UTIL: 9 #LEN: 1\n2 #UTIL: 6 #LEN: 1\n2 3 #UTIL: 12 #LEN: 2\n1 3 #UTIL: 10 #LEN: 2\n",
        "",
    ),
    ("1 all empty", "", ""),
];

const SIZED_RUNS: [(&str, &str, &str); 3] = [
    (
        "30 all 2 3 a",
        "2 3 5 #UTIL: 37\n2 4 5 #UTIL: 36\n2 3 4 #UTIL: 34\n1 3 5 #UTIL: 31\n2 5 #UTIL: 31\n2 4 #UTIL: 30\n",
        "",
    ),
    ("1 2 1 1 front back", "2 #UTIL: 22\n1 #UTIL: 20\n", ""),
    ("30 all 6 4096 a", "1 2 3 4 5 6 #UTIL: 30\n", ""),
];

/// The record has 2^40 - 1 itemsets, and the sequence as many patterns: the plain engines would list them.
const FORTY_ITEMS_RUN: [(&str, &str, &str); 1] = [(
    "40 all forty",
    "1 2 3 4 5 6 7 8 9 10 11 12 13 14 15 16 17 18 19 20 21 22 23 24 25 26 27 28 29 30 31 32 33 34 35 36 37 38 39 40 #UTIL: 40\n",
    "",
)];

const FORTY_ITEMS_CLOSED_RUN: [(&str, &str, &str); 1] = [(
    "40 all forty",
    "1 2 3 4 5 6 7 8 9 10 11 12 13 14 15 16 17 18 19 20 21 22 23 24 25 26 27 28 29 30 31 32 33 34 35 36 37 38 39 40 #SUP: 1 #UTIL: 40\n",
    "",
)];

const FORTY_ITEMSETS_RUN: [(&str, &str, &str); 1] = [(
    "40 all itemsets",
    "1 -1 2 -1 3 -1 4 -1 5 -1 6 -1 7 -1 8 -1 9 -1 10 -1 11 -1 12 -1 13 -1 14 -1 15 -1 16 -1 17 -1 18 -1 19 -1 20 -1 21 -1 22 -1 23 -1 24 -1 25 -1 26 -1 27 -1 28 -1 29 -1 30 -1 31 -1 32 -1 33 -1 34 -1 35 -1 36 -1 37 -1 38 -1 39 -1 40 -1 #UTIL: 40\n",
    "",
)];

/// The hundred itemsets that earn most are single items, each of them closed, and the twenty sequences have one item each.
const DRILL_RUN: [(&str, &str, &str); 1] = [(
    "1",
    "items lists 100 16724 1522296\nitems project 100 16724 1522296\nitems kept 100 16724 1522296\nclosed lists 100 16724 1522296\nclosed project 100 16724 1522296\nclosed kept 100 16724 1522296\nseq chain 20 4036 67682\n",
    "",
)];

#[test]
fn itemsets(rt: HostRuntime) -> Result<(), Fail> {
    for job in &ITEM_JOBS {
        each_ends(&rt, rt.alloc(), *job, 0, &ITEM_RUNS)?;
    }
    for job in &ITEM_JOBS[1..] {
        each_ends(&rt, rt.alloc(), *job, 0, &FORTY_ITEMS_RUN)?;
    }
    Ok(())
}

#[test]
fn itemsets_of_some_lengths(rt: HostRuntime) -> Result<(), Fail> {
    for job in &["sized plain", "sized lists"] {
        each_ends(&rt, rt.alloc(), *job, 0, &SIZED_RUNS)?;
    }
    Ok(())
}

#[test]
fn itemsets_by_average(rt: HostRuntime) -> Result<(), Fail> {
    for job in &["average plain", "average lists"] {
        each_ends(&rt, rt.alloc(), *job, 0, &AVERAGE_RUNS)?;
    }
    Ok(())
}

#[test]
fn closed_itemsets(rt: HostRuntime) -> Result<(), Fail> {
    for job in &CLOSED_JOBS {
        each_ends(&rt, rt.alloc(), *job, 0, &CLOSED_RUNS)?;
    }
    for job in &CLOSED_JOBS[1..] {
        each_ends(&rt, rt.alloc(), *job, 0, &FORTY_ITEMS_CLOSED_RUN)?;
    }
    Ok(())
}

#[test]
fn sequences(rt: HostRuntime) -> Result<(), Fail> {
    for job in &SEQUENCE_JOBS {
        each_ends(&rt, rt.alloc(), *job, 0, &SEQUENCE_RUNS)?;
    }
    each_ends(&rt, rt.alloc(), "seq chain", 0, &FORTY_ITEMSETS_RUN)
}

#[test]
fn drill(rt: HostRuntime) -> Result<(), Fail> {
    each_ends(&rt, rt.alloc(), "drill", 0, &DRILL_RUN)
}
