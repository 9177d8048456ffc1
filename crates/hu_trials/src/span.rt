//! The sequences of small bases, written out: the same lines as the plain engine's.

use hu_collect::{All, Top};
use hu_sample::{FOUR_PLACES, FOUR_RECORDS, LATER_IS_GREATEST, sequences_of, told};
use hu_span::mine;
use std::alloc::Global;
use std::process::Abort;
use std::test::Fail;

/// All that holds an item above 0 earns the same, so that keys tell what is kept.
const TIES: [&[&[(u32, i128)]]; 1] = [&[&[(1, 3), (2, 0)], &[(2, 0)]]];

/// The lines of all sequences of at least a utility.
fn mined(
    rt: &impl Abort,
    alloc: Global,
    records: &[&[&[(u32, i128)]]],
    start: i128,
) -> Result<String, Fail> {
    assert!(rt; start >= 1);
    let base = sequences_of(alloc, records)?.expect(rt, "a base");
    let mut collect = All::new(alloc, start);
    mine(alloc, &base, &mut collect)?;
    Ok(told(alloc, &collect.into_entries()?)?)
}

/// The lines of the first k sequences.
fn mined_top(
    rt: &impl Abort,
    alloc: Global,
    records: &[&[&[(u32, i128)]]],
    k: u32,
) -> Result<String, Fail> {
    assert!(rt; k >= 1);
    let base = sequences_of(alloc, records)?.expect(rt, "a base");
    let mut collect = Top::new(alloc, k, 1);
    mine(alloc, &base, &mut collect)?;
    Ok(told(alloc, &collect.into_entries()?)?)
}

#[test]
fn one_record(rt: HostRuntime) -> Result<(), Fail> {
    assert_eq!(rt;
        mined(&rt, rt.alloc(), &LATER_IS_GREATEST, 7)?.as_str(),
        "1 -1 1 -1 2 -1 #UTIL: 10 #SUP: 1\n1 -1 2 -1 #UTIL: 8 #SUP: 1\n1 -1 1 -1 #UTIL: 7 #SUP: 1\n"
    );
    assert_eq!(rt;
        mined(&rt, rt.alloc(), &FOUR_PLACES, 17)?.as_str(),
        "1 -1 2 -1 1 -1 3 -1 #UTIL: 20 #SUP: 1\n1 -1 1 -1 3 -1 #UTIL: 19 #SUP: 1\n1 -1 2 -1 3 -1 #UTIL: 18 #SUP: 1\n1 -1 3 -1 #UTIL: 17 #SUP: 1\n"
    );
    Ok(())
}

#[test]
fn more_records(rt: HostRuntime) -> Result<(), Fail> {
    let alloc = rt.alloc();
    assert_eq!(rt;
        mined(&rt, alloc, &FOUR_RECORDS, 40)?.as_str(),
        "1 4 -1 3 -1 2 -1 5 7 -1 #UTIL: 40 #SUP: 1\n3 -1 7 -1 #UTIL: 40 #SUP: 3\n"
    );
    assert_eq!(rt;
        mined_top(&rt, alloc, &FOUR_RECORDS, 1)?.as_str(),
        "1 4 -1 3 -1 2 -1 5 7 -1 #UTIL: 40 #SUP: 1\n"
    );
    assert_eq!(rt; mined(&rt, alloc, &[], 1)?.as_str(), "");
    Ok(())
}

#[test]
fn ties_with_the_last(rt: HostRuntime) -> Result<(), Fail> {
    assert_eq!(rt;
        mined_top(&rt, rt.alloc(), &FOUR_RECORDS, 2)?.as_str(),
        "1 4 -1 3 -1 2 -1 5 7 -1 #UTIL: 40 #SUP: 1\n3 -1 7 -1 #UTIL: 40 #SUP: 3\n"
    );
    assert_eq!(rt;
        mined_top(&rt, rt.alloc(), &TIES, 2)?.as_str(),
        "1 -1 #UTIL: 3 #SUP: 1\n1 -1 2 -1 #UTIL: 3 #SUP: 1\n"
    );
    Ok(())
}
