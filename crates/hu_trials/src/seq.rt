//! Sequence lines, what is read of them, and what is written.

use hu_kind::SeqRecord;
use hu_seq::{read_sequence, write_sequence};
use std::alloc::Global;
use std::process::Abort;
use std::test::Fail;

/// The itemsets of a sequence, as a line tells them.
fn shown(alloc: Global, one: &SeqRecord) -> Result<String, Fail> {
    let mut text = String::new(alloc);
    for element in one.elements() {
        for cell in element.cells() {
            let told = format!(in alloc; "{}[{}] ", cell.item.0, cell.value)?;
            text.push_str(told.as_str())?;
        }
        text.push_str("-1 ")?;
    }
    Ok(text)
}

/// What is read of a line: the itemsets, or the fault.
fn read(rt: &impl Abort, alloc: Global, line: &str) -> Result<String, Fail> {
    assert!(rt; line.len() <= 1_048_576);
    match read_sequence(alloc, line.as_bytes()) {
        Ok(one) => shown(alloc, &one),
        Err(fault) => Ok(format!(in alloc; "{fault:?}")?),
    }
}

#[test]
fn sequence_lines(rt: HostRuntime) -> Result<(), Fail> {
    for (line, want) in [
        ("3[1] 1[2] -1 -2 SUtility:3", "1[2] 3[1] -1 "),
        ("1[x] -1 -2 SUtility:2", "BadToken { at: 1 }"),
        ("1[2] -1 SUtility:2", "NoEnd"),
        ("1[2] -1 -2", "1[2] -1 "),
        ("SUtility:2 1[2] -1 -2", "AfterEnd"),
        ("1[2] -1 -2 SUtility:2 -1", "AfterEnd"),
        ("1[2] -2 SUtility:2", "OpenItemset"),
        ("-1 1[2] -1 -2 SUtility:2", "EmptyItemset"),
        ("-2 SUtility:0", "NoItems"),
        ("2147483648[1] -1 -2 SUtility:1", "ItemOutOfRange { at: 1 }"),
        (
            "1[2] 1[3] -1 -2 SUtility:5",
            "DuplicateItem { item: Item(1) }",
        ),
        ("1[2] -1 1[3] -1 -2 SUtility:5", "1[2] -1 1[3] -1 "),
        ("1[-2] -1 -2 SUtility:-2", "Negative { at: 1 }"),
        (
            "1[170141183460469231731687303715884105727] 2[1] -1 -2 SUtility:0",
            "SumTooLarge",
        ),
        (
            "1[2] -1 -2 SUtility:3",
            "TotalDisagrees { stated: 3, summed: 2 }",
        ),
    ] {
        let told = read(&rt, rt.alloc(), line)?;
        assert_eq!(rt; told.as_str(), want, "at {line}");
    }
    Ok(())
}

#[test]
fn edges_of_a_line(rt: HostRuntime) -> Result<(), Fail> {
    for (line, want) in [
        ("   07[1]  2[004]   -1 -2  SUtility:05 ", "2[4] 7[1] -1 "),
        (
            "2147483647[170141183460469231731687303715884105727] -1 -2",
            "2147483647[170141183460469231731687303715884105727] -1 ",
        ),
        ("1[-0] -1 -2 SUtility:-0", "1[0] -1 "),
        ("", "NoEnd"),
        ("1[2]] -1 -2", "BadToken { at: 1 }"),
        ("1[2] -1 -3", "BadToken { at: 3 }"),
        ("1[2] -1 -2 sUtility:2", "BadToken { at: 4 }"),
        ("1[2] -1 -2 -2", "AfterEnd"),
        ("1[2] -1 -1 -2", "EmptyItemset"),
        ("1[2] 2147483648[1] -1 -2", "ItemOutOfRange { at: 2 }"),
        ("1[2] -1 3[-4] -1 -2", "Negative { at: 3 }"),
    ] {
        let told = read(&rt, rt.alloc(), line)?;
        assert_eq!(rt; told.as_str(), want, "at {line}");
    }
    Ok(())
}

#[test]
fn a_canonical_line(rt: HostRuntime) -> Result<(), Fail> {
    let one = read_sequence(rt.alloc(), b"2[3]  1[05] -1 4[1] -1 -2")?;
    let line = write_sequence(rt.alloc(), &one)?;
    assert_eq!(rt;
        line.as_slice(),
        b"1[5] 2[3] -1 4[1] -1 -2 SUtility:9".as_slice()
    );
    Ok(())
}

/// A line of one cell in each itemset.
fn line_of(alloc: Global, count: usize) -> Result<String, Fail> {
    let mut line = String::new(alloc);
    for _ in 0..count {
        line.push_str("1[0] -1 ")?;
    }
    line.push_str("-2 SUtility:0")?;
    Ok(line)
}

#[test]
fn most_cells_of_a_line(rt: HostRuntime) -> Result<(), Fail> {
    let line = line_of(rt.alloc(), 4096)?;
    assert!(rt; line.len() <= 1_048_576);
    let one = read_sequence(rt.alloc(), line.as_bytes())?;
    assert_eq!(rt; one.elements().len(), 4096);
    let again = write_sequence(rt.alloc(), &one)?;
    assert_eq!(rt; again.as_slice(), line.as_bytes());

    let line = line_of(rt.alloc(), 4097)?;
    let told = read(&rt, rt.alloc(), line.as_str())?;
    assert_eq!(rt; told.as_str(), "TooManyItems { count: 4097 }");
    Ok(())
}
