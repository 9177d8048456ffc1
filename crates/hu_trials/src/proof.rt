//! Certificates of small bases: an accepted one with its answer, and spoilt ones.

use hu_base::Base;
use hu_kind::{Cell, Item, Record};
use hu_proof::laws::law_of_certificates;
use hu_proof::{CheckFault, check};
use hu_sample::{base_of, told};
use std::alloc::Global;
use std::test::Fail;

/// One record: an item that earns 5 and one that earns nothing.
const TWO_ITEMS: [&[(u32, i128)]; 1] = [&[(1, 5), (2, 0)]];

#[test]
fn accepted(rt: HostRuntime) -> Result<(), Fail> {
    law_of_certificates();
    let base = base_of(rt.alloc(), &TWO_ITEMS)?.expect(&rt, "a base");
    let text = b"cert 5\norder 1 2\n:0:1 2=0\n1:5:2\n1 2:5:\n";
    let entries = check(rt.alloc(), &base, 5, text)?;
    assert_eq!(rt;
        told(rt.alloc(), &entries)?.as_str(),
        "1 #UTIL: 5 #SUP: 1\n1 2 #UTIL: 5 #SUP: 1\n"
    );
    Ok(())
}

#[test]
fn accepted_of_no_record(rt: HostRuntime) -> Result<(), Fail> {
    let base = Base::after(rt.alloc(), 0);
    let entries = check(rt.alloc(), &base, 5, b"cert 5\norder\n:0:\n")?;
    assert_eq!(rt; entries.len(), 0);
    Ok(())
}

#[test]
fn spoilt(rt: HostRuntime) -> Result<(), Fail> {
    let base = base_of(rt.alloc(), &TWO_ITEMS)?.expect(&rt, "a base");
    let cases: [(&[u8], CheckFault); 9] = [
        (
            b"cert 5\norder 1 2\n:0:1\n1:5:2\n1 2:5:\n",
            CheckFault::LeftOut {
                line: 3,
                item: Item(2),
            },
        ),
        (
            b"cert 5\norder 1 2\n:0:1 2=1\n1:5:2\n1 2:5:\n",
            CheckFault::WrongBound {
                line: 3,
                item: Item(2),
                stated: 1,
                summed: 0,
            },
        ),
        (
            b"cert 5\norder 1 2\n:0:1=5 2=0\n",
            CheckFault::NotCut {
                line: 3,
                item: Item(1),
                bound: 5,
            },
        ),
        (
            b"cert 5\norder 1 2\n:0:1 2=0\n1:6:2\n1 2:5:\n",
            CheckFault::WrongUtility {
                line: 4,
                stated: 6,
                summed: 5,
            },
        ),
        (
            b"cert 5\norder 1 2\n:0:1 2=0\n1:5:2\n",
            CheckFault::NotOfForm { line: 5 },
        ),
        (
            b"cert 4\norder 1 2\n:0:1 2=0\n1:5:2\n1 2:5:\n",
            CheckFault::WrongMinimum { stated: 4 },
        ),
        (b"cert 5\norder 1 1 2\n:0:\n", CheckFault::WrongOrder),
        (
            b"cert 5\norder 1 2\n:0:1 2=0\n2:5:2\n",
            CheckFault::WrongPrefix { line: 4 },
        ),
        (
            b"cert 5\norder 2 1\n:0:1 2\n",
            CheckFault::WrongChild {
                line: 3,
                item: Item(2),
            },
        ),
    ];
    for (text, fault) in cases {
        assert_eq!(rt; check(rt.alloc(), &base, 5, text).err(), Some(fault));
    }
    Ok(())
}

/// How deep the deep text goes.
const DEPTH: u32 = 1500;

/// The base of as many records as items, each of one item that earns 1.
fn items_apart(alloc: Global) -> Result<Base<Record>, Fail> {
    let mut base = Base::after(alloc, 0);
    for item in 0..DEPTH {
        let mut cells = Vec::new(alloc);
        cells.push(Cell {
            item: Item(item),
            value: 1,
        })?;
        base.add(Record::new(cells).ok_or("no record")?)?;
    }
    Ok(base)
}

/// A text that opens the prefixes `0`, `0 1`, `0 1 2` and so on, of which no record holds any but the first.
fn deep_text(alloc: Global) -> Result<String, Fail> {
    let mut text = String::new(alloc);
    let mut prefix = String::new(alloc);
    text.push_str("cert 2\norder")?;
    for item in 0..DEPTH {
        text.push_str(&format!(in alloc; " {item}")?)?;
    }
    text.push_str("\n:0:0")?;
    for item in 1..DEPTH {
        text.push_str(&format!(in alloc; " {item}=1")?)?;
    }
    text.push_str("\n0:1:1\n")?;
    prefix.push_str("0")?;
    for item in 1..DEPTH {
        prefix.push_str(&format!(in alloc; " {item}")?)?;
        text.push_str(&prefix)?;
        text.push_str(":0:")?;
        if item < DEPTH - 1 {
            text.push_str(&format!(in alloc; "{}", item + 1)?)?;
        }
        text.push_str("\n")?;
    }
    Ok(text)
}

#[test]
fn accepted_deep(rt: HostRuntime) -> Result<(), Fail> {
    let base = items_apart(rt.alloc())?;
    let entries = check(rt.alloc(), &base, 2, deep_text(rt.alloc())?.as_bytes())?;
    assert_eq!(rt; entries.len(), 0);
    Ok(())
}
