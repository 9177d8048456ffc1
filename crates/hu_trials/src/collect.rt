//! Offers in turn.

use hu_collect::{All, Collect, Gate, Limited, NoGate, Top};
use hu_kind::{Entry, Key, NoMemory};
use std::alloc::Global;
use std::process::Abort;
use std::test::Fail;

/// A key, the utility that is offered with it, and the floor of the first two from 1 after that offer.
type Offer<'a> = (&'a [i64], i128, i128);

const OFFERS: [Offer<'static>; 7] = [
    (&[1], 5, 1),
    (&[2], 7, 5),
    (&[3], 5, 5),
    (&[1, 2], 5, 5),
    (&[0], 5, 5),
    (&[0], 5, 5),
    (&[4], 4, 5),
];

fn key_of(alloc: Global, numbers: &[i64]) -> Result<Key, NoMemory> {
    let mut key = Key::new(alloc);
    for number in numbers {
        key.push(*number)?;
    }
    Ok(key)
}

fn entry_of(alloc: Global, numbers: &[i64], utility: i128) -> Result<Entry, NoMemory> {
    Ok(Entry {
        key: key_of(alloc, numbers)?,
        utility,
        support: 1,
    })
}

fn expect_entries(rt: &impl Abort, entries: &[Entry], expected: &[(&[i64], i128)]) {
    assert_eq!(rt; entries.len(), expected.len());
    for (entry, (numbers, utility)) in entries.iter().zip(expected) {
        assert_eq!(rt; entry.key.numbers(), *numbers);
        assert_eq!(rt; entry.utility, *utility);
        assert_eq!(rt; entry.support, 1);
    }
}

#[test]
fn top_of_offers_in_turn(rt: HostRuntime) -> Result<(), Fail> {
    let mut top = Top::new(rt.alloc(), 2, 1);
    assert_eq!(rt; top.floor(), 1);
    for (numbers, utility, floor) in &OFFERS {
        top.offer(entry_of(rt.alloc(), numbers, *utility)?)?;
        assert_eq!(rt; top.floor(), *floor);
    }
    assert!(rt; top.opens(&key_of(rt.alloc(), &[3])?, 0));
    let expected: [(&[i64], i128); 2] = [(&[2], 7), (&[0], 5)];
    expect_entries(&rt, &top.into_entries()?, &expected);
    Ok(())
}

#[test]
fn all_of_offers_in_turn(rt: HostRuntime) -> Result<(), Fail> {
    let mut all = All::new(rt.alloc(), 5);
    for (numbers, utility, _) in &OFFERS {
        all.offer(entry_of(rt.alloc(), numbers, *utility)?)?;
        assert_eq!(rt; all.floor(), 5);
    }
    assert!(rt; all.opens(&key_of(rt.alloc(), &[3])?, 0));
    let expected: [(&[i64], i128); 5] = [(&[2], 7), (&[0], 5), (&[1], 5), (&[1, 2], 5), (&[3], 5)];
    expect_entries(&rt, &all.into_entries()?, &expected);
    Ok(())
}

#[test]
fn all_or_the_first_of_offers(rt: HostRuntime) -> Result<(), Fail> {
    let cases: [(Option<u32>, i128, &[(&[i64], i128)]); 2] = [
        (Some(2), 5, &[(&[2], 7), (&[0], 5)]),
        (
            None,
            1,
            &[
                (&[2], 7),
                (&[0], 5),
                (&[1], 5),
                (&[1, 2], 5),
                (&[3], 5),
                (&[4], 4),
            ],
        ),
    ];
    for (top, floor, expected) in cases {
        let mut collect = Limited::new(rt.alloc(), top, 1);
        for (numbers, utility, _) in &OFFERS {
            collect.offer(entry_of(rt.alloc(), numbers, *utility)?)?;
        }
        assert_eq!(rt; collect.floor(), floor);
        assert!(rt; collect.opens(&key_of(rt.alloc(), &[3])?, 0));
        expect_entries(&rt, &collect.into_entries()?, expected);
    }
    Ok(())
}

#[test]
fn copies(rt: HostRuntime) -> Result<(), Fail> {
    let key = key_of(rt.alloc(), &[1, 2])?;
    assert_eq!(rt; key.copy_in(rt.alloc())?.numbers(), [1, 2].as_slice());
    let copy = entry_of(rt.alloc(), &[2], 7)?.copy_in(rt.alloc())?;
    expect_entries(&rt, &[copy], &[(&[2], 7)]);
    Ok(())
}

#[test]
fn every_pair_may_join(rt: HostRuntime) -> Result<(), Fail> {
    assert!(rt; NoGate.may_join(0, 1));
    Ok(())
}
