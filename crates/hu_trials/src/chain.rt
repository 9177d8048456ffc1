//! The chains of small sequences, written out.

use hu_chain::{Chain, Growth};
use hu_kind::{Item, NoMemory, SeqRecord};
use hu_sample::{FOUR_PLACES, FOUR_RECORDS, sequence_of};
use std::alloc::Global;
use std::process::Abort;
use std::test::Fail;

/// A line for each place: its element, its cell, what it earns, and what is left after it.
fn told(alloc: Global, chain: &Chain) -> Result<String, NoMemory> {
    let mut text = String::new(alloc);
    for place in chain.places() {
        text.push_str(&format!(in alloc;
            "{} {} {} {}\n",
            place.element, place.cell, place.best, place.rest
        )?)?;
    }
    Ok(text)
}

/// Compares the lines of a chain's places.
fn expect_places(rt: &impl Abort, alloc: Global, chain: &Chain, lines: &str) -> Result<(), Fail> {
    assert_eq!(rt; told(alloc, chain)?.as_str(), lines);
    Ok(())
}

/// The sequence of these itemsets.
fn sequence(
    rt: &impl Abort,
    alloc: Global,
    itemsets: &[&[(u32, i128)]],
) -> Result<SeqRecord, NoMemory> {
    Ok(sequence_of(alloc, itemsets)?.expect(rt, "a sequence"))
}

#[test]
fn an_item_at_two_places(rt: HostRuntime) -> Result<(), Fail> {
    let seq = sequence(&rt, rt.alloc(), FOUR_PLACES[0])?;
    let one = Chain::start(rt.alloc(), &seq, Item(1))?;
    expect_places(&rt, rt.alloc(), &one, "0 0 9 11\n2 0 2 8\n")?;
    assert_eq!(rt; one.utility(), Some(9));
    assert_eq!(rt; one.extension_bound(), 20);
    assert_eq!(rt; one.reduced_bound(&seq, Growth::AfterLast, Item(3)), 20);
    assert_eq!(rt; one.reduced_bound(&seq, Growth::AfterLast, Item(9)), 0);
    Ok(())
}

#[test]
fn an_item_after_two_places(rt: HostRuntime) -> Result<(), Fail> {
    let seq = sequence(&rt, rt.alloc(), FOUR_PLACES[0])?;
    let one = Chain::start(rt.alloc(), &seq, Item(1))?;
    let twice = one.after_last(rt.alloc(), &seq, Item(1))?;
    expect_places(&rt, rt.alloc(), &twice, "2 0 11 8\n")?;
    assert_eq!(rt; twice.extension_bound(), 19);
    let ended = one.after_last(rt.alloc(), &seq, Item(3))?;
    expect_places(&rt, rt.alloc(), &ended, "3 0 17 0\n")
}

#[test]
fn an_item_into_the_last_itemset(rt: HostRuntime) -> Result<(), Fail> {
    let seq = sequence(&rt, rt.alloc(), FOUR_RECORDS[1])?;
    let one = Chain::start(rt.alloc(), &seq, Item(1))?;
    expect_places(&rt, rt.alloc(), &one, "0 0 1 39\n")?;
    assert_eq!(rt; one.reduced_bound(&seq, Growth::IntoLast, Item(4)), 40);
    assert_eq!(rt; one.reduced_bound(&seq, Growth::IntoLast, Item(3)), 0);
    let joined = one.into_last(rt.alloc(), &seq, Item(4))?;
    expect_places(&rt, rt.alloc(), &joined, "0 1 13 27\n")
}

#[test]
fn an_item_that_does_not_occur(rt: HostRuntime) -> Result<(), Fail> {
    let seq = sequence(&rt, rt.alloc(), FOUR_RECORDS[1])?;
    let none = Chain::start(rt.alloc(), &seq, Item(6))?;
    assert_eq!(rt; none.places().len(), 0);
    assert_eq!(rt; none.utility(), None);
    assert_eq!(rt; none.extension_bound(), 0);
    let grown = none.after_last(rt.alloc(), &seq, Item(7))?;
    assert_eq!(rt; grown.utility(), None);
    Ok(())
}
