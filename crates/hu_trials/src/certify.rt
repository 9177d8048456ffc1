//! The certificates of small bases, written out.

use hu_certify::{certify, laws};
use hu_proof::check;
use hu_sample::{BASE_A, base_of};
use std::alloc::Global;
use std::process::Abort;
use std::test::Fail;

const AN_ITEM_EARNS_NOTHING: [&[(u32, i128)]; 1] = [&[(1, 5), (2, 0)]];

const AN_ITEM_COSTS: [&[(u32, i128)]; 2] = [&[(1, -2), (2, 4), (3, 3)], &[(1, 1), (3, 2)]];

/// Compares the certificate of the sets that earn at least 5.
fn expect_certificate(
    rt: &impl Abort,
    alloc: Global,
    records: &[&[(u32, i128)]],
    text: &[u8],
) -> Result<(), Fail> {
    let base = base_of(alloc, records)?.expect(rt, "a base");
    assert_eq!(rt; certify(alloc, &base, 5)?.as_slice(), text);
    Ok(())
}

#[test]
fn an_item_that_earns_nothing(rt: HostRuntime) -> Result<(), Fail> {
    let text = b"cert 5\norder 1 2\n:0:1 2=0\n1:5:2\n1 2:5:\n";
    expect_certificate(&rt, rt.alloc(), &AN_ITEM_EARNS_NOTHING, text)
}

#[test]
fn no_record(rt: HostRuntime) -> Result<(), Fail> {
    expect_certificate(&rt, rt.alloc(), &[], b"cert 5\norder\n:0:\n")
}

#[test]
fn an_item_that_costs(rt: HostRuntime) -> Result<(), Fail> {
    let text = b"cert 5\norder 2 1 3\n:0:2 1=4 3\n2:4:1 3\n2 1:2:3\n2 1 3:5:\n2 3:7:\n3:5:\n";
    expect_certificate(&rt, rt.alloc(), &AN_ITEM_COSTS, text)
}

#[test]
fn accepted_with_the_answer(rt: HostRuntime) -> Result<(), Fail> {
    let base = base_of(rt.alloc(), &BASE_A)?.expect(&rt, "a base");
    let text = certify(rt.alloc(), &base, 30)?;
    assert_eq!(rt; check(rt.alloc(), &base, 30, &text)?.len(), 8);
    Ok(())
}

#[test]
fn the_law() {
    laws::law_of_certificate_texts();
}
