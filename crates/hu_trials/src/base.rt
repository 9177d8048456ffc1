//! The edge of a base's sum, and what a base holds after each call.

use hu_base::{AddFault, Base};
use hu_kind::{Cell, Item, NoMemory, Record};
use std::alloc::Global;
use std::process::Abort;
use std::test::Fail;

/// A record of one cell, of item 1 with a value.
fn one_cell(alloc: Global, value: i128) -> Result<Option<Record>, NoMemory> {
    let mut cells = Vec::new(alloc);
    cells.push(Cell {
        item: Item(1),
        value,
    })?;
    Ok(Record::new(cells))
}

/// A base after `carried` that holds a record of one cell for each value.
fn base_of(
    rt: &impl Abort,
    alloc: Global,
    carried: i128,
    values: &[i128],
) -> Result<Base<Record>, Fail> {
    assert!(rt; carried >= 0);
    let mut base = Base::after(alloc, carried);
    for value in values {
        base.add(one_cell(alloc, *value)?.expect(rt, "a record"))?;
    }
    Ok(base)
}

fn expect_base(rt: &impl Abort, base: &Base<Record>, carried: i128, sum: i128, values: &[i128]) {
    assert_eq!(rt; base.carried(), carried);
    assert_eq!(rt; base.sum(), sum);
    assert_eq!(rt; base.records().len(), values.len());
    for (record, value) in base.records().iter().zip(values) {
        let cell = Cell {
            item: Item(1),
            value: *value,
        };
        assert_eq!(rt; record.cells(), [cell].as_slice());
    }
}

const MAX: i128 = i128::MAX;

#[test]
fn the_edge_of_a_sum(rt: HostRuntime) -> Result<(), Fail> {
    let mut base = base_of(&rt, rt.alloc(), MAX - 5, &[-5])?;
    expect_base(&rt, &base, MAX - 5, MAX, &[-5]);
    let refused = AddFault::SumTooLarge {
        before: MAX,
        added: 1,
    };
    let more = one_cell(rt.alloc(), 1)?.expect(&rt, "a record");
    assert_eq!(rt; base.add(more), Err(refused));
    expect_base(&rt, &base, MAX - 5, MAX, &[-5]);
    assert_eq!(rt; base.join(base_of(&rt, rt.alloc(), 0, &[1])?), Err(refused));
    expect_base(&rt, &base, MAX - 5, MAX, &[-5]);
    base.add(one_cell(rt.alloc(), 0)?.expect(&rt, "a record"))?;
    expect_base(&rt, &base, MAX - 5, MAX, &[-5, 0]);
    base.join(base_of(&rt, rt.alloc(), 7, &[0])?)?;
    expect_base(&rt, &base, MAX - 5, MAX, &[-5, 0, 0]);
    Ok(())
}

#[test]
fn joins_splits_and_shortens(rt: HostRuntime) -> Result<(), Fail> {
    let mut base = base_of(&rt, rt.alloc(), 10, &[1, -2])?;
    base.join(base_of(&rt, rt.alloc(), 100, &[3, 4])?)?;
    expect_base(&rt, &base, 10, 20, &[1, -2, 3, 4]);
    assert!(rt; base.records().len() > 3);
    let last = base.split_off(3)?;
    expect_base(&rt, &last, 0, 4, &[4]);
    expect_base(&rt, &base, 10, 16, &[1, -2, 3]);
    for (count, sum) in [(3, 16), (1, 11), (0, 10)] {
        assert!(rt; count <= base.records().len());
        base.shorten(count);
        assert_eq!(rt; (base.carried(), base.sum()), (10, sum));
        assert_eq!(rt; base.records().len(), count);
    }
    Ok(())
}
