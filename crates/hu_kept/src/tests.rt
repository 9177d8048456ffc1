//! Kept answers of small bases, written out, and how much of a base an append searches.

ghost use Rattle.std.specs.Prelude.{◌≡◌, ◌≤◌, pos, ◌≤ℤ◌, IfOk, IfSome};
ghost use Rattle.hu_base.specs.Base.{carried_of};

use crate::gates::Gates;
use crate::{
    AppendFault, Changes, Kept, law_of_closed_sets, law_of_gains, law_of_outside_patterns,
    law_of_untouched_closedness, law_of_untouched_sets,
};
use hu_base::Base;
use hu_collect::Gate;
use hu_kind::{Cell, Item, NoMemory, Record};
use hu_sample::{BASE_A, record_of, told};
use hu_totals::Ranked;
use std::alloc::Global;
use std::cell::Cell as Counter;
use std::process::Abort;
use std::test::Fail;

/// The batch of these records, with a carried sum.
fn batch_after(
    rt: &impl Abort,
    alloc: Global,
    carried: i128,
    records: &[&[(u32, i128)]],
) -> Result<Base<Record>, Fail>
    requires { pos 0 ≤ℤ carried }
{
    let mut base = Base::after(alloc, carried);
    for pairs in records {
        let record = record_of(alloc, pairs)?.expect(rt, "a record");
        base.add(record)?;
    }
    Ok(base)
}

/// Changes of these counts.
fn counts(added: u64, changed: u64, dropped: u64) -> Changes {
    Changes {
        added,
        changed,
        dropped,
    }
}

/// Records that are appended, what that changes, and which entries there are then.
#[derive(Clone, Copy)]
struct Step<'a> {
    records: &'a [&'a [(u32, i128)]],
    changes: Changes,
    text: &'a str,
}

/// A step of these parts.
fn adds<'a>(records: &'a [&'a [(u32, i128)]], changes: Changes, text: &'a str) -> Step<'a> {
    Step {
        records,
        changes,
        text,
    }
}

/// Appends the records of each step to a kept answer, and compares what changed and which entries there are.
fn grows(rt: &impl Abort, alloc: Global, kept: &mut Kept, steps: &[Step<'_>]) -> Result<(), Fail> {
    for step in steps {
        let batch = batch_after(rt, alloc, 0, step.records)?;
        assert_eq!(rt; kept.append(batch), Ok(step.changes));
        has(rt, alloc, kept, step.text)?;
    }
    Ok(())
}

/// Compares which entries there are.
fn has(rt: &impl Abort, alloc: Global, kept: &Kept, text: &str) -> Result<(), Fail> {
    let entries = kept.entries(alloc)?;
    assert_eq!(rt; told(alloc, &entries)?.as_str(), text);
    Ok(())
}

/// All entries of the first three records of base A at 30.
const THREE: &str = "2 3 4 5 #UTIL: 40 #SUP: 2\n2 4 5 #UTIL: 36 #SUP: 2\n2 3 4 #UTIL: 34 #SUP: 2\n\
     1 2 3 4 5 6 #UTIL: 30 #SUP: 1\n2 4 #UTIL: 30 #SUP: 2\n";

/// All entries of base A at 30.
const FIVE: &str = "2 3 4 5 #UTIL: 40 #SUP: 2\n2 3 5 #UTIL: 37 #SUP: 3\n2 4 5 #UTIL: 36 #SUP: 2\n\
     2 3 4 #UTIL: 34 #SUP: 2\n1 3 5 #UTIL: 31 #SUP: 2\n2 5 #UTIL: 31 #SUP: 3\n\
     1 2 3 4 5 6 #UTIL: 30 #SUP: 1\n2 4 #UTIL: 30 #SUP: 2\n";

#[test]
fn all_entries(rt: HostRuntime) -> Result<(), Fail> {
    let mut kept = Kept::new(rt.alloc(), 30, None, false);
    let one = "1 2 3 4 5 6 #UTIL: 30 #SUP: 1\n";
    let first = [adds(&BASE_A[..1], counts(1, 0, 0), one)];
    grows(&rt, rt.alloc(), &mut kept, &first)?;
    let others = [
        adds(&BASE_A[1..3], counts(4, 0, 0), THREE),
        adds(&BASE_A[3..], counts(3, 0, 0), FIVE),
    ];
    grows(&rt, rt.alloc(), &mut kept, &others)
}

#[test]
fn first_two_entries(rt: HostRuntime) -> Result<(), Fail> {
    let mut kept = Kept::new(rt.alloc(), 1, Some(2), false);
    let three = "2 3 4 5 #UTIL: 40 #SUP: 2\n2 4 5 #UTIL: 36 #SUP: 2\n";
    let five = "2 3 4 5 #UTIL: 40 #SUP: 2\n2 3 5 #UTIL: 37 #SUP: 3\n";
    let steps = [
        adds(&BASE_A[..3], counts(2, 0, 0), three),
        adds(&BASE_A[3..], counts(1, 0, 1), five),
    ];
    grows(&rt, rt.alloc(), &mut kept, &steps)
}

#[test]
fn closed_entries(rt: HostRuntime) -> Result<(), Fail> {
    let mut kept = Kept::new(rt.alloc(), 30, None, true);
    let three = "2 3 4 5 #UTIL: 40 #SUP: 2\n1 2 3 4 5 6 #UTIL: 30 #SUP: 1\n";
    let five = "2 3 4 5 #UTIL: 40 #SUP: 2\n2 3 5 #UTIL: 37 #SUP: 3\n1 3 5 #UTIL: 31 #SUP: 2\n\
         1 2 3 4 5 6 #UTIL: 30 #SUP: 1\n";
    let steps = [
        adds(&BASE_A[..3], counts(2, 0, 0), three),
        adds(&BASE_A[3..], counts(2, 0, 0), five),
    ];
    grows(&rt, rt.alloc(), &mut kept, &steps)
}

#[test]
fn value_below_zero(rt: HostRuntime) -> Result<(), Fail> {
    let mut kept = Kept::new(rt.alloc(), 1, Some(1), false);
    let steps = [
        adds(
            &[&[(1, 5)], &[(2, 4)]],
            counts(1, 0, 0),
            "1 #UTIL: 5 #SUP: 1\n",
        ),
        adds(&[&[(1, -3)]], counts(1, 0, 1), "2 #UTIL: 4 #SUP: 1\n"),
    ];
    grows(&rt, rt.alloc(), &mut kept, &steps)
}

#[test]
fn every_utility_doubles(rt: HostRuntime) -> Result<(), Fail> {
    let mut kept = Kept::new(rt.alloc(), 30, None, false);
    let once = kept.append(batch_after(&rt, rt.alloc(), 0, &BASE_A)?);
    assert_eq!(rt; once, Ok(counts(8, 0, 0)));
    let twice = kept.append(batch_after(&rt, rt.alloc(), 0, &BASE_A)?);
    assert!(rt;
        matches!(
            twice,
            Ok(Changes {
                changed: 8,
                dropped: 0,
                ..
            })
        )
    );
    Ok(())
}

#[test]
fn sum_too_large(rt: HostRuntime) -> Result<(), Fail> {
    let before = i128::MAX - 9;
    let mut kept = Kept::new(rt.alloc(), 30, None, false);
    let first = kept.append(batch_after(&rt, rt.alloc(), 0, &[&[(2, before)]])?);
    assert_eq!(rt; first, Ok(counts(1, 0, 0)));
    let too_much = kept.append(batch_after(&rt, rt.alloc(), 70, &[&[(2, 4), (3, -6)]])?);
    assert_eq!(rt;
        too_much,
        Err(AppendFault::SumTooLarge { before, added: 10 })
    );
    let as_before = "2 #UTIL: 170141183460469231731687303715884105718 #SUP: 1\n";
    has(&rt, rt.alloc(), &kept, as_before)?;
    let just_enough = kept.append(batch_after(&rt, rt.alloc(), 70, &[&[(2, 4), (3, -5)]])?);
    assert_eq!(rt; just_enough, Ok(counts(0, 1, 0)));
    let more = "2 #UTIL: 170141183460469231731687303715884105722 #SUP: 2\n";
    has(&rt, rt.alloc(), &kept, more)
}

/// A gate that lets every pair join, and counts how often it is asked.
#[derive(Drop)]
struct Asked<'a> {
    asked: &'a Counter<u64>,
}

impl<'a> Gate for Asked<'a> {
    ghost use Rattle.std.specs.Prelude.{pos, ⊤};

    ghost floor = { λ _. pos 1 };

    ghost IsRightFor = { λ _ _. ⊤ };

    fn may_join(&self, _a: u32, _b: u32) -> bool {
        self.asked.set(self.asked.get().saturating_add(1));
        true
    }
}

/// Makes such gates.
#[derive(Drop)]
struct Counting<'a> {
    asked: &'a Counter<u64>,
}

impl<'a> Gates for Counting<'a> {
    type Gate = Asked<'a>;

    fn gate(&self, _alloc: Global, _ranked: &Ranked, _floor: i128) -> Result<Asked<'a>, NoMemory> {
        Ok(Asked { asked: self.asked })
    }
}

/// Eight records, each of eight items of its own, with the value 1.
fn eight_apart(rt: &impl Abort, alloc: Global) -> Result<Base<Record>, Fail> {
    let mut base = Base::after(alloc, 0);
    for j in 0..8 {
        let mut cells = Vec::new(alloc);
        for item in 8 * j + 1..8 * j + 9 {
            cells.push(Cell {
                item: Item(item),
                value: 1,
            })?;
        }
        base.add(Record::new(cells).expect(rt, "a record"))?;
    }
    Ok(base)
}

#[test]
fn all_patterns_at_first(rt: HostRuntime) -> Result<(), Fail> {
    let asked = Counter::new(0);
    let mut kept = Kept::new(rt.alloc(), 1, None, false);
    let base = eight_apart(&rt, rt.alloc())?;
    assert_eq!(rt;
        kept.append_by(base, &Counting { asked: &asked }),
        Ok(counts(2040, 0, 0))
    );
    assert!(rt; asked.get() >= 1000);
    Ok(())
}

#[test]
fn touched_patterns_alone(rt: HostRuntime) -> Result<(), Fail> {
    let asked = Counter::new(0);
    let mut kept = Kept::new(rt.alloc(), 1, None, false);
    let base = eight_apart(&rt, rt.alloc())?;
    assert_eq!(rt; kept.append(base), Ok(counts(2040, 0, 0)));
    let batch = batch_after(&rt, rt.alloc(), 0, &[&[(1, 1), (2, 1)]])?;
    assert_eq!(rt;
        kept.append_by(batch, &Counting { asked: &asked }),
        Ok(counts(0, 3, 0))
    );
    assert!(rt; asked.get() <= 4);
    Ok(())
}

#[test]
fn laws(_rt: HostRuntime) -> Result<(), Fail> {
    law_of_untouched_sets();
    law_of_untouched_closedness();
    law_of_closed_sets();
    law_of_gains();
    law_of_outside_patterns();
    Ok(())
}
