//! A list and the first itemsets of a small base; the itemsets of more bases stand in the tests of whole runs.

ghost use Rattle.std.specs.Prelude.{◌≡◌, [], ◌∷◌, pos, IfOk};
ghost use Rattle.hu_list.specs.Nodes.{list_of};

use crate::builders::{ranked_at, utilities};
use hu_collect::{NoGate, Top};
use hu_kind::NoMemory;
use hu_list::{Node, UtilityList, mine};
use hu_sample::BASE_A;
use hu_totals::Ranked;
use std::alloc::Global;
use std::process::Abort;
use std::test::Fail;

/// The list of two ranks.
fn pair(
    rt: &impl Abort,
    alloc: Global,
    ranked: &Ranked,
    a: u32,
    b: u32,
) -> Result<UtilityList, Fail>
    ensures { IfOk result (λ list. list ≡ list_of ranked.now.records (a ∷ b ∷ [])) }
{
    assert!(rt; a < b);
    assert!(rt; b < ranked.len());
    // This tells the proof the rules of ranked records.
    let _records = ranked.records();
    let x = UtilityList::build(alloc, ranked, a)?;
    let y = UtilityList::build(alloc, ranked, b)?;
    Ok(UtilityList::join(alloc, None, &x, &y)?)
}

#[test]
fn a_list_of_two_ranks(rt: HostRuntime) -> Result<(), Fail> {
    let ranked = ranked_at(&rt, rt.alloc(), &BASE_A, 30)?;
    let list = pair(&rt, rt.alloc(), &ranked, 2, 3)?;
    let nodes = [
        Node {
            place: 0,
            own: 16,
            rest: 9,
        },
        Node {
            place: 1,
            own: 14,
            rest: 6,
        },
    ];
    assert_eq!(rt; list.nodes(), nodes.as_slice());
    assert_eq!(rt; list.sum(), 30);
    assert_eq!(rt; list.bound(), 45);
    Ok(())
}

/// The utilities of the first three itemsets.
fn first_three(alloc: Global, ranked: &Ranked) -> Result<Vec<i128>, NoMemory>
    requires { ranked.now.floor ≡ pos 1 }
{
    let mut collect = Top::new(alloc, 3, 1);
    mine(alloc, ranked, &mut collect, &NoGate)?;
    utilities(alloc, &collect.into_entries()?)
}

#[test]
fn the_first_of_base_a(rt: HostRuntime) -> Result<(), Fail> {
    let ranked = ranked_at(&rt, rt.alloc(), &BASE_A, 1)?;
    let earned = first_three(rt.alloc(), &ranked)?;
    assert_eq!(rt; earned.as_slice(), [40, 37, 36].as_slice());
    Ok(())
}
