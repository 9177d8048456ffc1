//! The plain engine for sequences.

ghost use Rattle.std.specs.Prelude.{◌≡◌, ℤ, List, [], ◌∷◌, OnOk};
ghost use Rattle.hu_kind.specs.Sequence.{sequence_patterns};
ghost use Rattle.hu_base.specs.Base.{records_of};
ghost use Rattle.hu_collect.specs.State.{IsInOrder, Takes, Searches, Mines};
ghost use Rattle.hu_plain.specs.Growth.{prefix_entry, stepped_key, Grows, IsGrowth};
ghost use Rattle.hu_plain.specs.Place.{ArePlaces};
ghost use Rattle.hu_plain.specs.PlaceView.{all_places};

use crate::places::{Place, Step, all_stepped, first_places_of, steps_of, total_best};
use hu_base::Base;
use hu_collect::Collect;
use hu_kind::{Entry, Key, NoMemory, SeqRecord};
use std::alloc::Global;

/// Offers each sequence that occurs in some record, with its utility and its support. Nothing is cut. A sequence is grown
/// by one item at a time, into its last itemset or after it, over just the records in which it occurs. Of a record the
/// search keeps the best occurrence that ends in each itemset, which is enough to know the best of all that grow, as in
/// USpan (Yin, Zheng and Cao, 2012). So a step takes one pass over the itemsets of these records, each looked through by
/// halves. The memory is a place for each itemset in which a sequence or one of its prefixes can go on, and the items
/// there. After want of memory some of the sequences have been offered.
pub fn mine_sequences<C: Collect>(
    alloc: Global,
    base: &Base<SeqRecord>,
    collect: &mut C,
) -> Result<(), NoMemory>
    ensures { Mines (C.state collect.old) (sequence_patterns (records_of base.now))
        (C.state collect.new) result }
{
    // These two tell the proof that the content is in order, and that no sum overflows.
    let _floor = collect.floor();
    let _sum = base.sum();
    let rows = first_places_of(alloc, base.records())?;
    search(alloc, &rows, &mut Key::new(alloc), collect)
}

/// Offers each sequence that grows the prefix.
#[cycle(search)]
fn search<C: Collect>(
    alloc: Global,
    rows: &[Vec<Place<'_>>],
    prefix: &mut Key,
    collect: &mut C,
) -> Result<(), NoMemory>
    requires rows { ArePlaces (all_places rows.now) }
    requires in_order { IsInOrder (C.state collect.old) }
    ensures prefix { OnOk result (prefix.new ≡ prefix.old) }
    ensures searches { Searches (C.state collect.old) (Grows prefix.old (all_places rows.now))
        (C.state collect.new) result }
{
    let steps = steps_of(alloc, rows)?;
    'steps: for step in &steps {
        let grown = all_stepped(alloc, rows, *step)?;
        if grown.is_empty() {
            continue;
        }
        enter(alloc, &grown, *step, prefix, collect)?;
    }
    Ok(())
}

/// Offers the prefix with a step more, and each sequence that grows it.
#[cycle(search)]
fn enter<C: Collect>(
    alloc: Global,
    rows: &[Vec<Place<'_>>],
    step: Step,
    prefix: &mut Key,
    collect: &mut C,
) -> Result<(), NoMemory>
    requires rows { ArePlaces (all_places rows.now) }
    requires in_order { IsInOrder (C.state collect.old) }
    ensures prefix { OnOk result (prefix.new ≡ prefix.old) }
    ensures searches { Searches (C.state collect.old) (IsGrowth (stepped_key prefix.old step)
        (all_places rows.now)) (C.state collect.new) result }
{
    push_step(prefix, step)?;
    offer(alloc, rows, prefix, collect)?;
    search(alloc, rows, prefix, collect)?;
    pop_step(prefix, step);
    Ok(())
}

/// Offers the prefix itself.
fn offer<C: Collect>(
    alloc: Global,
    rows: &[Vec<Place<'_>>],
    prefix: &Key,
    collect: &mut C,
) -> Result<(), NoMemory>
    requires { ArePlaces (all_places rows.now) }
    ensures { Takes (C.state collect.old) (prefix_entry prefix.now (all_places rows.now) ∷ [])
        (C.state collect.new) result }
{
    let mut key = prefix.copy_in(alloc)?;
    key.end_itemset()?;
    collect.offer(Entry {
        key,
        utility: total_best(rows),
        support: rows.len() as u64,
    })
}

/// Puts the item of a step to a prefix.
fn push_step(prefix: &mut Key, step: Step) -> Result<(), NoMemory>
    ensures { OnOk result (prefix.new ≡ stepped_key prefix.old step) }
{
    match step {
        Step::Into(item) => prefix.push(i64::from(item.0)),
        Step::After(item) => {
            prefix.end_itemset()?;
            prefix.push(i64::from(item.0))
        }
    }
}

/// Takes back what a step put to a prefix.
fn pop_step(prefix: &mut Key, step: Step)
    ensures { (before : List ℤ) → prefix.old ≡ stepped_key before step → prefix.new ≡ before }
{
    prefix.pop();
    if let Step::After(_) = step {
        prefix.pop();
    }
}
