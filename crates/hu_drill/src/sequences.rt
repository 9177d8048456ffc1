//! Generated sequences.

ghost use Rattle.std.specs.Prelude.{◌≡◌, ◌≤◌, ◌*◌, IfOk, OnOk};
ghost use Rattle.std.specs.List.{sum_by, AllByRecursion};
ghost use Rattle.hu_kind.specs.Record.{absolute_of};
ghost use Rattle.hu_kind.specs.Sequence.{IsSequence};
ghost use Rattle.hu_base.specs.Base.{records_of};
ghost use Rattle.hu_drill.specs.Draws.{after_draws};
ghost use Rattle.hu_drill.specs.Drilled.{drilled_sequences, element_from, elements_of};

use crate::draws::Draws;
use hu_base::Base;
use hu_kind::{Element, NoMemory, SeqRecord};
use std::alloc::Global;

/// A base of generated sequences with so many elements each, which a seed tells. Four draws for each element.
pub fn make_sequences(
    alloc: Global,
    seed: u32,
    records: u32,
    elements: u32,
) -> Result<Base<SeqRecord>, NoMemory>
    requires seed { 1 ≤ seed }
    requires seed_range { seed ≤ 2147483646 }
    requires records { records ≤ 1000000 }
    requires some { 1 ≤ elements }
    requires elements { elements ≤ 2048 }
    ensures value { IfOk result (λ base. base ≡ (0, drilled_sequences seed records elements)) }
    ensures sum { IfOk result
        (λ base. sum_by (sum_by absolute_of) (records_of base) ≤ 409600 * records) }
    ensures rules { IfOk result (λ base. AllByRecursion IsSequence (records_of base)) }
{
    let mut draws = Draws { state: seed };
    let mut base = Base::after(alloc, 0);
    for _ in 0..records {
        base.add_fitting(next_sequence(alloc, &mut draws, elements)?)?;
    }
    Ok(base)
}

/// The next sequence.
fn next_sequence(alloc: Global, draws: &mut Draws, elements: u32) -> Result<SeqRecord, NoMemory>
    requires some { 1 ≤ elements }
    requires elements { elements ≤ 2048 }
    ensures state { OnOk result (draws.new.state ≡ after_draws (4 * elements) draws.old.state) }
    ensures value { IfOk result (λ sequence. sequence ≡ elements_of elements draws.old.state) }
{
    match SeqRecord::new(next_elements(alloc, draws, elements)?) {
        Some(sequence) => Ok(sequence),
        None => unreachable!(),
    }
}

/// The elements of the next sequence.
fn next_elements(alloc: Global, draws: &mut Draws, elements: u32) -> Result<Vec<Element>, NoMemory>
    ensures state { OnOk result (draws.new.state ≡ after_draws (4 * elements) draws.old.state) }
    ensures value { IfOk result (λ list. list.items ≡ elements_of elements draws.old.state) }
{
    let mut list = Vec::new(alloc);
    for _ in 0..elements {
        list.push(next_element(alloc, draws)?)?;
    }
    Ok(list)
}

/// The next element.
fn next_element(alloc: Global, draws: &mut Draws) -> Result<Element, NoMemory>
    ensures state { OnOk result (draws.new.state ≡ after_draws 4 draws.old.state) }
    ensures value { IfOk result (λ element. element ≡ element_from draws.old.state) }
{
    let first = draws.cell(1, 25);
    let second = draws.cell(26, 25);
    let cells = vec![in alloc; first, second]?;
    match Element::new(cells) {
        Some(element) => Ok(element),
        None => unreachable!(),
    }
}
