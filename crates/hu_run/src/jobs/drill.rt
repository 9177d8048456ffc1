//! A drill: seven answers to generated records.

ghost use Rattle.std.specs.Prelude.{◌≡◌, ◌≤◌, true, length, IfOk};
ghost use Rattle.std.specs.List.{sum_by, AllByRecursion};
ghost use Rattle.hu_kind.specs.declared.task.Task.TheVariants.{Items, Closed};
ghost use Rattle.hu_kind.specs.Record.{absolute_of};
ghost use Rattle.hu_kind.specs.Sequence.{IsSequence};
ghost use Rattle.hu_base.specs.Base.{records_in, records_of};
ghost use Rattle.hu_mine.specs.Engine.{offers};
ghost use Rattle.hu_run.specs.Job.{IsSeed};
ghost use Rattle.hu_run.specs.Answer.{text_of};
ghost use Rattle.hu_run.specs.Drill.{drill_text, drill_records, drill_sequences, items_summary, closed_summary, sequences_summary};

use crate::answer::{Answer, Line};
use hu_base::Base;
use hu_drill::{Summary, make, make_sequences};
use hu_kind::{NoMemory, Record, SeqRecord};
use hu_mine::{Engine, Wanted, closed_entries, item_entries, sequence_entries};
use std::alloc::Global;

/// The summaries of what each engine but the plain one answers.
pub(crate) fn answer(alloc: Global, seed: u32) -> Result<Answer, NoMemory>
    requires { IsSeed seed }
    ensures { IfOk result (λ answer. text_of answer ≡ drill_text seed) }
{
    let lists = items(alloc, seed, Engine::Lists)?;
    let project = items(alloc, seed, Engine::Project)?;
    let kept = items(alloc, seed, Engine::Kept)?;
    let closed_lists = closed(alloc, seed, Engine::Lists)?;
    let closed_project = closed(alloc, seed, Engine::Project)?;
    let closed_kept = closed(alloc, seed, Engine::Kept)?;
    let chain = sequences(alloc, seed)?;
    let lines = vec![in alloc;
        Line::new("items lists", lists),
        Line::new("items project", project),
        Line::new("items kept", kept),
        Line::new("closed lists", closed_lists),
        Line::new("closed project", closed_project),
        Line::new("closed kept", closed_kept),
        Line::new("seq chain", chain),
    ]?;
    Ok(Answer::Lines(lines))
}

/// That of the first 100 itemsets.
fn items(alloc: Global, seed: u32, engine: Engine) -> Result<Summary, NoMemory>
    requires seed { IsSeed seed }
    requires offered { offers Items engine ≡ true }
    ensures { IfOk result (λ summary. summary ≡ items_summary seed) }
{
    let batches = batches(alloc, seed, engine)?;
    let wanted = Wanted {
        engine,
        least: 1,
        top: Some(100),
    };
    let entries = item_entries(alloc, batches, wanted)?;
    Ok(Summary::of(&entries))
}

/// That of the first 100 closed ones that earn at least 10,000.
fn closed(alloc: Global, seed: u32, engine: Engine) -> Result<Summary, NoMemory>
    requires seed { IsSeed seed }
    requires offered { offers Closed engine ≡ true }
    ensures { IfOk result (λ summary. summary ≡ closed_summary seed) }
{
    let batches = batches(alloc, seed, engine)?;
    let wanted = Wanted {
        engine,
        least: 10_000,
        top: Some(100),
    };
    let entries = closed_entries(alloc, batches, wanted)?;
    Ok(Summary::of(&entries))
}

/// That of the first 20 sequences.
fn sequences(alloc: Global, seed: u32) -> Result<Summary, NoMemory>
    requires { IsSeed seed }
    ensures { IfOk result (λ summary. summary ≡ sequences_summary seed) }
{
    let base = sequence_base(alloc, seed)?;
    let batches = vec![in alloc; base]?;
    let wanted = Wanted {
        engine: Engine::Chain,
        least: 1,
        top: Some(20),
    };
    let entries = sequence_entries(alloc, batches, wanted)?;
    Ok(Summary::of(&entries))
}

/// The sequences of a drill.
fn sequence_base(alloc: Global, seed: u32) -> Result<Base<SeqRecord>, NoMemory>
    requires { IsSeed seed }
    ensures value { IfOk result (λ base. records_of base ≡ drill_sequences seed) }
    ensures fit { IfOk result (λ base. sum_by (sum_by absolute_of) (records_of base) ≤ 81920000) }
    ensures rules { IfOk result (λ base. AllByRecursion IsSequence (records_of base)) }
{
    make_sequences(alloc, seed, 200, 8)
}

/// The records of a drill.
fn record_base(alloc: Global, seed: u32) -> Result<Base<Record>, NoMemory>
    requires { IsSeed seed }
    ensures value { IfOk result (λ base. records_of base ≡ drill_records seed) }
    ensures fit { IfOk result (λ base. sum_by absolute_of (records_of base) ≤ 819200000) }
    ensures count { IfOk result (λ base. length (records_of base) ≡ 2000) }
{
    make(alloc, seed, 2000, 30)
}

/// The records of a drill, in three batches for the kept engine.
fn batches(alloc: Global, seed: u32, engine: Engine) -> Result<Vec<Base<Record>>, NoMemory>
    requires { IsSeed seed }
    ensures records { IfOk result (λ batches. records_in batches.items ≡ drill_records seed) }
    ensures fit { IfOk result
        (λ batches. sum_by absolute_of (records_in batches.items) ≤ 819200000) }
{
    let base = record_base(alloc, seed)?;
    match engine {
        Engine::Kept => in_three(alloc, base),
        _ => Ok(vec![in alloc; base]?),
    }
}

/// A base of 2,000 records as batches of 1,900, 50 and 50.
fn in_three(alloc: Global, base: Base<Record>) -> Result<Vec<Base<Record>>, NoMemory>
    requires { length (records_of base) ≡ 2000 }
    ensures { IfOk result (λ batches. records_in batches.items ≡ records_of base) }
{
    let mut first = base;
    let mut second = first.split_off(1900)?;
    let third = second.split_off(50)?;
    Ok(vec![in alloc; first, second, third]?)
}
