//! What is asked of a store, done.

ghost use Rattle.std.specs.Prelude.{◌≡◌, ◌≢◌, ℕ, List, [], ◌∷◌, ◌+◌, ◌<◌, ◌≤◌, ◌^◌, ℤ, pos, ◌≤ℤ◌, None, Some, length, unsigned_abs, IfErr, IfOk, IfSome, OnOk};
ghost use Rattle.hu_io.specs.State.{FilesState, SinkState};
ghost use Rattle.hu_input.specs.Names.{texts_of};
ghost use Rattle.hu_base.specs.Base.{records_of};
ghost use Rattle.hu_kept.specs.Changes.{changes};
ghost use Rattle.hu_kept.specs.Kept.{answer_of, fresh, with_batch};
ghost use Rattle.hu_shelf.specs.Keeper.{Told, keeping_text};
ghost use Rattle.hu_shelf.specs.Shelf.{IsFaultOf, absolute_sum, add_fault, find_fault};
ghost use Rattle.hu_shelf.specs.Store.{IsStore, store_of, store_text};
ghost use Rattle.hu_shelf.specs.declared.fault.ShelfFault.TheVariants as shelf;
ghost use Rattle.hu_run.specs.ShelfJob.{make, add, show, shelving_of, IsLawful};
ghost use Rattle.hu_run.specs.ShelfEnding.{task_of};
ghost use Rattle.hu_run.specs.ShelfAttempt.{AreFiles, HasRead, KeepsOut, IsStopOf, ShelfEnds, StopsCall, StopsRead, scene, shelf_fault};

use super::fault::StoreFault;
use super::line::write_changes;
use super::stop::ShelfStop;
use super::words::ShelfJob;
use crate::stop::Stop;
use hu_base::Base;
use hu_input::{Transactions, read_files};
use hu_io::{Files, Sink};
use hu_kept::Changes;
use hu_kind::{Record, Task};
use hu_report::write_entries;
use hu_shelf::{Keeper, Shelf, ShelfFault};
use std::alloc::Global;

/// Does what is asked of a store; `names` has the name of the file where one is read.
pub(super) fn answer<'a, F: Files, O: Sink, K: Keeper>(
    alloc: Global,
    job: &ShelfJob<'a>,
    names: &'a [String],
    files: &mut F,
    out: &mut O,
    keeper: &mut K,
) -> Result<(), ShelfStop<'a>>
    requires lawful { IsLawful (shelving_of job.now) }
    requires names { AreFiles (shelving_of job.now) (texts_of names.now) }
    ensures ends { ShelfEnds (shelving_of job.now) (scene (F.state files.old) (F.state files.new)
        (O.state out.old) (O.state out.new) (K.state keeper.old) (K.state keeper.new)) result }
    ensures unwritten { KeepsOut result out.old out.new }
{
    match *job {
        ShelfJob::New {
            name,
            closed,
            least,
            top,
        } => make(alloc, keeper, name, closed, least, top),
        ShelfJob::Add { name, .. } => add(alloc, names, files, out, keeper, name),
        ShelfJob::Show { name } => show(alloc, out, keeper, name),
    }
}

/// Makes a store without records.
fn make<'a, K: Keeper>(
    alloc: Global,
    keeper: &mut K,
    name: &'a str,
    closed: bool,
    least: i128,
    top: Option<u32>,
) -> Result<(), ShelfStop<'a>>
    requires least { pos 1 ≤ℤ least }
    requires some { IfSome top (λ k. 1 ≤ k) }
    requires few { IfSome top (λ k. k ≤ 1000000) }
    ensures { (files : FilesState) (out : SinkState)
        → ShelfEnds (make name.now (fresh least top closed))
        (scene files files out out (K.state keeper.old) (K.state keeper.new)) result }
{
    match Shelf::create(alloc, keeper, name, least, top, closed) {
        Ok(()) => Ok(()),
        Err(fault) => Err(stop_of(name, fault)),
    }
}

/// Adds the records of a file to a store, and writes how the answer changed.
fn add<'a, F: Files, O: Sink, K: Keeper>(
    alloc: Global,
    names: &'a [String],
    files: &mut F,
    out: &mut O,
    keeper: &mut K,
    name: &'a str,
) -> Result<(), ShelfStop<'a>>
    requires one { length names.now ≡ 1 }
    ensures ends { (file : List ℕ) → texts_of names.now ≡ file ∷ [] → ShelfEnds (add name.now file)
        (scene (F.state files.old) (F.state files.new) (O.state out.old) (O.state out.new)
        (K.state keeper.old) (K.state keeper.new)) result }
    ensures unwritten { KeepsOut result out.old out.new }
{
    let shelf = find(alloc, keeper, name)?;
    let batch = read_batch(alloc, files, names, shelf.sum())?;
    let changes = grow(keeper, name, shelf, batch)?;
    Ok(write_changes(changes, out)?)
}

/// Writes the answer of a store.
fn show<'a, O: Sink, K: Keeper>(
    alloc: Global,
    out: &mut O,
    keeper: &mut K,
    name: &'a str,
) -> Result<(), ShelfStop<'a>>
    ensures ends { (files : FilesState)
        → ShelfEnds (show name.now) (scene files files (O.state out.old)
        (O.state out.new) (K.state keeper.old) (K.state keeper.new)) result }
    ensures unwritten { KeepsOut result out.old out.new }
{
    let shelf = find(alloc, keeper, name)?;
    let entries = shelf.entries(alloc)?;
    Ok(write_entries(&entries, task_of(shelf.closed()), out)?)
}

/// The store of a name.
fn find<'a, K: Keeper>(alloc: Global, keeper: &mut K, name: &'a str) -> Result<Shelf, ShelfStop<'a>>
    ensures told { IfOk result (λ shelf. Told (K.state keeper.old) name.now
        (λ text. store_of text ≡ Some shelf)) }
    ensures text { IfOk result (λ shelf. Told (K.state keeper.old) name.now
        (λ text. text ≡ store_text shelf)) }
    ensures store { IfOk result IsStore }
    ensures same { OnOk result (K.state keeper.new ≡ K.state keeper.old) }
    ensures err { IfErr result (StopsCall (K.state keeper.old) (K.state keeper.new) name.now
        (λ fault. IsFaultOf (K.state keeper.old) name.now find_fault (shelf_fault fault))) }
{
    match Shelf::find(alloc, keeper, name) {
        Ok(shelf) => Ok(shelf),
        Err(fault) => Err(stop_of(name, fault)),
    }
}

/// The records of the one file, after a sum.
fn read_batch<'a, F: Files>(
    alloc: Global,
    files: &mut F,
    names: &'a [String],
    carried: i128,
) -> Result<Base<Record>, Stop<'a>>
    requires one { length names.now ≡ 1 }
    requires carried { pos 0 ≤ℤ carried }
    ensures ok { IfOk result
        (λ base. HasRead (unsigned_abs carried) (F.state files.old) (F.state files.new)
        (texts_of names.now) (records_of base)) }
    ensures err { IfErr result
        (StopsRead (unsigned_abs carried) (F.state files.old) (F.state files.new)
        (texts_of names.now)) }
{
    let mut bases = read_files::<Transactions, F>(alloc, files, names, carried)?;
    match bases.pop() {
        Some(base) => Ok(base),
        None => unreachable!(),
    }
}

/// Adds records to a store, and tells how the answer changed.
fn grow<'a, K: Keeper>(
    keeper: &mut K,
    name: &'a str,
    shelf: Shelf,
    batch: Base<Record>,
) -> Result<Changes, ShelfStop<'a>>
    requires told { Told (K.state keeper.old) name.now (λ text. text ≡ store_text shelf) }
    requires fits { absolute_sum shelf.records + absolute_sum (records_of batch) < 2 ^ 127 }
    ensures put { OnOk result (K.state keeper.new
        ≡ keeping_text name.now (store_text (with_batch shelf (records_of batch)))
        (K.state keeper.old)) }
    ensures store { OnOk result (IsStore (with_batch shelf (records_of batch))) }
    ensures changes { IfOk result (λ told. told
        ≡ changes (answer_of shelf) (answer_of (with_batch shelf (records_of batch)))) }
    ensures fits { OnOk result (add_fault shelf (records_of batch) ≡ None) }
    ensures err { IfErr result (StopsCall (K.state keeper.old) (K.state keeper.new) name.now
        (λ fault. add_fault shelf (records_of batch) ≡ Some (shelf_fault fault))) }
{
    match shelf.add(keeper, name, batch) {
        Ok((_, changes)) => Ok(changes),
        Err(fault) => Err(stop_of(name, fault)),
    }
}

/// A fault of the store of a name as a stop.
fn stop_of(name: &str, fault: ShelfFault) -> ShelfStop<'_>
    requires { (before added : ℤ) → fault ≢ shelf.SumTooLarge before added }
    ensures { IsStopOf name.now fault result }
{
    let fault = match fault {
        ShelfFault::Absent => StoreFault::Absent,
        ShelfFault::Present => StoreFault::Present,
        ShelfFault::Damaged => StoreFault::Damaged,
        ShelfFault::TooLarge => StoreFault::TooLarge,
        ShelfFault::KeeperFailed => return ShelfStop::StoreFailed { name },
        ShelfFault::NoMemory => return ShelfStop::Job(Stop::NoMemory),
        ShelfFault::SumTooLarge { .. } => unreachable!(),
    };
    ShelfStop::Declined { name, fault }
}

/// The task of a store.
fn task_of(closed: bool) -> Task
    ensures { result ≡ task_of closed }
{
    if closed { Task::Closed } else { Task::Items }
}
