//! The kept answer.

ghost use Rattle.std.specs.Prelude.{◌≡◌, ◌⊎◌, ◌+◌, ◌<◌, ◌≤◌, ◌^◌, false, pos, ◌≤ℤ◌, None, IfOk, IfSome, OnOk, OnErr, IsOkUnless};
ghost use Rattle.std.specs.List.{list_any, sum_by};
ghost use Rattle.hu_kind.specs.Record.{absolute_of, any_negative};
ghost use Rattle.hu_base.specs.Base.{records_of};
ghost use Rattle.hu_kept.specs.Kept.{answer_of, fresh, with_batch};
ghost use Rattle.hu_kept.specs.Changes.{changes};
ghost use Rattle.hu_kept.specs.Laws.{NoneBelow};

use crate::aim::Aim;
use crate::batch::Batch;
use crate::changes::Changes;
use crate::gates::{Gates, Pairs};
use crate::held::{Held, copies};
use crate::holders::Holders;
use crate::renewal::renewed;
use hu_base::Base;
use hu_kind::{Entry, Key, NoMemory, Record};
use indexmap::IndexMap;
use std::alloc::Global;
use std::marker::Model;

/// Why a batch was not appended.
#[derive(Clone, Copy, Debug, PartialEq, Eq)]
pub enum AppendFault {
    /// The absolute sums of the records so far and of the batch's would pass 2^127 - 1 together.
    SumTooLarge { before: i128, added: i128 },
    /// There is no memory for it.
    NoMemory,
}

impl From<NoMemory> for AppendFault {
    ghost use Rattle.hu_kept.specs.declared.kept.AppendFault.TheVariants.{NoMemory};

    ghost from_gives = { λ _ e. e ≡ NoMemory };

    fn from(_fault: NoMemory) -> AppendFault {
        AppendFault::NoMemory
    }
}

/// All records that were appended, and their answer: the itemsets that earn at least a least utility, or the closed ones
/// among them, all of them or the first k. It is seen as these records with the task.
#[derive(Drop)]
pub struct Kept {
    records: Base<Record>,
    holders: Holders,
    aim: Aim,
    entries: IndexMap<Key, Held>,
    alloc: Global,
}

impl Model for Kept {
    ghost use Rattle.hu_base.specs.Base.{records_of};
    ghost use Rattle.hu_kept.specs.Kept.{Keeping};
    ghost use Rattle.hu_kept.specs.Entries.{IsKeeping, keeping};

    ghost Value = { Keeping };

    ghost view = { λ k. keeping k.aim (records_of k.records) };

    ghost invariant = { λ k. IsKeeping k.aim k.records k.holders k.entries.entries };
}

impl Kept {
    /// A kept answer without records. It takes no memory.
    pub fn new(alloc: Global, least: i128, top: Option<u32>, closed: bool) -> Kept
        requires least { pos 1 ≤ℤ least }
        requires some { IfSome top (λ k. 1 ≤ k) }
        ensures { result ≡ fresh least top closed }
    {
        Kept {
            records: Base::after(alloc, 0),
            holders: Holders::none(alloc),
            aim: Aim { least, top, closed },
            entries: IndexMap::new(alloc),
            alloc,
        }
    }

    /// Appends the records of a batch, whose carried sum isn't counted, and tells how the answer changed. After a refusal
    /// the kept answer is as before, and the batch is dropped. The first append, and one with a value below 0 where there is
    /// a limit, mines all records. Another one looks up the items of the records of the last append, and the records that
    /// hold an item of the batch; it ranks these items and searches what the records hold of them. It copies the entries.
    pub fn append(&mut self, batch: Base<Record>) -> Result<Changes, AppendFault>
        ensures ok { OnOk result (self.new ≡ with_batch self.old (records_of batch)) }
        ensures changes { IfOk result (λ told. told ≡ changes (answer_of self.old)
            (answer_of (with_batch self.old (records_of batch)))) }
        ensures err { OnErr result (self.new ≡ self.old) }
        ensures fits { sum_by absolute_of (self.old).records + sum_by absolute_of (records_of batch) < 2 ^ 127
            → IsOkUnless result AppendFault.NoMemory }
        ensures too_large { 2 ^ 127 ≤ sum_by absolute_of (self.old).records + sum_by absolute_of (records_of batch)
            → result ≡ Err (AppendFault.SumTooLarge (pos (sum_by absolute_of (self.old).records)) (pos (sum_by absolute_of (records_of batch)))) }
    {
        self.append_by(batch, &Pairs)
    }

    /// Appends a batch, searching by the gates that are made.
    pub(crate) fn append_by<G: Gates>(
        &mut self,
        batch: Base<Record>,
        gates: &G,
    ) -> Result<Changes, AppendFault>
        ensures ok { OnOk result (self.new ≡ with_batch self.old (records_of batch)) }
        ensures changes { IfOk result (λ told. told ≡ changes (answer_of self.old)
            (answer_of (with_batch self.old (records_of batch)))) }
        ensures err { OnErr result (self.new ≡ self.old) }
        ensures fits { sum_by absolute_of (self.old).records + sum_by absolute_of (records_of batch) < 2 ^ 127
            → IsOkUnless result AppendFault.NoMemory }
        ensures too_large { 2 ^ 127 ≤ sum_by absolute_of (self.old).records + sum_by absolute_of (records_of batch)
            → result ≡ Err (AppendFault.SumTooLarge (pos (sum_by absolute_of (self.old).records)) (pos (sum_by absolute_of (records_of batch)))) }
    {
        self.room(&batch)?;
        let touched = self.touched(&batch)?;
        self.holders.note(self.alloc, &self.records)?;
        let count = self.records.records().len();
        self.records.join_fitting(batch)?;
        let entries = renewed(
            self.alloc,
            &self.records,
            self.aim,
            &self.entries,
            touched.as_ref(),
            &self.holders,
            gates,
        );
        match entries {
            Ok(entries) => {
                let changes = Changes::between(&self.entries, &entries);
                self.entries = entries;
                Ok(changes)
            }
            Err(fault) => {
                self.records.shorten(count);
                Err(fault.into())
            }
        }
    }

    /// The answer of all appended records, in the one order.
    pub fn entries(&self, alloc: Global) -> Result<Vec<Entry>, NoMemory>
        ensures { IfOk result (λ entries. entries.items ≡ answer_of self.now) }
    {
        copies(alloc, &self.entries)
    }

    /// The batch, where it is enough to search the patterns that it touches. Where there are no records yet, all patterns
    /// are touched. With a limit and a value below 0 it isn't enough: an entry of the first k may lose what it earned, and an
    /// untouched pattern outside them may come in.
    fn touched(&self, batch: &Base<Record>) -> Result<Option<Batch>, NoMemory>
        ensures sets { IfOk result (λ found. IfSome found (λ one. one ≡ records_of batch.now)) }
        ensures either { IfOk result (λ found. IfSome found
            (λ one. ((self.now).top ≡ None) ⊎ NoneBelow (records_of batch.now))) }
    {
        if self.records.records().is_empty() || may_lose(self.aim.top, batch.records()) {
            return Ok(None);
        }
        Ok(Some(Batch::of(self.alloc, batch)?))
    }

    /// Refuses a batch with which the absolute sums would pass 2^127 - 1.
    fn room(&self, batch: &Base<Record>) -> Result<(), AppendFault>
        ensures fits { OnOk result (sum_by absolute_of (self.now).records + sum_by absolute_of
            (records_of batch.now) < 2 ^ 127) }
        ensures too_large { OnErr result (2 ^ 127 ≤ sum_by absolute_of (self.now).records + sum_by absolute_of
            (records_of batch.now)) }
        ensures cause { OnErr result
            (result ≡ Err (AppendFault.SumTooLarge (pos (sum_by absolute_of (self.now).records))
            (pos (sum_by absolute_of (records_of batch.now))))) }
    {
        let before = self.records.sum();
        let added = batch.sum() - batch.carried();
        match before.checked_add(added) {
            Some(_) => Ok(()),
            None => Err(AppendFault::SumTooLarge { before, added }),
        }
    }
}

/// Whether there is a limit, and a value below 0, by which an entry may lose.
fn may_lose(top: Option<u32>, records: &[Record]) -> bool
    ensures { result ≡ false → (top ≡ None) ⊎ NoneBelow records.now }
{
    top.is_some() && any_negative(records)
}

/// Whether a record holds a value below 0.
fn any_negative(records: &[Record]) -> bool
    ensures { result ≡ list_any any_negative records.now }
{
    records.iter().any(|record| record.has_negative())
}
