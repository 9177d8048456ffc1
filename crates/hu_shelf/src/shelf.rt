//! The store of a name.

ghost use Rattle.std.specs.Prelude.{◌≡◌, ◌⊎◌, ◌+◌, unsigned_abs, OnErr, ◌<◌, ◌^◌, ◌≤◌, pos, ◌≤ℤ◌, Some, None, IfOk, IfErr, IfSome, OnOk, length, true};
ghost use Rattle.std.specs.List.{All};
ghost use Rattle.std.specs.Str.{bytes_eq};
ghost use Rattle.hu_base.specs.Base.{carried_of, records_of};
ghost use Rattle.hu_kept.specs.Changes.{changes};
ghost use Rattle.hu_kept.specs.Kept.{answer_of, fresh, with_batch};
ghost use Rattle.hu_shelf.specs.Keeper.{Told, keeping_text};
ghost use Rattle.hu_shelf.specs.Shelf.{IsFaultOf, Refuses, absolute_sum, add_fault, create_fault, find_fault};
ghost use Rattle.hu_shelf.specs.Settings.{store_with};
ghost use Rattle.hu_shelf.specs.Store.{IsStore, IsWritten, is_least, is_top, store_of, store_text};

use crate::content;
use crate::content::MOST_BYTES;
use crate::cut::cut;
use crate::fault::ShelfFault;
use crate::keeper::Keeper;
use crate::records::{push_records, read_records};
use crate::settings::Settings;
use hu_base::Base;
use hu_kept::{Changes, Kept};
use hu_kind::{Entry, NoMemory, Record};
use std::alloc::Global;
use std::marker::Model;

/// The records of a store with the task that they are kept for, and their answer. It is seen as a kept answer is.
#[derive(Drop)]
pub struct Shelf {
    alloc: Global,
    kept: Kept,
    text: Vec<u8>,
    sum: i128,
    closed: bool,
}

impl Model for Shelf {
    ghost use Rattle.hu_kept.specs.Kept.{Keeping};
    ghost use Rattle.hu_shelf.specs.Shelf.{IsShelf};

    ghost Value = { Keeping };

    ghost view = { λ s. s.kept };

    ghost invariant = { λ s. IsShelf s.kept s.text.items s.sum s.closed };
}

impl Shelf {
    /// Puts a store without records under a name that has no text. Nothing is put there after a refusal.
    pub fn create<K: Keeper>(
        alloc: Global,
        keeper: &mut K,
        name: &str,
        least: i128,
        top: Option<u32>,
        closed: bool,
    ) -> Result<(), ShelfFault>
        requires least { pos 1 ≤ℤ least }
        requires some { IfSome top (λ k. 1 ≤ k) }
        requires few { IfSome top (λ k. k ≤ 1000000) }

        ensures put { OnOk result (K.state keeper.new
            ≡ keeping_text name.now (store_text (fresh least top closed)) (K.state keeper.old)) }
        ensures free { OnOk result (Told (K.state keeper.old) name.now
            (λ text. create_fault text ≡ None)) }
        ensures store { OnOk result (IsStore (fresh least top closed)) }
        ensures err { IfErr result (Refuses (K.state keeper.old) (K.state keeper.new) name.now
            (IsFaultOf (K.state keeper.old) name.now create_fault)) }
    {
        if !content::is_empty(keeper, name)? {
            return Err(ShelfFault::Present);
        }
        let settings = Settings { least, top, closed };
        let text = write_text(alloc, settings, &[])?;
        keeper.replace(name, &text)?;
        Ok(())
    }

    /// The store under a name. It reads the text whole, and finds the answer of its records.
    pub fn find<K: Keeper>(alloc: Global, keeper: &mut K, name: &str) -> Result<Shelf, ShelfFault>
        ensures told { IfOk result (λ shelf. Told (K.state keeper.old) name.now
            (λ text. store_of text ≡ Some shelf)) }
        ensures text { IfOk result (λ shelf. Told (K.state keeper.old) name.now
            (λ text. text ≡ store_text shelf)) }
        ensures store { IfOk result IsStore }
        ensures same { OnOk result (K.state keeper.new ≡ K.state keeper.old) }
        ensures err { IfErr result (Refuses (K.state keeper.old) (K.state keeper.new) name.now
            (IsFaultOf (K.state keeper.old) name.now find_fault)) }
    {
        let Some(text) = content::read(alloc, keeper, name)? else {
            return Err(ShelfFault::Damaged);
        };
        if text.is_empty() {
            return Err(ShelfFault::Absent);
        }
        Shelf::read(alloc, text)
    }

    /// Adds the records of a batch, whose carried sum isn't counted, to the store under its name, and tells how the
    /// answer changed. After a refusal the text stands, and the shelf and the batch are dropped.
    pub fn add<K: Keeper>(
        self,
        keeper: &mut K,
        name: &str,
        batch: Base<Record>,
    ) -> Result<(Shelf, Changes), ShelfFault>
        requires { Told (K.state keeper.old) name.now (λ text. text ≡ store_text self) }

        ensures put { OnOk result (K.state keeper.new
            ≡ keeping_text name.now (store_text (with_batch self (records_of batch)))
            (K.state keeper.old)) }
        ensures shelf { IfOk result (λ done. done.0 ≡ with_batch self (records_of batch)) }
        ensures changes { IfOk result (λ done.
            done.1 ≡ changes (answer_of self) (answer_of (with_batch self (records_of batch)))) }
        ensures store { IfOk result (λ done. IsStore done.0) }
        ensures fits { OnOk result (add_fault self (records_of batch) ≡ None) }
        ensures err { IfErr result (Refuses (K.state keeper.old) (K.state keeper.new) name.now
            (λ fault. add_fault self (records_of batch) ≡ Some fault)) }
    {
        let (shelf, changes) = self.append(batch)?;
        keeper.replace(name, &shelf.text)?;
        Ok((shelf, changes))
    }

    /// The answer of the store's records, in the one order.
    pub fn entries(&self, alloc: Global) -> Result<Vec<Entry>, NoMemory>
        ensures { IfOk result (λ entries. entries.items ≡ answer_of self.now) }
    {
        self.kept.entries(alloc)
    }

    /// The sum of the absolute values of all utilities.
    pub fn sum(&self) -> i128
        ensures value { result ≡ pos (absolute_sum (self.now).records) }
        ensures fits { absolute_sum (self.now).records < 2 ^ 127 }
    {
        self.sum
    }

    /// Whether closed itemsets alone are wanted.
    pub fn closed(&self) -> bool
        ensures { result ≡ (self.now).closed }
    {
        self.closed
    }

    /// The store of a text, which it keeps.
    fn read(alloc: Global, text: Vec<u8>) -> Result<Shelf, ShelfFault>
        ensures ok { IfOk result (λ shelf. store_of text.items ≡ Some shelf) }
        ensures store { IfOk result IsStore }
        ensures err { IfErr result (λ fault. (fault ≡ ShelfFault.NoMemory)
            ⊎ ((fault ≡ ShelfFault.Damaged) × (store_of text.items ≡ None))) }
    {
        let (_, rest) = cut(&text, b'\n');
        let (line, rest) = cut(rest, b'\n');
        let Some(settings) = Settings::read(line) else {
            return Err(ShelfFault::Damaged);
        };
        let Some(base) = read_records(alloc, rest)? else {
            return Err(ShelfFault::Damaged);
        };
        if !is_text_of(alloc, &text, settings, base.records())? {
            return Err(ShelfFault::Damaged);
        }
        if text.len() > MOST_BYTES {
            return Err(ShelfFault::Damaged);
        }
        Shelf::of(alloc, settings, base, text)
    }

    /// The shelf of settings and records with their text.
    fn of(
        alloc: Global,
        settings: Settings,
        base: Base<Record>,
        text: Vec<u8>,
    ) -> Result<Shelf, ShelfFault>
        requires least { is_least settings.least ≡ true }
        requires top { is_top settings.top ≡ true }
        requires carried { carried_of base ≡ 0 }
        requires written { All IsWritten (records_of base) }
        requires text { text.items ≡ store_text (store_with settings (records_of base)) }
        requires short { length text.items ≤ MOST_BYTES }
        ensures shelf { IfOk result (λ shelf. shelf ≡ store_with settings (records_of base)) }
        ensures store { IfOk result IsStore }
        ensures err { IfErr result (λ fault. fault ≡ ShelfFault.NoMemory) }
    {
        let mut kept = Kept::new(alloc, settings.least, settings.top, settings.closed);
        let sum = base.sum();
        let Ok(_) = kept.append(base) else {
            return Err(ShelfFault::NoMemory);
        };
        Ok(Shelf {
            alloc,
            kept,
            text,
            sum,
            closed: settings.closed,
        })
    }

    /// The shelf with a batch, and how the answer changed.
    fn append(self, batch: Base<Record>) -> Result<(Shelf, Changes), ShelfFault>
        ensures shelf { IfOk result (λ done. done.0 ≡ with_batch self (records_of batch)) }
        ensures changes { IfOk result (λ done.
            done.1 ≡ changes (answer_of self) (answer_of (with_batch self (records_of batch)))) }
        ensures fits { OnOk result (add_fault self (records_of batch) ≡ None) }
        ensures err { IfErr result (λ fault. (fault ≡ ShelfFault.NoMemory)
            ⊎ (add_fault self (records_of batch) ≡ Some fault)) }
    {
        let Shelf {
            alloc,
            mut kept,
            mut text,
            sum: before,
            closed,
        } = self;
        let sum = sum_with(before, &batch)?;
        push_records(alloc, &mut text, batch.records())?;
        if text.len() > MOST_BYTES {
            return Err(ShelfFault::TooLarge);
        }
        let Ok(changes) = kept.append(batch) else {
            return Err(ShelfFault::NoMemory);
        };
        let shelf = Shelf {
            alloc,
            kept,
            text,
            sum,
            closed,
        };
        Ok((shelf, changes))
    }
}

/// Whether a text is that of a store with these settings and records, which is written in order to be compared.
fn is_text_of(
    alloc: Global,
    text: &[u8],
    settings: Settings,
    records: &[Record],
) -> Result<bool, NoMemory>
    ensures value { IfOk result
        (λ same. same ≡ bytes_eq (store_text (store_with settings records.now)) text.now) }
    ensures written { OnOk result (All IsWritten records.now) }
{
    let written = write_text(alloc, settings, records)?;
    Ok(written.as_slice() == text)
}

/// The text of a store with these settings and records.
fn write_text(alloc: Global, settings: Settings, records: &[Record]) -> Result<Vec<u8>, NoMemory>
    ensures text { IfOk result (λ text. text.items ≡ store_text (store_with settings records.now)) }
    ensures written { OnOk result (All IsWritten records.now) }
{
    let mut text = Vec::new(alloc);
    text.extend_from_slice(b"hupm shelf 1\n")?;
    settings.push_line(&mut text)?;
    text.push(b'\n')?;
    push_records(alloc, &mut text, records)?;
    Ok(text)
}

/// The sum after a batch, whose carried sum isn't counted, where that is at most 2^127 - 1.
fn sum_with(before: i128, batch: &Base<Record>) -> Result<i128, ShelfFault>
    requires { pos 0 ≤ℤ before }
    ensures sum { IfOk result (λ sum. sum
        ≡ pos (unsigned_abs before + absolute_sum (records_of batch.now))) }
    ensures fits { OnOk result
        (unsigned_abs before + absolute_sum (records_of batch.now) < 2 ^ 127) }
    ensures large { OnErr result
        (2 ^ 127 ≤ unsigned_abs before + absolute_sum (records_of batch.now)) }
    ensures fault { IfErr result (λ fault. fault
        ≡ ShelfFault.SumTooLarge before (pos (absolute_sum (records_of batch.now)))) }
{
    let added = batch.sum() - batch.carried();
    match before.checked_add(added) {
        Some(sum) => Ok(sum),
        None => Err(ShelfFault::SumTooLarge { before, added }),
    }
}
