//! The records of a run.

ghost use Rattle.std.specs.Prelude.{◌≡◌, ◌+◌, ◌<◌, ◌≤◌, ◌^◌, pos, ◌+ℤ◌, ◌≤ℤ◌, unsigned_abs, [], ◌∷◌, ◌++◌, take, drop, length, OnOk, OnErr, IfOk, IsOk, IsOkUnless};
ghost use Rattle.std.specs.List.{sum_by};
ghost use Rattle.hu_base.specs.Base.{carried_of, records_of, sum_of};

use hu_kind::{Absolute, NoMemory};
use std::alloc::{AllocError, AllocFailed, Global};
use std::marker::Model;

/// Why records were not added.
#[derive(Clone, Copy, Debug, PartialEq, Eq)]
pub enum AddFault {
    /// The sum so far and that of what was handed in would pass 2^127 - 1 together.
    SumTooLarge { before: i128, added: i128 },
    /// There is no memory for them.
    NoMemory,
}

impl<T: Drop> From<AllocFailed<T>> for AddFault {
    ghost use Rattle.hu_base.specs.declared.base.AddFault.TheVariants.{NoMemory};

    ghost from_gives = { λ _ e. e ≡ NoMemory };

    fn from(_failed: AllocFailed<T>) -> AddFault {
        AddFault::NoMemory
    }
}

impl From<AllocError> for AddFault {
    ghost use Rattle.hu_base.specs.declared.base.AddFault.TheVariants.{NoMemory};

    ghost from_gives = { λ _ e. e ≡ NoMemory };

    fn from(_error: AllocError) -> AddFault {
        AddFault::NoMemory
    }
}

impl From<NoMemory> for AddFault {
    ghost use Rattle.hu_base.specs.declared.base.AddFault.TheVariants.{NoMemory};

    ghost from_gives = { λ _ e. e ≡ NoMemory };

    fn from(_fault: NoMemory) -> AddFault {
        AddFault::NoMemory
    }
}

/// Records in order, with the sum of the absolute values of all their utilities, which is at most 2^127 - 1. It may
/// carry the sum of records accepted earlier. It is seen as the carried sum and the list of the records.
#[derive(Drop)]
pub struct Base<R: Absolute> {
    carried: i128,
    sum: i128,
    records: Vec<R>,
}

impl<R: Absolute> Model for Base<R> {
    ghost use Rattle.std.specs.Prelude.{◌≡◌, ℕ, pos, ◌≤ℤ◌, unsigned_abs, List};
    ghost use Rattle.hu_base.specs.Base.{sum_of};

    ghost Value = { ℕ × List R };

    ghost view = { λ b. (unsigned_abs b.carried, b.records.items) };

    ghost invariant = { λ b. (pos 0 ≤ℤ b.carried) × (b.sum ≡ pos (sum_of R.absolute (unsigned_abs b.carried, b.records.items))) };
}

impl<R: Absolute> Base<R> {
    /// An empty base that counts `carried` as already accepted. It takes no memory.
    pub fn after(alloc: Global, carried: i128) -> Base<R>
        requires { pos 0 ≤ℤ carried }
        ensures { result ≡ (unsigned_abs carried, []) }
    {
        Base {
            carried,
            sum: carried,
            records: Vec::new(alloc),
        }
    }

    /// Appends a record, in constant amortised time. A refused record is dropped.
    pub fn add(&mut self, one: R) -> Result<(), AddFault>
        ensures ok { OnOk result (self.new ≡ (carried_of self.old, records_of self.old ++ one ∷ [])) }
        ensures within { OnOk result (sum_of R.absolute self.old + R.absolute one < 2 ^ 127) }
        ensures err { OnErr result (self.new ≡ self.old) }
        ensures fits { sum_of R.absolute self.old + R.absolute one < 2 ^ 127
            → IsOkUnless result AddFault.NoMemory }
        ensures too_large { 2 ^ 127 ≤ sum_of R.absolute self.old + R.absolute one
            → result ≡ Err (AddFault.SumTooLarge (pos (sum_of R.absolute self.old)) (pos (R.absolute one))) }
    {
        self.room_for(one.absolute())?;
        self.add_fitting(one)?;
        Ok(())
    }

    /// Appends a record whose sum has room, in constant amortised time. After want of memory the base is as it was.
    pub fn add_fitting(&mut self, one: R) -> Result<(), NoMemory>
        requires { sum_of R.absolute self.old + R.absolute one < 2 ^ 127 }
        ensures ok { OnOk result (self.new ≡ (carried_of self.old, records_of self.old ++ one ∷ [])) }
        ensures err { OnErr result (self.new ≡ self.old) }
    {
        let added = one.absolute();
        self.records.push(one)?;
        self.sum += added;
        Ok(())
    }

    /// Appends the records of another base, whose carried sum isn't counted. They move, in constant amortised time for
    /// each. A refused base is dropped.
    pub fn join(&mut self, other: Base<R>) -> Result<(), AddFault>
        ensures ok { OnOk result (self.new ≡ (carried_of self.old, records_of self.old ++ records_of other)) }
        ensures within { OnOk result (sum_of R.absolute self.old + sum_by R.absolute
            (records_of other) < 2 ^ 127) }
        ensures err { OnErr result (self.new ≡ self.old) }
        ensures fits { sum_of R.absolute self.old + sum_by R.absolute (records_of other) < 2 ^ 127
            → IsOkUnless result AddFault.NoMemory }
        ensures too_large { 2 ^ 127 ≤ sum_of R.absolute self.old + sum_by R.absolute (records_of other)
            → result ≡ Err (AddFault.SumTooLarge (pos (sum_of R.absolute self.old)) (pos (sum_by R.absolute (records_of other)))) }
    {
        self.room_for(other.own_sum())?;
        self.join_fitting(other)?;
        Ok(())
    }

    /// Appends the records of another base, whose carried sum isn't counted, where their sum has room. They move, in constant
    /// amortised time for each. After want of memory the base is as it was.
    pub fn join_fitting(&mut self, other: Base<R>) -> Result<(), NoMemory>
        requires { sum_of R.absolute self.old + sum_by R.absolute (records_of other) < 2 ^ 127 }
        ensures ok { OnOk result
            (self.new ≡ (carried_of self.old, records_of self.old ++ records_of other)) }
        ensures err { OnErr result (self.new ≡ self.old) }
    {
        let added = other.own_sum();
        let mut records = other.records;
        self.records.append(&mut records)?;
        self.sum += added;
        Ok(())
    }

    /// Keeps the first `count` records and drops the others, in time for each of those. The carried sum stays. It takes
    /// no memory.
    pub fn shorten(&mut self, count: usize)
        requires { count ≤ length (records_of self.old) }
        ensures { self.new ≡ (carried_of self.old, take count (records_of self.old)) }
    {
        self.sum -= shorten(&mut self.records, count);
    }

    /// Keeps the first `count` records and hands out the others as a base that carries nothing. They move, in time for each of
    /// them. After want of memory the base is as it was.
    pub fn split_off(&mut self, count: usize) -> Result<Base<R>, NoMemory>
        requires { count ≤ length (records_of self.old) }
        ensures kept { OnOk result (self.new ≡ (carried_of self.old, take count (records_of self.old))) }
        ensures rest { IfOk result (λ rest. rest ≡ (0, drop count (records_of self.old))) }
        ensures err { OnErr result (self.new ≡ self.old) }
    {
        let records = self.records.split_off(count)?;
        let sum = absolute_sum(&records);
        self.sum -= sum;
        Ok(Base {
            carried: 0,
            sum,
            records,
        })
    }

    /// Sees that records of an absolute sum have room: that the sum with them is at most 2^127 - 1.
    fn room_for(&self, added: i128) -> Result<(), AddFault>
        requires { pos 0 ≤ℤ added }
        ensures ok { OnOk result (sum_of R.absolute self.now + unsigned_abs added < 2 ^ 127) }
        ensures fits { sum_of R.absolute self.now + unsigned_abs added < 2 ^ 127 → IsOk result }
        ensures too_large { 2 ^ 127 ≤ sum_of R.absolute self.now + unsigned_abs added → result
            ≡ Err (AddFault.SumTooLarge (pos (sum_of R.absolute self.now)) added) }
    {
        let before = self.sum;
        match before.checked_add(added) {
            Some(_) => Ok(()),
            None => Err(AddFault::SumTooLarge { before, added }),
        }
    }

    /// The absolute sums of the records alone.
    fn own_sum(&self) -> i128
        ensures { result ≡ pos (sum_by R.absolute (records_of self.now)) }
    {
        self.sum - self.carried
    }

    /// The records in order.
    pub fn records(&self) -> &[R]
        ensures { result.now ≡ records_of self.now }
    {
        self.records.as_slice()
    }

    /// The absolute sum that counts as already accepted.
    pub fn carried(&self) -> i128
        ensures { result ≡ pos (carried_of self.now) }
    {
        self.carried
    }

    /// The carried sum with the absolute sums of all records.
    pub fn sum(&self) -> i128
        ensures value { result ≡ pos (sum_of R.absolute self.now) }
        ensures fits { sum_of R.absolute self.now < 2 ^ 127 }
    {
        self.sum
    }
}

/// The absolute sums of records together.
fn absolute_sum<R: Absolute>(records: &[R]) -> i128
    requires { sum_by R.absolute records.now < 2 ^ 127 }
    ensures { result ≡ pos (sum_by R.absolute records.now) }
{
    let mut sum = 0;
    for one in records {
        sum += one.absolute();
    }
    sum
}

/// Keeps the first `count` records, and answers the absolute sums of the others together.
fn shorten<R: Absolute>(records: &mut Vec<R>, count: usize) -> i128
    requires within { count ≤ length records.old.items }
    requires fits { sum_by R.absolute records.old.items < 2 ^ 127 }
    ensures kept { records.new.items ≡ take count records.old.items }
    ensures sum { pos (sum_by R.absolute records.new.items) +ℤ result
        ≡ pos (sum_by R.absolute records.old.items) }
{
    let dropped = absolute_sum(&records[count..]);
    records.truncate(count);
    dropped
}
