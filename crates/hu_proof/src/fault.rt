//! Why a certificate isn't accepted.

ghost use Rattle.std.specs.Prelude.{◌≡◌};

use hu_kind::{Item, NoMemory};
use std::alloc::{AllocError, AllocFailed};

/// The first thing that is wrong with a certificate. Lines are counted from 1, and come before one another; within a line
/// the faults come in the order in which they stand here.
#[derive(Clone, Copy, Debug, PartialEq, Eq)]
pub enum CheckFault {
    /// The text has more than 268,435,456 bytes.
    TooLong,
    /// The line isn't of its form, or is missing, or stands after the last one that is expected.
    NotOfForm {
        line: u64,
    },
    /// Line 1 states another minimum.
    WrongMinimum {
        stated: i128,
    },
    /// Line 2 doesn't hold just the items that occur, each once.
    WrongOrder,
    /// The line is that of another prefix than the one that is expected.
    WrongPrefix {
        line: u64,
    },
    /// The prefix earns another sum than is stated.
    WrongUtility {
        line: u64,
        stated: i128,
        summed: i128,
    },
    /// A token's item doesn't stand in the order after the prefix and the token before.
    WrongChild {
        line: u64,
        item: Item,
    },
    /// An item after the prefix in the order stands with it in some record, and is no token.
    LeftOut {
        line: u64,
        item: Item,
    },
    /// A token states another bound than the sum.
    WrongBound {
        line: u64,
        item: Item,
        stated: i128,
        summed: i128,
    },
    /// A token's bound reaches the minimum.
    NotCut {
        line: u64,
        item: Item,
        bound: i128,
    },
    /// Memory was asked for and not given. No text has this fault.
    NoMemory,
}

impl From<NoMemory> for CheckFault {
    ghost use Rattle.hu_proof.specs.declared.fault.CheckFault.{CheckFault};

    ghost from_gives = { λ _ fault. fault ≡ CheckFault.NoMemory };

    fn from(_error: NoMemory) -> CheckFault {
        CheckFault::NoMemory
    }
}

impl From<AllocError> for CheckFault {
    ghost use Rattle.hu_proof.specs.declared.fault.CheckFault.{CheckFault};

    ghost from_gives = { λ _ fault. fault ≡ CheckFault.NoMemory };

    fn from(_error: AllocError) -> CheckFault {
        CheckFault::NoMemory
    }
}

impl<T: Drop> From<AllocFailed<T>> for CheckFault {
    ghost use Rattle.hu_proof.specs.declared.fault.CheckFault.{CheckFault};

    ghost from_gives = { λ _ fault. fault ≡ CheckFault.NoMemory };

    fn from(_failed: AllocFailed<T>) -> CheckFault {
        CheckFault::NoMemory
    }
}
