//! Why a line is no sequence.

ghost use Rattle.std.specs.Prelude.{◌≡◌};

use hu_kind::Item;
use std::alloc::{AllocError, AllocFailed};

/// The first thing that is wrong with a sequence line, in the order in which they stand here. Tokens are counted from 1.
#[derive(Clone, Copy, Debug, PartialEq, Eq)]
pub enum SeqFault {
    /// A token is neither a cell, nor the end of an itemset or of the sequence, nor a total.
    BadToken { at: u32 },
    /// No token ends the sequence.
    NoEnd,
    /// A total stands before the end of the sequence, or what follows that end isn't a total alone.
    AfterEnd,
    /// The sequence ends in an itemset that has no end.
    OpenItemset,
    /// An itemset has no cell.
    EmptyItemset,
    /// There is no itemset.
    NoItems,
    /// There are more than 4,096 cells.
    TooManyItems { count: u32 },
    /// The item of a cell is above [`Item::GREATEST`].
    ItemOutOfRange { at: u32 },
    /// The smallest item that stands more than once in the first itemset where one does.
    DuplicateItem { item: Item },
    /// The utility of a cell is below 0.
    Negative { at: u32 },
    /// The utilities sum to more than 2^127 - 1.
    SumTooLarge,
    /// The total isn't the sum of the utilities.
    TotalDisagrees { stated: i128, summed: i128 },
    /// Memory was asked for and not given. No line has this fault.
    NoMemory,
}

impl From<AllocError> for SeqFault {
    ghost use Rattle.hu_seq.specs.declared.fault.SeqFault.TheVariants.{NoMemory};

    ghost from_gives = { λ _ fault. fault ≡ NoMemory };

    fn from(_error: AllocError) -> SeqFault {
        SeqFault::NoMemory
    }
}

impl<T: Drop> From<AllocFailed<T>> for SeqFault {
    ghost use Rattle.hu_seq.specs.declared.fault.SeqFault.TheVariants.{NoMemory};

    ghost from_gives = { λ _ fault. fault ≡ NoMemory };

    fn from(_failed: AllocFailed<T>) -> SeqFault {
        SeqFault::NoMemory
    }
}
