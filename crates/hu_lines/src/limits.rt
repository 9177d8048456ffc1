//! The limits of a line and of a run.

/// The greatest number of bytes of a line before its line feed.
pub const LONGEST_LINE: u64 = 1_048_576;

/// The greatest number of bytes of all files of a run together.
pub const LARGEST_INPUT: u64 = 268_435_456;

/// A limit that the bytes of a run pass, with the number of the line, from 1 in each file, in which the first byte
/// stands that passes one.
#[derive(Clone, Copy, Debug, PartialEq, Eq)]
pub enum LineFault {
    /// The byte is byte 1,048,577 of its line, and no line feed.
    LineTooLong { number: u64 },
    /// The byte is byte 268,435,457 of the run, and doesn't make its line too long.
    InputTooLarge { number: u64 },
}
