//! Why a store doesn't allow what is asked of it.

/// Why a store doesn't allow what is asked of it.
#[derive(Clone, Copy, Debug, PartialEq, Eq)]
pub enum StoreFault {
    /// There is no store under the name.
    Absent,
    /// There is a text under the name already.
    Present,
    /// The text under the name is no store's.
    Damaged,
    /// With the records of the file the text of the store would pass 268,435,456 bytes.
    TooLarge,
}
