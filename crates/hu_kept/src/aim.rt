//! What a kept answer is asked for.

/// Which entries are kept.
#[derive(Clone, Copy, Debug)]
pub(crate) struct Aim {
    /// The least utility, at least 1.
    pub(crate) least: i128,
    /// How many entries there may be, at least 1, where there is a limit.
    pub(crate) top: Option<u32>,
    /// Whether closed itemsets alone are wanted.
    pub(crate) closed: bool,
}
