//! What is asked for.

/// A task: which patterns are wanted.
#[derive(Clone, Copy, Debug, PartialEq, Eq)]
pub enum Task {
    /// Every itemset.
    Items,
    /// The itemsets with no proper superset in the same number of records.
    Closed,
    /// Sequences.
    Sequences,
}
