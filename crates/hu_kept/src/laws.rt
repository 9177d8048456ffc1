//! The laws of what a batch leaves as it was, for callers to bring into their proofs by a call. They do nothing.

ghost use Rattle.hu_kept.specs.Laws.{KeepsUntouched, KeepsClosedness, StaysClosed, NeverLoses, StaysOutside};

/// A set in no record of a batch keeps its utility and its support.
pub fn law_of_untouched_sets()
    ensures { KeepsUntouched }
{}

/// A set in no record of a batch is closed where it was, if a record holds it.
pub fn law_of_untouched_closedness()
    ensures { KeepsClosedness }
{}

/// A closed set that a record holds stays closed.
pub fn law_of_closed_sets()
    ensures { StaysClosed }
{}

/// A set loses nothing by a batch without values below 0.
pub fn law_of_gains()
    ensures { NeverLoses }
{}

/// An untouched pattern outside the first k stays outside, where no value of the batch is below 0; without a limit it stays
/// outside whatever the values.
pub fn law_of_outside_patterns()
    ensures { StaysOutside }
{}
