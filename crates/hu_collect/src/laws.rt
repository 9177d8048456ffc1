//! The laws of what collectors make, for callers to bring into their proofs by a call. They do nothing.

ghost use Rattle.hu_collect.specs.Laws.{MakesInTurn, MakesByMembers, LeavesBelowFloor, KeepsFloor};

/// Making of one list of entries and then of another is making of both.
#[tactic(auto, using(crate::proofs::lemmas::Made::makes_in_turn))]
pub fn law_of_turns()
    ensures { MakesInTurn }
{}

/// Lists with the same members make the same, whatever their order and however often an entry stands in them.
#[tactic(auto, using(crate::proofs::lemmas::Made::makes_by_members))]
pub fn law_of_members()
    ensures { MakesByMembers }
{}

/// An entry below the floor leaves the content.
#[tactic(auto, using(crate::proofs::lemmas::Made::leaves_below_floor))]
pub fn law_of_low_entries()
    ensures { LeavesBelowFloor }
{}

/// The floor never falls.
#[tactic(auto, using(crate::proofs::lemmas::Made::keeps_floor))]
pub fn law_of_floors()
    ensures { KeepsFloor }
{}
