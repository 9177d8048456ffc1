//! What holds of every answer among itemsets of some lengths. The call does nothing: its contract is the law.

ghost use Rattle.hu_lengths.specs.Laws.{IsSizedAnswer, SizedAscends, SizedInAnyOrder};

/// An entry stands in the answer exactly where it is that of a set of such a length that is found; each comes before those after
/// it in the one order, so it stands once; and the order of the records doesn't matter.
pub fn law_of_sized_answers()
    ensures stands { IsSizedAnswer }
    ensures ascends { SizedAscends }
    ensures any_order { SizedInAnyOrder }
{}
