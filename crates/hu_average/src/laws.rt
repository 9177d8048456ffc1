//! What holds of every answer by average. The call does nothing: its contract is the law.

ghost use Rattle.hu_average.specs.Laws.{IsAverageAnswer, AveragesAscend, AveragesInAnyOrder};

/// An entry stands in the answer exactly where it is that of a set that earns the minimum for each of its items; each comes before
/// those after it in the order by average, so it stands once; and the order of the records doesn't matter.
pub fn law_of_average_answers()
    ensures stands { IsAverageAnswer }
    ensures ascends { AveragesAscend }
    ensures any_order { AveragesInAnyOrder }
{}
