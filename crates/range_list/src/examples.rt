//! The definitions at lists of one, two and three months.

ghost use Rattle.std.specs.Prelude.{[], ◌∷◌};
ghost use Rattle.range_list.specs.Ranges.{Holds, Overlaps, IsApart, EndToEnd, Fills, IsOnBounds, IsOffBounds, IsFirstFreeDay};
ghost use Rattle.range_list.specs.Examples.{january, february, march, quarter};

/// Months that touch have no common day, and a quarter without its second month has a hole.
pub fn worked_examples()
    ensures touching { ¬ (Overlaps january february) }
    ensures common { Overlaps january quarter }
    ensures start_in { Holds february 31 }
    ensures end_out { ¬ (Holds january 31) }
    ensures apart { IsApart (january ∷ march ∷ []) }
    ensures filled { Fills (january ∷ february ∷ march ∷ []) quarter 0 3 }
    ensures broken { ¬ (EndToEnd 0 91 (january ∷ march ∷ [])) }
    ensures on_bounds { IsOnBounds (january ∷ march ∷ []) quarter }
    ensures off_bounds { IsOffBounds (january ∷ february ∷ []) quarter }
    ensures hole { IsFirstFreeDay (january ∷ march ∷ []) quarter 31 }
{}
