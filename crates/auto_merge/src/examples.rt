//! The definitions at single days.

ghost use Rattle.std.specs.Prelude.{◌≡◌, [], ◌∷◌};
ghost use Rattle.auto_merge.specs.Expiry.{expired, kept};
ghost use Rattle.auto_merge.specs.Chances.{whole, IsChance, IsNext};
ghost use Rattle.auto_merge.specs.Plans.{merged};
ghost use Rattle.auto_merge.specs.Examples.{week, with_hole, days_from, six_and_one};

/// What the definitions give for a week of single days, and for three days with a hole.
pub fn worked_examples()
    ensures dropped { expired 2 week ≡ days_from 0 5 }
    ensures left { kept 2 week ≡ days_from 5 2 }
    ensures all_kept { expired 0 week ≡ [] }
    ensures six { whole week 0 6 ≡ record { start = 0; end = 6 } }
    ensures first { IsNext (3 ∷ 6 ∷ []) week 0 6 }
    ensures then { merged week 0 6 ≡ six_and_one }
    ensures hole { ¬ (IsChance with_hole 3 0 3) }
    ensures pair { IsChance with_hole 2 0 2 }
{}
