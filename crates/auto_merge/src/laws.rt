//! What holds of every plan.

ghost use Rattle.std.specs.Prelude.{◌≡◌, ℕ, List};
ghost use Rattle.range_list.specs.Ranges.{Interval, IsApart};
ghost use Rattle.auto_merge.specs.declared.action.Action.{Action};
ghost use Rattle.auto_merge.specs.Chances.{HasNoChance};
ghost use Rattle.auto_merge.specs.Plans.{IsPlan};
ghost use Rattle.auto_merge.specs.Turns.{TakesEach};

/// Laws over all ranges, thresholds and days retained; the body does nothing. There is one plan, and each
/// of its actions can be taken at its turn; the ranges that all of them leave have no chance.
pub fn laws_of_plans()
    ensures one { (rs : List Interval) (days : List ℕ) (retain : ℕ) (a b : List Action) → IsApart rs
        → IsPlan rs days retain a → IsPlan rs days retain b → a ≡ b }
    ensures taken { (rs : List Interval) (days : List ℕ) (retain : ℕ) (a : List Action) → IsApart rs
        → IsPlan rs days retain a → (left : List Interval) × TakesEach rs a left × HasNoChance days left }
{}
