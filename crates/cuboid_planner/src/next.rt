//! The next choice.

ghost use Rattle.std.specs.Prelude.{◌≡◌, ◌+◌, ◌<◌, ◌≤◌, ℕ, List, [], ◌∷◌, ◌++◌, length, IfSome, IfNone};
ghost use Rattle.cuboid_planner.specs.declared.cuboid.Pick.{Pick};
ghost use Rattle.cuboid_planner.specs.Sizes.{size_at, AreSizes};
ghost use Rattle.cuboid_planner.specs.Costs.{benefit};
ghost use Rattle.cuboid_planner.specs.Kept.{HasCosts, AreLow};
ghost use Rattle.cuboid_planner.specs.Picks.{IsNextPick, HasNoPick};
ghost use Rattle.cuboid_planner.specs.Best.{IsBest, IsBestSoFar};

use crate::costs::{benefit, mend, total};
use crate::cuboid::{Pick, Size};

/// A cuboid that saves something: its place, and how much.
#[derive(Clone, Copy)]
pub(crate) struct Best {
    pub(crate) place: usize,
    pub(crate) benefit: u64,
}

// The better of the best so far and the cuboid at the place.
fn better(best: Option<Best>, place: usize, benefit: u64) -> Option<Best>
    ensures best { (saved : ℕ → ℕ) → saved place ≡ benefit → IsBestSoFar saved place best → IsBestSoFar saved (place + 1) result }
    ensures inside { IfSome best (λ b. b.place < place) → IfSome result (λ b. b.place < place + 1) }
{
    let least = match best {
        Some(best) => best.benefit,
        None => 0,
    };
    if least < benefit {
        Some(Best { place, benefit })
    } else {
        best
    }
}

// The cuboid that saves the most, and of several such the first.
fn best_of(sizes: &[Size], costs: &[u64]) -> Option<Best>
    requires sizes { AreSizes sizes.now }
    requires low { AreLow sizes.now costs.now }
    ensures best { (picks : List Pick) → HasCosts sizes.now picks costs.now
        → IsBestSoFar (λ k. benefit sizes.now picks (size_at sizes.now k)) (length sizes.now) result }
    ensures inside { IfSome result (λ b. b.place < length sizes.now) }
{
    let mut best = None;
    for place in 0..sizes.len() {
        let benefit = benefit(sizes, costs, &sizes[place]);
        best = better(best, place, benefit);
    }
    best
}

/// The next choice, which the costs then take into account; none where nothing is saved any more.
pub(crate) fn next_pick(sizes: &[Size], costs: &mut [u64]) -> Option<Pick>
    requires sizes { AreSizes sizes.now }
    requires low { AreLow sizes.now costs.old }
    ensures low { AreLow sizes.now costs.new }
    ensures next { IfSome result (λ p. (picks : List Pick) → HasCosts sizes.now picks costs.old → IsNextPick sizes.now picks p) }
    ensures mended { IfSome result (λ p. (picks : List Pick) → HasCosts sizes.now picks costs.old → HasCosts sizes.now (picks ++ p ∷ []) costs.new) }
    ensures none { IfNone result ((picks : List Pick) → HasCosts sizes.now picks costs.old → HasNoPick sizes.now picks) }
{
    let best = best_of(sizes, costs)?;
    let choice = &sizes[best.place];
    mend(sizes, costs, choice);
    Some(Pick {
        mask: choice.mask,
        rows: choice.rows,
        benefit: best.benefit,
        total: total(sizes, costs),
    })
}
