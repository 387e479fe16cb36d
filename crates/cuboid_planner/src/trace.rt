//! Whether some choices are the first of the plan.

ghost use Rattle.std.specs.Prelude.{◌≡◌, ◌↔◌, [], ◌∷◌, ◌++◌, List, IsOk, IsTrue, IfErr};
ghost use Rattle.cuboid_planner.specs.declared.cuboid.Pick.{Pick};
ghost use Rattle.cuboid_planner.specs.Sizes.{AreSizes};
ghost use Rattle.cuboid_planner.specs.Kept.{HasCosts, AreLow};
ghost use Rattle.cuboid_planner.specs.Picks.{IsNextPick, IsTrace, IsFirstWrong};

use crate::cuboid::{MOST_CUBOIDS, Pick, Size};
use crate::next::next_pick;

// The most choices.
const MOST_PICKS: usize = 8;

// Whether the choice is the next one, which the costs then take into account.
fn is_next(sizes: &[Size], costs: &mut [u64], pick: &Pick) -> bool
    requires sizes { AreSizes sizes.now }
    requires low { AreLow sizes.now costs.old }
    ensures low { AreLow sizes.now costs.new }
    ensures next { (picks : List Pick) → HasCosts sizes.now picks costs.old → IsTrue result ↔ IsNextPick sizes.now picks pick.now }
    ensures mended { (picks : List Pick) → HasCosts sizes.now picks costs.old → IsTrue result → HasCosts sizes.now (picks ++ pick.now ∷ []) costs.new }
{
    match next_pick(sizes, costs) {
        Some(next) => next == *pick,
        None => false,
    }
}

/// Whether the choices are the first of the plan, of which there are at most eight; the place of the first
/// one that isn't, else. It takes no memory.
pub fn check_trace(sizes: &[Size], picks: &[Pick]) -> Result<(), u32>
    requires { AreSizes sizes.now }
    ensures ok { IsOk result ↔ IsTrace sizes.now picks.now }
    ensures wrong { IfErr result (λ place. IsFirstWrong sizes.now picks.now place) }
{
    let mut costs = [sizes[sizes.len() - 1].rows; MOST_CUBOIDS];
    for place in 0..picks.len() {
        if place == MOST_PICKS {
            return Err(place as u32);
        }
        if !is_next(sizes, &mut costs, &picks[place]) {
            return Err(place as u32);
        }
    }
    Ok(())
}
