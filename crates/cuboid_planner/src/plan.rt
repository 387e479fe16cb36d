//! The plan.

ghost use Rattle.std.specs.Prelude.{◌≡◌, ◌+◌, ◌<◌, ◌≤◌, ℕ, List, [], ◌∷◌, ◌++◌, length, IfOk};
ghost use Rattle.cuboid_planner.specs.Sizes.{AreSizes, base_of};
ghost use Rattle.cuboid_planner.specs.Picks.{IsPlan};

use crate::cuboid::{MOST_CUBOIDS, Pick, Size};
use crate::next::next_pick;
use std::alloc::{AllocError, Global};

/// The plan of at most `most` choices among the cuboids: at each turn the one that saves the most rows, and
/// of several such the least mask. It has fewer choices exactly where nothing is saved any more. The base,
/// the last of the cuboids, is always built and never chosen.
pub fn greedy(alloc: Global, sizes: &[Size], most: u32) -> Result<Vec<Pick>, AllocError>
    requires { AreSizes sizes.now }
    ensures { IfOk result (λ picks. IsPlan sizes.now most picks.items) }
{
    let mut costs = [sizes[sizes.len() - 1].rows; MOST_CUBOIDS];
    let mut picks = Vec::new(alloc);
    for _turn in 0..most {
        let Some(pick) = next_pick(sizes, &mut costs) else {
            return Ok(picks);
        };
        picks.push(pick)?;
    }
    Ok(picks)
}
