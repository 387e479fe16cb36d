//! Whether a plan can be made of some cuboids.

ghost use Rattle.std.specs.Prelude.{◌↔◌, ◌+◌, ◌-◌, ◌<◌, ◌≤◌, length, IsTrue};
ghost use Rattle.agg_group.specs.Mask.{IsWithin};
ghost use Rattle.cuboid_planner.specs.Sizes.{AreSizes, most_rows, size_at, base_of};
ghost use Rattle.cuboid_planner.specs.Valid.{IsInPlace};

use crate::cuboid::{MOST_CUBOIDS, Size};

// The most rows of a cuboid.
const MOST_ROWS: u64 = 200_000;

// Whether the mask at the place is above the one before it, if there is one.
fn is_above(sizes: &[Size], place: usize) -> bool
    requires { place < length sizes.now }
    ensures { IsTrue result ↔ (0 < place → (size_at sizes.now (place - 1)).mask.0 < (size_at sizes.now place).mask.0) }
{
    if place == 0 {
        return true;
    }
    sizes[place - 1].mask.0 < sizes[place].mask.0
}

// Whether the cuboid at the place can stand there.
fn is_in_place(sizes: &[Size], place: usize) -> bool
    requires { place < length sizes.now }
    ensures { IsTrue result ↔ IsInPlace sizes.now place }
{
    let size = &sizes[place];
    if MOST_ROWS < size.rows || !size.mask.within(sizes[sizes.len() - 1].mask) {
        return false;
    }
    is_above(sizes, place)
}

/// Whether a plan can be made of the cuboids: there are 1 to 4,096, by strictly rising masks, of which the
/// last has the dimensions of each, and none has more than 200,000 rows.
pub fn are_sizes(sizes: &[Size]) -> bool
    ensures { IsTrue result ↔ AreSizes sizes.now }
{
    if sizes.is_empty() || MOST_CUBOIDS < sizes.len() {
        return false;
    }
    for place in 0..sizes.len() {
        if !is_in_place(sizes, place) {
            return false;
        }
    }
    true
}
