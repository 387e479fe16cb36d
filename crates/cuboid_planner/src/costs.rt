//! What the cuboids cost, kept and mended.

ghost use Rattle.std.specs.Prelude.{◌≡◌, ◌+◌, ◌-◌, ◌*◌, ◌<◌, ◌≤◌, ℕ, List, min, if◌then◌else◌, length, slice_index};
ghost use Rattle.agg_group.specs.Mask.{is_within};
ghost use Rattle.cuboid_planner.specs.declared.cuboid.Pick.{Pick};
ghost use Rattle.cuboid_planner.specs.Sizes.{most_rows, size_at, AreSizes, base_of};
ghost use Rattle.cuboid_planner.specs.Costs.{saving, benefit, total};
ghost use Rattle.cuboid_planner.specs.Kept.{HasCosts, AreLow};

use crate::cuboid::Size;

// What the choice of the one cuboid takes off the cost of the other.
fn saving(size: &Size, cost: u64, choice: &Size) -> u64
    ensures value { result ≡ (if is_within size.now.mask choice.now.mask then cost - choice.now.rows else 0) }
    ensures low { result ≤ cost }
{
    if size.mask.within(choice.mask) {
        cost.saturating_sub(choice.rows)
    } else {
        0
    }
}

/// What the choice of the cuboid saves, by what the cuboids cost without it.
pub(crate) fn benefit(sizes: &[Size], costs: &[u64], choice: &Size) -> u64
    requires sizes { AreSizes sizes.now }
    requires low { AreLow sizes.now costs.now }
    ensures { (picks : List Pick) → HasCosts sizes.now picks costs.now → result ≡ benefit sizes.now picks choice.now }
{
    let mut sum = 0;
    for k in 0..sizes.len() {
        sum += saving(&sizes[k], costs[k], choice);
    }
    sum
}

/// What all cuboids cost.
pub(crate) fn total(sizes: &[Size], costs: &[u64]) -> u64
    requires sizes { AreSizes sizes.now }
    requires low { AreLow sizes.now costs.now }
    ensures { (picks : List Pick) → HasCosts sizes.now picks costs.now → result ≡ total sizes.now picks }
{
    let mut sum = 0;
    for k in 0..sizes.len() {
        sum += costs[k];
    }
    sum
}

// The cost of the one cuboid with the choice of the other.
fn mended(size: &Size, cost: u64, choice: &Size) -> u64
    ensures { result ≡ (if is_within size.now.mask choice.now.mask then min cost choice.now.rows else cost) }
{
    if !size.mask.within(choice.mask) {
        return cost;
    }
    cost.min(choice.rows)
}

/// Takes a further choice into account.
pub(crate) fn mend(sizes: &[Size], costs: &mut [u64], choice: &Size)
    requires { AreLow sizes.now costs.old }
    ensures mended { (k : ℕ) → k < length sizes.now → slice_index costs.new k
        ≡ (if is_within (size_at sizes.now k).mask choice.now.mask then min (slice_index costs.old k) choice.now.rows else slice_index costs.old k) }
    ensures low { AreLow sizes.now costs.new }
{
    for k in 0..sizes.len() {
        costs[k] = mended(&sizes[k], costs[k], choice);
    }
}
