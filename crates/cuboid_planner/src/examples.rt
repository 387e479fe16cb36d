//! The definitions at a small cube.

ghost use Rattle.std.specs.Prelude.{◌≡◌, [], ◌∷◌};
ghost use Rattle.cuboid_planner.specs.Costs.{cost, benefit, total};
ghost use Rattle.cuboid_planner.specs.Picks.{IsNextPick, HasNoPick};
ghost use Rattle.cuboid_planner.specs.Examples.{first_alone, both, three, first_pick, second_pick};

/// What the definitions give for two dimensions that have two rows each alone, and three together.
pub fn worked_examples()
    ensures base { cost three [] first_alone.mask ≡ 3 }
    ensures chosen { cost three (first_pick ∷ []) first_alone.mask ≡ 2 }
    ensures saved { benefit three [] first_alone ≡ 1 }
    ensures none_saved { benefit three [] both ≡ 0 }
    ensures all { total three (first_pick ∷ []) ≡ 8 }
    ensures first { IsNextPick three [] first_pick }
    ensures next { IsNextPick three (first_pick ∷ []) second_pick }
    ensures ended { HasNoPick three (first_pick ∷ second_pick ∷ []) }
{}
