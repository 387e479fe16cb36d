//! What holds of every plan.

ghost use Rattle.std.specs.Prelude.{◌≡◌, ◌≢◌, ℕ, List, All, AllPairs, length, take};
ghost use Rattle.cuboid_planner.specs.declared.cuboid.Size.{Size};
ghost use Rattle.cuboid_planner.specs.declared.cuboid.Pick.{Pick};
ghost use Rattle.cuboid_planner.specs.Sizes.{AreSizes, base_of};
ghost use Rattle.cuboid_planner.specs.Picks.{ArePicks, IsPlan, IsTrace, most_picks};

/// Laws over all cuboids and plans; the body does nothing. There is one plan of at most so many choices; a
/// trace is a front of the plan of eight; and neither is a cuboid chosen twice, nor the base.
pub fn laws_of_plans()
    ensures one { (sizes : List Size) (most : ℕ) (a b : List Pick) → AreSizes sizes → IsPlan sizes most a → IsPlan sizes most b → a ≡ b }
    ensures front { (sizes : List Size) (picks whole : List Pick) → AreSizes sizes → IsTrace sizes picks
        → IsPlan sizes most_picks whole → picks ≡ take (length picks) whole }
    ensures once { (sizes : List Size) (picks : List Pick) → AreSizes sizes → ArePicks sizes picks → AllPairs (λ p q. p.mask ≢ q.mask) picks }
    ensures no_base { (sizes : List Size) (picks : List Pick) → AreSizes sizes → ArePicks sizes picks → All (λ p. p.mask ≢ (base_of sizes).mask) picks }
{}
