// The definition on a small cube.

ghost use Rattle.std.specs.Prelude.{◌≡◌, [], ◌∷◌, Some, None};
ghost use Rattle.query_router.specs.Route.{least_cuboid};
ghost use Rattle.query_router.specs.Examples.{three, seven};

/// What the definition gives for three cuboids, as equations; the body does nothing.
pub fn worked_examples()
    ensures tie { least_cuboid three (5 ∷ 4 ∷ 4 ∷ []) (record { 0 = 1 }) ≡ Some 1 }
    ensures fewest { least_cuboid three (5 ∷ 4 ∷ 3 ∷ []) (record { 0 = 1 }) ≡ Some 2 }
    ensures needed { least_cuboid three (1 ∷ 2 ∷ 3 ∷ []) (record { 0 = 2 }) ≡ Some 1 }
    ensures unserved { least_cuboid three (1 ∷ 2 ∷ 3 ∷ []) (record { 0 = 8 }) ≡ None }
    ensures own { least_cuboid seven (2 ∷ 2 ∷ 2 ∷ 1 ∷ 2 ∷ 2 ∷ 2 ∷ []) (record { 0 = 2 }) ≡ Some 1 }
    ensures none_needed { least_cuboid seven (2 ∷ 2 ∷ 2 ∷ 1 ∷ 2 ∷ 2 ∷ 2 ∷ []) (record { 0 = 0 }) ≡ Some 3 }
{}
