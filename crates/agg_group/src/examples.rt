// The definitions on small cubes.

ghost use Rattle.std.specs.Prelude.{◌≡◌, [], ◌∷◌, Some, None};
ghost use Rattle.agg_group.specs.declared.fault.GroupFault.TheVariants.{NotIncluded};
ghost use Rattle.agg_group.specs.Faults.{group_fault};
ghost use Rattle.agg_group.specs.Examples.{free, ordered, joined, required, capped, capped_required, faulty, numbers};

/// What the definitions give for small groups, as equations; the body does nothing.
pub fn worked_examples()
    ensures no_group { numbers 2 [] ≡ 3 ∷ [] }
    ensures unruled { numbers 3 (free ∷ []) ≡ 1 ∷ 2 ∷ 3 ∷ 7 ∷ [] }
    ensures once { numbers 2 (free ∷ free ∷ []) ≡ 1 ∷ 2 ∷ 3 ∷ [] }
    ensures kept_order { numbers 2 (ordered ∷ []) ≡ 1 ∷ 3 ∷ [] }
    ensures kept_joint { numbers 3 (joined ∷ []) ≡ 3 ∷ 4 ∷ 7 ∷ [] }
    ensures kept_mandatory { numbers 2 (required ∷ []) ≡ 2 ∷ 3 ∷ [] }
    ensures kept_cap { numbers 4 (capped ∷ []) ≡ 1 ∷ 2 ∷ 3 ∷ 4 ∷ 5 ∷ 6 ∷ 15 ∷ [] }
    ensures counted_mandatory { numbers 4 (capped_required ∷ []) ≡ 4 ∷ 5 ∷ 6 ∷ 15 ∷ [] }
    ensures sound { group_fault joined ≡ None }
    ensures first { group_fault faulty ≡ Some NotIncluded }
{}
