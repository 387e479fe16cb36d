// The definitions on small lists of masks.

ghost use Rattle.std.specs.Prelude.{◌≡◌, [], ◌∷◌, map, Some, None};
ghost use Rattle.cuboid_tree.specs.Tree.{places, parent_of, children_of, layer_of};
ghost use Rattle.cuboid_tree.specs.Examples.{four, tied, ruled};

/// What the definitions give for small lists, as equations; the body does nothing.
pub fn worked_examples()
    ensures first { parent_of four 0 ≡ Some 2 }
    ensures second { parent_of four 1 ≡ Some 2 }
    ensures third { parent_of four 2 ≡ Some 3 }
    ensures base { parent_of four 3 ≡ None }
    ensures tie { parent_of tied 0 ≡ Some 1 }
    ensures children { children_of four 2 ≡ 0 ∷ 1 ∷ [] }
    ensures layer { layer_of four 1 ≡ 0 ∷ 1 ∷ [] }
    ensures ruled_parents { map (parent_of ruled) (places ruled)
        ≡ Some 1 ∷ Some 2 ∷ Some 3 ∷ Some 7 ∷ Some 5 ∷ Some 6 ∷ Some 7 ∷ None ∷ [] }
    ensures ruled_children { children_of ruled 7 ≡ 3 ∷ 6 ∷ [] }
    ensures ruled_layer { layer_of ruled 3 ≡ 2 ∷ 4 ∷ [] }
{}
