// The sales of a month, by the definitions.

ghost use Rattle.std.specs.Prelude.{◌≡◌, ◌∷◌, [], map};
ghost use Rattle.flat_join.specs.Flat.{flat_of};
ghost use Rattle.step_compute.specs.Examples.{january, january_base, january_dicts, january_pairs, january_rows, numbers, of_america, of_europe, sales, sales_cube};
ghost use Rattle.step_compute.specs.Values.{dict_value, layer_places, parent_mask};

/// The flat rows of January, their dictionaries, the base cuboid and the cuboids of two dimensions; and the masks of the parents
/// of those of one.
pub fn worked_examples()
    ensures flat { flat_of sales_cube (sales ∷ []) january ≡ january_rows }
    ensures dicts { dict_value sales_cube january_rows ≡ january_dicts }
    ensures base { numbers january_base ≡ (7, (0 ∷ 0 ∷ 0 ∷ [], of_europe) ∷ (1 ∷ 1 ∷ 0 ∷ [], of_america) ∷ []) }
    ensures pairs { map numbers january_pairs
        ≡ (3, (0 ∷ 0 ∷ [], of_europe) ∷ (1 ∷ 1 ∷ [], of_america) ∷ []) ∷ (5, (0 ∷ 0 ∷ [], of_europe) ∷ (1 ∷ 0 ∷ [], of_america) ∷ [])
        ∷ (6, (0 ∷ 0 ∷ [], of_europe) ∷ (1 ∷ 0 ∷ [], of_america) ∷ []) ∷ [] }
    ensures parents { map (λ i. (parent_mask sales_cube.masks i).0) (layer_places sales_cube.masks 1) ≡ 3 ∷ 3 ∷ 5 ∷ [] }
{}
