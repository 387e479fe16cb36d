// A handful of values, and their dictionaries by the definitions.

ghost use Rattle.std.specs.Prelude.{◌≡◌, [], ◌∷◌, pos, codes};
ghost use Rattle.dim_dictionary.specs.Dictionaries.{KeepsValues, dictionary_of, merged_dictionary};

use cube_val::Val;

/// A null, numbers and a text; and two parts with their new numbers.
pub fn worked_examples()
    ensures sorted { dictionary_of (Val.Text (codes "EU") ∷ Val.Int (pos 2) ∷ Val.Null ∷ Val.Int (pos 2) ∷ []) ≡ Val.Null ∷ Val.Int (pos 2) ∷ Val.Text (codes "EU") ∷ [] }
    ensures merged { merged_dictionary ((Val.Int (pos 2) ∷ Val.Int (pos 7) ∷ []) ∷ (Val.Null ∷ Val.Int (pos 7) ∷ []) ∷ []) ≡ Val.Null ∷ Val.Int (pos 2) ∷ Val.Int (pos 7) ∷ [] }
    ensures first_part { KeepsValues (Val.Null ∷ Val.Int (pos 2) ∷ Val.Int (pos 7) ∷ []) (Val.Int (pos 2) ∷ Val.Int (pos 7) ∷ []) (1 ∷ 2 ∷ []) }
    ensures second_part { KeepsValues (Val.Null ∷ Val.Int (pos 2) ∷ Val.Int (pos 7) ∷ []) (Val.Null ∷ Val.Int (pos 7) ∷ []) (0 ∷ 2 ∷ []) }
{}
