// A month of a small fact table.

ghost use Rattle.std.specs.Prelude.{◌≡◌, ◌∷◌, [], Some, codes, pos};
ghost use Rattle.cube_val.specs.declared.val.Val.TheVariants.{Int, Text};
ghost use Rattle.plain_answer.specs.declared.answer.OutVal.TheVariants as out;
ghost use Rattle.fixed_cube.specs.Cells.{base_of};
ghost use Rattle.fixed_cube.specs.Answers.{answer_of};
ghost use Rattle.fixed_cube.specs.Cube.{fixed, rows_of};
ghost use Rattle.fixed_cube.specs.Examples.{small};

/// The joined rows of the month, its cells, and the answer from them.
pub fn worked_examples()
    ensures rows { rows_of small ≡ (Text (codes "a") ∷ Text (codes "x") ∷ Int (pos 1) ∷ []) ∷ (Text (codes "b") ∷ Text (codes "x") ∷ Int (pos 2) ∷ []) ∷ [] }
    ensures cells { base_of (rows_of small) ≡ (Text (codes "a") ∷ Text (codes "x") ∷ [], record { items = 1; total = pos 1 }) ∷ (Text (codes "b") ∷ Text (codes "x") ∷ [], record { items = 1; total = pos 2 }) ∷ [] }
    ensures answer { (answer_of (base_of (rows_of small) ∷ [])).rows ≡ (out.Text (codes "a") ∷ out.Whole (pos 1) ∷ out.Whole (pos 1) ∷ []) ∷ (out.Text (codes "b") ∷ out.Whole (pos 1) ∷ out.Whole (pos 2) ∷ []) ∷ [] }
    ensures tables { fixed.tables ≡ codes "F" ∷ [] }
{}
