// The fields of a few values.

ghost use Rattle.std.specs.Prelude.{◌≡◌, ◌++◌, ◌∷◌, [], Some, None, codes, pos, negsuc, false, true};
ghost use Rattle.cube_val.specs.declared.val.ColType.TheVariants as ty;
ghost use Rattle.cube_val.specs.declared.val.Val.TheVariants.{Null, Int, Text};
ghost use Rattle.step_fields.specs.Reading.{range_at, val_at};
ghost use Rattle.step_fields.specs.Spelling.{row_text, rows_text, range_text, val_text};

/// The bytes of a row and of a range, and what is no value of a column.
pub fn worked_examples()
    ensures row { row_text (Text (codes "a") ∷ Null ∷ Int (negsuc 1) ∷ []) ≡ 2 ∷ 1 ∷ 97 ∷ 0 ∷ 1 ∷ 255 ∷ 255 ∷ 255 ∷ 255 ∷ 255 ∷ 255 ∷ 255 ∷ 254 ∷ [] }
    ensures rows { rows_text ((Null ∷ []) ∷ (Null ∷ []) ∷ []) ≡ 0 ∷ 0 ∷ 0 ∷ 2 ∷ 0 ∷ 0 ∷ [] }
    ensures null { val_at (record { ty = ty.Date; no_null = false }) (0 ∷ 9 ∷ []) ≡ Some (Null, 9 ∷ []) }
    ensures no_null { val_at (record { ty = ty.Date; no_null = true }) (0 ∷ 9 ∷ []) ≡ None }
    ensures other_type { val_at (record { ty = ty.Int; no_null = false }) (val_text (Text (codes "a"))) ≡ None }
    ensures range { range_text (record { start = 734_868; end = 734_899 }) ≡ codes "2012-01-012012-02-01" }
    ensures no_range { range_at (codes "2012-01-012012-01-01") ≡ None }
{}
