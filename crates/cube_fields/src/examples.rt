// The fields of a few values.

ghost use Rattle.std.specs.Prelude.{◌≡◌, ◌∷◌, [], None, Some, pos, false};
ghost use Rattle.cube_fields.specs.Cells.{id_text, row_text};
ghost use Rattle.cube_fields.specs.Dicts.{dict_text};
ghost use Rattle.cube_fields.specs.Reading.{count_at, dict_at, id_at};

use crate::dicts::DictForm;
use cell_store::Cell;
use cube_val::{ColType, Val};
use step_fields::Column;

/// The bytes of a dictionary and of a row of a cell table, and what is none.
pub fn worked_examples()
    ensures dict { dict_text (Val.Null ∷ Val.Int (pos 2) ∷ []) ≡ 0 ∷ 0 ∷ 0 ∷ 2 ∷ 0 ∷ 1 ∷ 0 ∷ 0 ∷ 0 ∷ 0 ∷ 0 ∷ 0 ∷ 0 ∷ 2 ∷ [] }
    ensures falls { dict_at (record { column = record { ty = ColType.Int; no_null = false }; limit = 9 }) (dict_text (Val.Int (pos 2) ∷ Val.Null ∷ [])) ≡ None }
    ensures too_many { dict_at (record { column = record { ty = ColType.Int; no_null = false }; limit = 1 }) (dict_text (Val.Null ∷ Val.Int (pos 2) ∷ [])) ≡ None }
    ensures row { row_text (7 ∷ [], Cell.Count 1 ∷ Cell.Min (record { items = 1; value = Some (pos 3) }) ∷ []) ≡ 0 ∷ 0 ∷ 0 ∷ 7 ∷ 0 ∷ 0 ∷ 0 ∷ 0 ∷ 0 ∷ 0 ∷ 0 ∷ 1 ∷ 0 ∷ 0 ∷ 0 ∷ 0 ∷ 0 ∷ 0 ∷ 0 ∷ 3 ∷ [] }
    ensures no_rows { count_at 9 (0 ∷ 0 ∷ 0 ∷ 0 ∷ 0 ∷ 0 ∷ 0 ∷ 0 ∷ []) ≡ None }
    ensures at_size { id_at 7 (id_text 7) ≡ None }
{}
