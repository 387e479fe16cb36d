// Cells, keys and tests of them, computed from their definitions.

ghost use Rattle.std.specs.Prelude.{◌≡◌, [], ◌∷◌, None, false, pos, true};
ghost use Rattle.measure_laws.specs.Ids.{ids_of};
ghost use Rattle.measure_laws.specs.Measures.{summed};
ghost use Rattle.cell_store.specs.Cells.{cell_of_items, form_of, items_at, key_cmp, merged_cell, no_cell};
ghost use Rattle.cell_store.specs.Columns.{rows_of};
ghost use Rattle.cell_store.specs.Selects.{in_spans, places_of};

use crate::cell::Cell;
use measure_laws::MeasureForm;
use std::cmp::Ordering;

/// The forms and items of a few cells, the order of two keys, two rows that stand in two columns, and a few spans.
pub fn worked_examples()
    ensures form { form_of (Cell.Distinct (ids_of (4 ∷ 4 ∷ []))) ≡ MeasureForm.Distinct }
    ensures items { items_at 1 (Cell.Count 2 ∷ Cell.Sum (summed (pos 3 ∷ pos 4 ∷ pos 5 ∷ [])) ∷ []) ≡ 3 }
    ensures no_cell { items_at 7 (Cell.Count 2 ∷ []) ≡ 0 }
    ensures sum { cell_of_items MeasureForm.Sum (record { number = pos 3; id = 0 } ∷ record { number = pos 4; id = 0 } ∷ []) ≡ Cell.Sum (record { items = 2; total = pos 7 }) }
    ensures no_value { no_cell MeasureForm.Min ≡ Cell.Min (record { items = 0; value = None }) }
    ensures merged { merged_cell (Cell.Known 2) (Cell.Known 3) ≡ Cell.Known 5 }
    ensures two_forms { merged_cell (Cell.Count 2) (Cell.Known 3) ≡ Cell.Count 2 }
    ensures order { key_cmp (1 ∷ 9 ∷ []) (2 ∷ 0 ∷ []) ≡ Ordering.Less }
    ensures rows { rows_of 2 ((1 ∷ 2 ∷ []) ∷ (4 ∷ 0 ∷ []) ∷ []) 1 (Cell.Count 7 ∷ Cell.Count 1 ∷ []) ≡ (1 ∷ 4 ∷ [], Cell.Count 7 ∷ []) ∷ (2 ∷ 0 ∷ [], Cell.Count 1 ∷ []) ∷ [] }
    ensures first { in_spans (record { from = 3; to = 5 } ∷ record { from = 8; to = 9 } ∷ []) 3 ≡ true }
    ensures end { in_spans (record { from = 3; to = 5 } ∷ record { from = 8; to = 9 } ∷ []) 5 ≡ false }
    ensures no_span { in_spans [] 3 ≡ false }
    ensures no_test { places_of [] ((1 ∷ [], []) ∷ (4 ∷ [], []) ∷ []) ≡ 0 ∷ 1 ∷ [] }
{}
