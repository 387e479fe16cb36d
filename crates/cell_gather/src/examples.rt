// Rows of cells, computed from their definitions.

ghost use Rattle.std.specs.Prelude.{◌≡◌, [], ◌∷◌, true, false, pos};
ghost use Rattle.cell_gather.specs.Gathers.{gathered};
ghost use Rattle.cell_gather.specs.Keys.{kept_numbers};
ghost use Rattle.measure_laws.specs.Measures.{summed};

use cell_store::Cell;
use measure_laws::MeasureForm;

/// Three rows by the second number of their keys.
pub fn worked_examples()
    ensures kept { kept_numbers (false ∷ true ∷ []) (4 ∷ 7 ∷ []) ≡ 7 ∷ [] }
    ensures gathered { gathered (MeasureForm.Count ∷ []) (kept_numbers (false ∷ true ∷ [])) ((1 ∷ 8 ∷ [], Cell.Count 2 ∷ []) ∷ (1 ∷ 9 ∷ [], Cell.Count 1 ∷ []) ∷ (3 ∷ 8 ∷ [], Cell.Count 5 ∷ []) ∷ [])
        ≡ (8 ∷ [], Cell.Count 7 ∷ []) ∷ (9 ∷ [], Cell.Count 1 ∷ []) ∷ [] }
    ensures sum { gathered (MeasureForm.Sum ∷ []) (λ key. key) ((1 ∷ [], Cell.Sum (summed (pos 3 ∷ [])) ∷ []) ∷ (1 ∷ [], Cell.Sum (summed (pos 4 ∷ pos 5 ∷ [])) ∷ []) ∷ [])
        ≡ (1 ∷ [], Cell.Sum (summed (pos 3 ∷ pos 4 ∷ pos 5 ∷ [])) ∷ []) ∷ [] }
{}
