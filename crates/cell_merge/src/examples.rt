// Rows under new numbers, computed from their definitions.

ghost use Rattle.std.specs.Prelude.{◌≡◌, [], ◌∷◌};
ghost use Rattle.measure_laws.specs.Ids.{ids_of};
ghost use Rattle.cell_merge.specs.Merges.{renumbered_parts};
ghost use Rattle.cell_merge.specs.Renumbered.{renumbered_cell, renumbered_row};
ghost use Rattle.cell_merge.specs.Examples.{first, second, numbers_of_first, numbers_of_second};

use cell_store::Cell;
use measure_laws::MeasureForm;

/// Two parts by one dimension, with a count and a set of different values: the first part's values of the dimension are the
/// numbers 0 and 2 of the merged dictionary and its sellers 1 and 2, the second part's 1 and 2, and 0 and 2.
#[tactic(auto, unfolding(cell_gather::specs::Keys::dims_of))]
pub fn worked_examples()
    ensures set { renumbered_cell (1 ∷ 4 ∷ 7 ∷ []) (Cell.Distinct (ids_of (2 ∷ 0 ∷ []))) ≡ Cell.Distinct (ids_of (1 ∷ 7 ∷ [])) }
    ensures count { renumbered_cell (1 ∷ 4 ∷ []) (Cell.Count 5) ≡ Cell.Count 5 }
    ensures row { renumbered_row numbers_of_first (record { 0 = 1 }) (MeasureForm.Count ∷ MeasureForm.Distinct ∷ []) (1 ∷ [], Cell.Count 2 ∷ Cell.Distinct (ids_of (0 ∷ 1 ∷ [])) ∷ [])
        ≡ (2 ∷ [], Cell.Count 2 ∷ Cell.Distinct (ids_of (1 ∷ 2 ∷ [])) ∷ []) }
    ensures parts { renumbered_parts (numbers_of_first ∷ numbers_of_second ∷ []) (first ∷ second ∷ [])
        ≡ (0 ∷ [], Cell.Count 1 ∷ Cell.Distinct (ids_of (1 ∷ [])) ∷ []) ∷ (2 ∷ [], Cell.Count 2 ∷ Cell.Distinct (ids_of (1 ∷ 2 ∷ [])) ∷ []) ∷ (2 ∷ [], Cell.Count 3 ∷ Cell.Distinct (ids_of (0 ∷ 2 ∷ [])) ∷ []) ∷ [] }
{}
