// A handful of measures, and the forms in which they are kept.

ghost use Rattle.std.specs.Prelude.{◌≡◌, [], ◌∷◌, Some, None};
ghost use Rattle.step_codec.specs.Layouts.{fields_of};
ghost use Rattle.step_files.specs.Cubes.{extremes_of};

use cube_fields::{CellField, Extremes};
use measure_laws::MeasureForm;

/// Two columns of which the different values are counted have the dictionaries that come next, in their order; and a least
/// value meets the greatest one of its own column.
#[tactic(auto, unfolding(crate::specs::Cubes::extremes_of))]
pub fn worked_examples()
    ensures fields { fields_of (7 ∷ 3 ∷ []) (MeasureForm.Distinct ∷ MeasureForm.Sum ∷ MeasureForm.Distinct ∷ []) ≡ record { form = MeasureForm.Distinct; size = 7 } ∷ record { form = MeasureForm.Sum; size = 0 } ∷ record { form = MeasureForm.Distinct; size = 3 } ∷ [] }
    ensures extremes { extremes_of (record { form = MeasureForm.Max; column = Some 0 } ∷ record { form = MeasureForm.Min; column = Some 0 } ∷ record { form = MeasureForm.Max; column = Some 1 } ∷ []) ≡ record { least = 2; greatest = 1 } ∷ [] }
{}
