// The laws of measures, over every measure.

ghost use Rattle.measure_laws.specs.Measures.{MeasureLaws};

use crate::measure::Measure;

/// Every measure keeps the laws of measures.
pub fn laws_of_measure<M: Measure>()
    ensures { MeasureLaws M.items M.of_items M.merged }
{}
