// The pairs of a least and a greatest value among the measures that a cube keeps.

ghost use Rattle.std.specs.Prelude.{◌≡◌, ◌<◌, ◌++◌, IfOk, OnOk, length, slice_get};
ghost use Rattle.step_files.specs.Cubes.{are_extremes, are_forms, extremes_of, extremes_with, is_same};

use cube_desc::kept::Kept;
use cube_fields::Extremes;
use measure_laws::MeasureForm;
use std::alloc::{AllocError, Global};

fn are_forms(a: MeasureForm, b: MeasureForm) -> bool
    ensures { result ≡ are_forms a b }
{
    match (a, b) {
        (MeasureForm::Min, MeasureForm::Max) => true,
        _ => false,
    }
}

fn is_same(a: Option<usize>, b: Option<usize>) -> bool
    ensures { result ≡ is_same a b }
{
    match (a, b) {
        (Some(a), Some(b)) => a == b,
        _ => false,
    }
}

// Whether the one is a least value, and the other the greatest one of the same column.
fn are_extremes(measures: &[Kept], i: usize, j: usize) -> bool
    requires i { i < length measures.now }
    requires j { j < length measures.now }
    ensures { result ≡ are_extremes (slice_get measures.now i) (slice_get measures.now j) }
{
    let (a, b) = (measures[i], measures[j]);
    are_forms(a.form, b.form) && is_same(a.column, b.column)
}

// Adds the pairs of a measure with those that are the greatest value of its column.
fn push_extremes(found: &mut Vec<Extremes>, measures: &[Kept], i: usize) -> Result<(), AllocError>
    requires { i < length measures.now }
    ensures { OnOk result (found.new.items ≡ found.old.items ++ extremes_with measures.now i) }
{
    for j in 0..measures.len() {
        if are_extremes(measures, i, j) {
            found.push(Extremes {
                least: i + 1,
                greatest: j + 1,
            })?;
        }
    }
    Ok(())
}

/// The places of the least and greatest values of one column.
#[tactic(auto, unfolding(crate::specs::Cubes::extremes_of))]
pub(crate) fn extremes_of(alloc: Global, measures: &[Kept]) -> Result<Vec<Extremes>, AllocError>
    ensures { IfOk result (λ v. v.items ≡ extremes_of measures.now) }
{
    let mut found = Vec::new(alloc);
    for i in 0..measures.len() {
        push_extremes(&mut found, measures, i)?;
    }
    Ok(found)
}
