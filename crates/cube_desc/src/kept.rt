//! The measures that a cube's cuboids keep, and the columns that have a dictionary. Nobody else goes through a descriptor's
//! measures to tell what is kept.

ghost use Rattle.std.specs.Prelude.{◌≡◌, ◌++◌, IfOk, OnOk, map, option_to_list};
ghost use Rattle.cube_desc.specs.Kept.{dict_place, dict_places, distinct_places, kept_behind, known_count, own_measures};
ghost use Rattle.cube_desc.specs.Sound.{IsSound};

use crate::desc::{CubeParts, MeasureDesc};
use crate::flat_row::{measured, place_of};
use cube_val::WideCol;
use measure_laws::MeasureForm;
use std::alloc::{AllocError, Global};

/// A measure that cuboids keep.
#[derive(Clone, Copy)]
pub struct Kept {
    /// What it makes of the rows.
    pub form: MeasureForm,
    /// The fact table's column that it is of. Only the count of rows is of none.
    pub column: Option<usize>,
}

// Adds the counts of columns' known values.
fn push_known(kept: &mut Vec<Kept>, columns: &[WideCol]) -> Result<(), AllocError>
    ensures { OnOk result (kept.new.items ≡ kept.old.items ++ map known_count columns.now) }
{
    for w in columns {
        kept.push(Kept {
            form: MeasureForm::Known,
            column: Some(w.column),
        })?;
    }
    Ok(())
}

// Adds the measures of a descriptor but for counts of rows.
fn push_own(kept: &mut Vec<Kept>, measures: &[MeasureDesc]) -> Result<(), AllocError>
    ensures { OnOk result (kept.new.items ≡ kept.old.items ++ own_measures measures.now) }
{
    for measure in measures {
        if !measure.form.counts_rows() {
            kept.push(Kept {
                form: measure.form,
                column: measure.column,
            })?;
        }
    }
    Ok(())
}

/// What cuboids keep behind the count of rows: of each column that a measure is of, once, the count of its known values, and then
/// the descriptor's other measures, in its order.
#[tactic(auto, unfolding(crate::specs::Kept::kept_behind))]
pub fn kept_behind(alloc: Global, cube: &CubeParts) -> Result<Vec<Kept>, AllocError>
    requires { IsSound cube.now }
    ensures { IfOk result (λ v. v.items ≡ kept_behind cube.now) }
{
    let mut kept = Vec::new(alloc);
    push_known(&mut kept, measured(cube))?;
    push_own(&mut kept, cube.measures.as_slice())?;
    Ok(kept)
}

// The place of the column whose different values a measure keeps.
fn dict_place(cube: &CubeParts, measure: Kept) -> Option<usize>
    requires { IsSound cube.now }
    ensures { result ≡ dict_place cube.now measure }
{
    if measure.form.has_dictionary() {
        Some(place_of(cube, measure.column))
    } else {
        None
    }
}

// Adds a place, if there is one.
fn push_place(places: &mut Vec<usize>, place: Option<usize>) -> Result<(), AllocError>
    ensures { OnOk result (places.new.items ≡ places.old.items ++ option_to_list place) }
{
    match place {
        Some(place) => {
            places.push(place)?;
            Ok(())
        }
        None => Ok(()),
    }
}

/// The places of the columns whose different values are kept.
#[tactic(auto, unfolding(crate::specs::Kept::distinct_places))]
pub fn distinct_places(alloc: Global, cube: &CubeParts) -> Result<Vec<usize>, AllocError>
    requires { IsSound cube.now }
    ensures { IfOk result (λ v. v.items ≡ distinct_places cube.now) }
{
    let kept = kept_behind(alloc, cube)?;
    let mut places = Vec::new(alloc);
    for measure in kept.as_slice() {
        push_place(&mut places, dict_place(cube, *measure))?;
    }
    Ok(places)
}

/// The places of the columns that have a dictionary.
pub fn dict_places(alloc: Global, cube: &CubeParts) -> Result<Vec<usize>, AllocError>
    requires { IsSound cube.now }
    ensures { IfOk result (λ v. v.items ≡ dict_places cube.now) }
{
    let distinct = distinct_places(alloc, cube)?;
    let mut places = Vec::new(alloc);
    for place in 0..cube.rowkey.len() {
        places.push(place)?;
    }
    places.extend_from_slice(distinct.as_slice())?;
    Ok(places)
}
