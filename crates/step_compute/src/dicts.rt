// The dict step.

ghost use Rattle.std.specs.Prelude.{◌≡◌, ◌<◌, ◌^◌, ◌++◌, ◌∷◌, [], IfOk, IsErrOf, MatchResult, OnOk, length, map, option_to_list};
ghost use Rattle.std.specs.List.{range_with_len};
ghost use Rattle.plain_answer.specs.Aggregates.{cell, known};
ghost use Rattle.dim_dictionary.specs.Dictionaries.{dictionary_of};
ghost use Rattle.step_compute.specs.Values.{dict_value, known_in, values_in};
ghost use Rattle.step_compute.specs.Watched.{Looked, SawStop};

use crate::fault::StepFault;
use crate::watching::{ROWS_PER_LOOK, look};
use cube_desc::CubeDesc;
use cube_desc::kept::distinct_places;
use cube_val::{Row, Val};
use dim_dictionary::{Dict, DictSet};
use outside::Watch;
use plain_answer::FlatRows;
use std::alloc::{AllocError, Global};

// The value at a place of a row; null where it has none there.
fn value_at(row: &Row, place: usize) -> Result<Val, AllocError>
    ensures { IfOk result (λ v. v ≡ cell row.now place) }
{
    match row.vals().get(place) {
        Some(value) => value.copy(),
        None => Ok(Val::Null),
    }
}

// Adds the value at a place of a row.
fn push_value(values: &mut Vec<Val>, row: &Row, place: usize) -> Result<(), StepFault>
    ensures { MatchResult result (λ _. values.new.items ≡ values.old.items ++ cell row.now place ∷ []) (λ f. f ≡ StepFault.Memory) }
{
    match value_at(row, place) {
        Ok(value) => match values.push(value) {
            Ok(()) => Ok(()),
            Err(_) => Err(StepFault::Memory),
        },
        Err(_) => Err(StepFault::Memory),
    }
}

// The values of a column.
fn values_in<W: Watch>(
    alloc: Global,
    rows: &[Row],
    place: usize,
    watch: &mut W,
) -> Result<Vec<Val>, StepFault>
    ensures values { IfOk result (λ v. v.items ≡ values_in rows.now place) }
    ensures looked { Looked W.seen W.there W.held W.place watch.old watch.new }
    ensures stopped { IsErrOf result StepFault.Stopped → SawStop W.seen W.there watch.old watch.new }
{
    let mut values = Vec::new(alloc);
    for (i, row) in rows.iter().enumerate() {
        if i % ROWS_PER_LOOK == 0 {
            look(watch)?;
        }
        push_value(&mut values, row, place)?;
    }
    Ok(values)
}

// The value at a place of a row, where there is one that isn't null.
fn known_at(row: &Row, place: usize) -> Result<Option<Val>, AllocError>
    ensures { IfOk result (λ v. v ≡ known (cell row.now place)) }
{
    match row.vals().get(place) {
        None => Ok(None),
        Some(value) => match value {
            Val::Null => Ok(None),
            Val::Int(_) | Val::Text(_) => Ok(Some(value.copy()?)),
        },
    }
}

// Adds the value at a place of a row, unless it is null.
fn push_known(values: &mut Vec<Val>, row: &Row, place: usize) -> Result<(), StepFault>
    ensures { MatchResult result (λ _. values.new.items ≡ values.old.items ++ option_to_list (known (cell row.now place))) (λ f. f ≡ StepFault.Memory) }
{
    match known_at(row, place) {
        Ok(Some(value)) => match values.push(value) {
            Ok(()) => Ok(()),
            Err(_) => Err(StepFault::Memory),
        },
        Ok(None) => Ok(()),
        Err(_) => Err(StepFault::Memory),
    }
}

// The values of a column that aren't null.
fn known_in<W: Watch>(
    alloc: Global,
    rows: &[Row],
    place: usize,
    watch: &mut W,
) -> Result<Vec<Val>, StepFault>
    ensures values { IfOk result (λ v. v.items ≡ known_in rows.now place) }
    ensures looked { Looked W.seen W.there W.held W.place watch.old watch.new }
    ensures stopped { IsErrOf result StepFault.Stopped → SawStop W.seen W.there watch.old watch.new }
{
    let mut values = Vec::new(alloc);
    for (i, row) in rows.iter().enumerate() {
        if i % ROWS_PER_LOOK == 0 {
            look(watch)?;
        }
        push_known(&mut values, row, place)?;
    }
    Ok(values)
}

// The dictionary of values.
fn dictionary(alloc: Global, values: &[Val]) -> Result<Dict, StepFault>
    requires { length values.now < 2 ^ 32 }
    ensures { MatchResult result (λ d. d ≡ dictionary_of values.now) (λ f. f ≡ StepFault.Memory) }
{
    match Dict::from_values(alloc, values) {
        Ok(dict) => Ok(dict),
        Err(_) => Err(StepFault::Memory),
    }
}

// The dictionary of a column of the rowkey.
fn rowkey_dict<W: Watch>(
    alloc: Global,
    rows: &[Row],
    place: usize,
    watch: &mut W,
) -> Result<Dict, StepFault>
    requires { length rows.now < 2 ^ 32 }
    ensures dict { IfOk result (λ d. d ≡ dictionary_of (values_in rows.now place)) }
    ensures looked { Looked W.seen W.there W.held W.place watch.old watch.new }
    ensures stopped { IsErrOf result StepFault.Stopped → SawStop W.seen W.there watch.old watch.new }
{
    let values = values_in(alloc, rows, place, watch)?;
    dictionary(alloc, values.as_slice())
}

// The dictionary of a column whose different values are counted.
fn distinct_dict<W: Watch>(
    alloc: Global,
    rows: &[Row],
    place: usize,
    watch: &mut W,
) -> Result<Dict, StepFault>
    requires { length rows.now < 2 ^ 32 }
    ensures dict { IfOk result (λ d. d ≡ dictionary_of (known_in rows.now place)) }
    ensures looked { Looked W.seen W.there W.held W.place watch.old watch.new }
    ensures stopped { IsErrOf result StepFault.Stopped → SawStop W.seen W.there watch.old watch.new }
{
    let values = known_in(alloc, rows, place, watch)?;
    dictionary(alloc, values.as_slice())
}

// Adds the dictionaries of the first columns.
fn push_rowkey<W: Watch>(
    dicts: &mut Vec<Dict>,
    alloc: Global,
    rows: &[Row],
    width: usize,
    watch: &mut W,
) -> Result<(), StepFault>
    requires { length rows.now < 2 ^ 32 }
    ensures dicts { OnOk result (dicts.new.items ≡ dicts.old.items ++ map (λ place. dictionary_of (values_in rows.now place)) (range_with_len 0 width)) }
    ensures looked { Looked W.seen W.there W.held W.place watch.old watch.new }
    ensures stopped { IsErrOf result StepFault.Stopped → SawStop W.seen W.there watch.old watch.new }
{
    for place in 0..width {
        dicts.push(rowkey_dict(alloc, rows, place, watch)?)?;
    }
    Ok(())
}

// Adds the dictionaries of the columns at these places, whose different values are counted.
fn push_distinct<W: Watch>(
    dicts: &mut Vec<Dict>,
    alloc: Global,
    rows: &[Row],
    places: &[usize],
    watch: &mut W,
) -> Result<(), StepFault>
    requires { length rows.now < 2 ^ 32 }
    ensures dicts { OnOk result (dicts.new.items ≡ dicts.old.items ++ map (λ place. dictionary_of (known_in rows.now place)) places.now) }
    ensures looked { Looked W.seen W.there W.held W.place watch.old watch.new }
    ensures stopped { IsErrOf result StepFault.Stopped → SawStop W.seen W.there watch.old watch.new }
{
    for place in places {
        dicts.push(distinct_dict(alloc, rows, *place, watch)?)?;
    }
    Ok(())
}

/// The dictionaries of flat rows: of each rowkey column, null among its values, and then of each column whose different values
/// are counted, without null.
pub fn dict_value<W: Watch>(
    alloc: Global,
    desc: &CubeDesc,
    flat: &FlatRows,
    watch: &mut W,
) -> Result<DictSet, StepFault>
    requires { length flat.now < 2 ^ 32 }
    ensures dicts { IfOk result (λ dicts. dicts ≡ dict_value desc.now.cube flat.now) }
    ensures looked { Looked W.seen W.there W.held W.place watch.old watch.new }
    ensures stopped { IsErrOf result StepFault.Stopped → SawStop W.seen W.there watch.old watch.new }
{
    let cube = desc.parts();
    let places = distinct_places(alloc, cube)?;
    let mut dicts = Vec::new(alloc);
    push_rowkey(&mut dicts, alloc, flat.rows(), cube.rowkey.len(), watch)?;
    push_distinct(&mut dicts, alloc, flat.rows(), places.as_slice(), watch)?;
    Ok(DictSet::new(dicts))
}
