// The checks in their order.
#![tactic(auto, using(crate::proofs::FirstLemmas::first_append))]

ghost use Rattle.std.specs.Prelude.{◌≡◌, ℕ, List, [], ◌∷◌, ◌++◌, Option, IfOk, map};
ghost use Rattle.std.specs.Option.{option_copied, option_or};
ghost use Rattle.desc_checks.specs.Firsts.{first};
ghost use Rattle.desc_checks.specs.Faults.{each, faults_of_texts, faults_of_names, faults_of_uses, faults};

use crate::columns::no_column_place;
use crate::dimensions::{bad_dimension_place, bad_rowkey_place};
use crate::joins::{bad_join_place, bad_partition_place};
use crate::kind::{DescFault, DescKind};
use crate::limits::too_many_place;
use crate::measures::bad_measure_place;
use crate::names::bad_name_place;
use crate::repeats::{owned, twice_place};
use crate::tables::no_table_place;
use crate::types::bad_type_place;
use cube_val::NameText;
use descriptor_json::{JsonPointer, RawDesc};
use std::alloc::{AllocError, Global};

/// The fault of this kind at a place, if there is one.
pub fn fault_at(
    alloc: Global,
    kind: DescKind,
    place: Option<&JsonPointer>,
) -> Result<Option<DescFault>, AllocError>
    ensures { IfOk result (λ o. (places : List (List ℕ)) → option_copied place.entry ≡ first places → o ≡ first (each kind places)) }
{
    match place {
        Some(place) => {
            let place = NameText::new(alloc, place.bytes())?;
            Ok(Some(DescFault { kind, place }))
        }
        None => Ok(None),
    }
}

/// The fault that was found, or else the one of this kind at a place, if there is one.
fn or_fault(
    alloc: Global,
    found: Option<DescFault>,
    kind: DescKind,
    place: Option<&JsonPointer>,
) -> Result<Option<DescFault>, AllocError>
    ensures { IfOk result (λ o. (places : List (List ℕ)) → option_copied place.entry ≡ first places → o ≡ option_or found (first (each kind places))) }
{
    match found {
        Some(fault) => Ok(Some(fault)),
        None => fault_at(alloc, kind, place),
    }
}

fn first_of_texts(alloc: Global, raw: &RawDesc) -> Result<Option<DescFault>, AllocError>
    ensures { IfOk result (λ o. o ≡ first (faults_of_texts raw.now)) }
{
    let many = fault_at(alloc, DescKind::TooMany, too_many_place(raw))?;
    let named = or_fault(alloc, many, DescKind::BadName, bad_name_place(raw))?;
    let place = twice_place(alloc, raw)?;
    let twice = or_fault(alloc, named, DescKind::Twice, place.as_ref())?;
    Ok(twice)
}

fn first_of_names(alloc: Global, raw: &RawDesc) -> Result<Option<DescFault>, AllocError>
    ensures { IfOk result (λ o. o ≡ first (faults_of_names raw.now)) }
{
    let typed = fault_at(alloc, DescKind::BadType, bad_type_place(raw))?;
    let table = or_fault(alloc, typed, DescKind::NoTable, no_table_place(raw))?;
    or_fault(alloc, table, DescKind::NoColumn, no_column_place(raw))
}

fn first_of_uses(alloc: Global, raw: &RawDesc) -> Result<Option<DescFault>, AllocError>
    ensures { IfOk result (λ o. o ≡ first (faults_of_uses raw.now)) }
{
    let measured = bad_measure_place(alloc, raw)?;
    let join = fault_at(alloc, DescKind::BadJoin, bad_join_place(raw))?;
    let partition = or_fault(
        alloc,
        join,
        DescKind::BadPartition,
        bad_partition_place(raw),
    )?;
    let dimension = or_fault(
        alloc,
        partition,
        DescKind::BadDimension,
        bad_dimension_place(raw),
    )?;
    let measure = or_fault(alloc, dimension, DescKind::BadMeasure, measured)?;
    or_fault(alloc, measure, DescKind::BadRowkey, bad_rowkey_place(raw))
}

/// The first fault of a descriptor whose shape is right, from TooMany to BadRowkey.
pub fn first_fault(alloc: Global, raw: &RawDesc) -> Result<Option<DescFault>, AllocError>
    ensures { IfOk result (λ o. o ≡ first (faults raw.now)) }
{
    let of_texts = first_of_texts(alloc, raw)?;
    if of_texts.is_some() {
        return Ok(of_texts);
    }
    let of_names = first_of_names(alloc, raw)?;
    if of_names.is_some() {
        return Ok(of_names);
    }
    first_of_uses(alloc, raw)
}
