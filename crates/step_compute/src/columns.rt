// Which aggregates cuboids keep.

ghost use Rattle.std.specs.Prelude.{◌≡◌, IfOk};
ghost use Rattle.cube_desc.specs.Sound.{IsSound};
ghost use Rattle.step_compute.specs.Columns.{agg_of, kept_aggs, type_of};

use cube_desc::CubeParts;
use cube_desc::flat_row::place_of;
use cube_desc::kept::{Kept, kept_behind};
use cube_val::ColType;
use plain_answer::{Agg, AggKind};
use std::alloc::{AllocError, Global};

// The type of the fact table's column that a measure is of.
fn type_of(cube: &CubeParts, column: Option<usize>) -> ColType
    ensures { result ≡ type_of cube.now column }
{
    let Some(column) = column else {
        return ColType::Int;
    };
    let Some(table) = cube.tables.as_slice().first() else {
        return ColType::Int;
    };
    match table.cols.as_slice().get(column) {
        Some(col) => col.ty,
        None => ColType::Int,
    }
}

// What a measure makes of flat rows.
fn agg_of(cube: &CubeParts, measure: Kept) -> Agg
    requires { IsSound cube.now }
    ensures { result ≡ agg_of cube.now measure }
{
    Agg {
        kind: AggKind::of_form(measure.form),
        column: Some(place_of(cube, measure.column)),
        ty: type_of(cube, measure.column),
    }
}

/// The aggregates that cuboids keep: the count of rows, and then the other measures.
pub(crate) fn kept_aggs(alloc: Global, cube: &CubeParts) -> Result<Vec<Agg>, AllocError>
    requires { IsSound cube.now }
    ensures { IfOk result (λ v. v.items ≡ kept_aggs cube.now) }
{
    let kept = kept_behind(alloc, cube)?;
    let mut aggs = Vec::new(alloc);
    aggs.push(Agg {
        kind: AggKind::Count,
        column: None,
        ty: ColType::Int,
    })?;
    for measure in kept.as_slice() {
        aggs.push(agg_of(cube, *measure))?;
    }
    Ok(aggs)
}
