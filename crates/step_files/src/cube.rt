// What the step files of a cube are read by.

ghost use Rattle.std.specs.Prelude.{◌≡◌, ◌<◌, ◌++◌, IfOk, OnOk, length, map};
ghost use Rattle.cube_desc.specs.FlatRow.{measured};
ghost use Rattle.cube_desc.specs.Kept.{dict_places, kept_behind};
ghost use Rattle.cube_desc.specs.Sound.{IsSound};
ghost use Rattle.step_codec.specs.Layouts.{IsLayout};
ghost use Rattle.step_files.specs.Cubes.{column_at, columns_in, dict_column, extremes_of, flat_columns, layout_in, layout_of, table_of, tables_of};

use crate::measures::extremes_of;
use cube_desc::flat_row::measured;
use cube_desc::kept::{Kept, dict_places, kept_behind};
use cube_desc::{CubeDesc, CubeParts};
use cube_fields::Extremes;
use cube_val::{ColDesc, ColType, Items, TableForm, WideCol};
use measure_laws::MeasureForm;
use std::alloc::{AllocError, Global};
use step_codec::{DictColumn, Layout, TableColumns};
use step_fields::Column;

// The column of a place where there is none.
const NO_COLUMN: Column = Column {
    ty: ColType::Int,
    no_null: false,
};

// The columns of a form.
fn columns_in(alloc: Global, cols: &[ColDesc], no_null: &[bool]) -> Result<Vec<Column>, AllocError>
    requires { length no_null.now ≡ length cols.now }
    ensures columns { IfOk result (λ v. v.items ≡ columns_in cols.now no_null.now) }
{
    let mut columns = Vec::new(alloc);
    for i in 0..cols.len() {
        let col = &cols[i];
        columns.push(Column {
            ty: col.ty,
            no_null: no_null[i],
        })?;
    }
    Ok(columns)
}

// The columns and the key of a table.
fn table_of(alloc: Global, desc: &CubeDesc, t: usize) -> Result<TableColumns, AllocError>
    requires { t < length desc.now.cube.tables }
    ensures { IfOk result (λ table. table ≡ table_of desc.now.cube t) }
{
    let TableForm { cols, no_null, key } = desc.form(alloc, t)?;
    let columns = columns_in(alloc, cols.as_slice(), no_null.as_slice())?;
    Ok(TableColumns::new(Items::of(columns), key))
}

// The columns and the keys of all tables.
#[tactic(auto, unfolding(crate::specs::Cubes::tables_of))]
fn tables_of(alloc: Global, desc: &CubeDesc) -> Result<Vec<TableColumns>, AllocError>
    ensures { IfOk result (λ v. v.items ≡ tables_of desc.now.cube) }
{
    let cube = desc.parts();
    let mut tables = Vec::new(alloc);
    for t in 0..cube.tables.len() {
        tables.push(table_of(alloc, desc, t)?)?;
    }
    Ok(tables)
}

// A column of one of the tables.
fn column_at(tables: &[TableColumns], w: WideCol) -> Column
    ensures { result ≡ column_at tables.now w }
{
    let Some(table) = tables.get(w.table) else {
        return NO_COLUMN;
    };
    match table.columns().get(w.column) {
        Some(column) => *column,
        None => NO_COLUMN,
    }
}

// Adds columns of the tables.
fn push_columns(
    flat: &mut Vec<Column>,
    tables: &[TableColumns],
    wide: &[WideCol],
) -> Result<(), AllocError>
    ensures { OnOk result (flat.new.items ≡ flat.old.items ++ map (column_at tables.now) wide.now) }
{
    for w in wide {
        flat.push(column_at(tables, *w))?;
    }
    Ok(())
}

// The columns of a flat row.
#[tactic(auto, unfolding(crate::specs::Cubes::flat_columns))]
fn flat_columns(
    alloc: Global,
    cube: &CubeParts,
    tables: &[TableColumns],
) -> Result<Vec<Column>, AllocError>
    requires sound { IsSound cube.now }
    requires tables { tables.now ≡ tables_of cube.now }
    ensures { IfOk result (λ v. v.items ≡ flat_columns cube.now) }
{
    let mut flat = Vec::new(alloc);
    push_columns(&mut flat, tables, cube.rowkey.as_slice())?;
    push_columns(&mut flat, tables, measured(cube))?;
    Ok(flat)
}

// The column at a place of a flat row, with its place.
fn dict_column(flat: &[Column], place: usize) -> DictColumn
    ensures { result ≡ dict_column flat.now place }
{
    match flat.get(place) {
        Some(column) => DictColumn {
            column: *column,
            place,
        },
        None => DictColumn {
            column: NO_COLUMN,
            place,
        },
    }
}

// The columns that have a dictionary.
fn dict_columns(
    alloc: Global,
    flat: &[Column],
    places: &[usize],
) -> Result<Vec<DictColumn>, AllocError>
    ensures { IfOk result (λ v. v.items ≡ map (dict_column flat.now) places.now) }
{
    let mut columns = Vec::new(alloc);
    for place in places {
        columns.push(dict_column(flat, *place))?;
    }
    Ok(columns)
}

// The forms of measures.
fn forms_of(alloc: Global, measures: &[Kept]) -> Result<Vec<MeasureForm>, AllocError>
    ensures { IfOk result (λ v. v.items ≡ map (λ k. k.form) measures.now) }
{
    let mut forms = Vec::new(alloc);
    for measure in measures {
        forms.push(measure.form)?;
    }
    Ok(forms)
}

// The columns of the cube that have a dictionary.
fn cube_dicts(
    alloc: Global,
    cube: &CubeParts,
    flat: &[Column],
) -> Result<Vec<DictColumn>, AllocError>
    requires { IsSound cube.now }
    ensures { IfOk result (λ v. v.items ≡ map (dict_column flat.now) (dict_places cube.now)) }
{
    let places = dict_places(alloc, cube)?;
    dict_columns(alloc, flat, places.as_slice())
}

// The forms of the measures that a cube keeps behind the count of rows, and the pairs among them.
#[derive(Drop)]
struct KeptForms {
    forms: Vec<MeasureForm>,
    extremes: Vec<Extremes>,
}

// The forms of the cube's measures.
fn kept_forms(alloc: Global, cube: &CubeParts) -> Result<KeptForms, AllocError>
    requires { IsSound cube.now }
    ensures forms { IfOk result (λ k. k.forms.items ≡ map (λ kept. kept.form) (kept_behind cube.now)) }
    ensures extremes { IfOk result (λ k. k.extremes.items ≡ extremes_of (kept_behind cube.now)) }
{
    let measures = kept_behind(alloc, cube)?;
    let extremes = extremes_of(alloc, measures.as_slice())?;
    let forms = forms_of(alloc, measures.as_slice())?;
    Ok(KeptForms { forms, extremes })
}

// What the step files of the cube are read by.
#[tactic(auto, unfolding(crate::specs::Cubes::layout_of))]
fn layout_of(alloc: Global, desc: &CubeDesc) -> Result<Layout, AllocError>
    ensures { IfOk result (λ l. l ≡ layout_of desc.now.cube) }
{
    let cube = desc.parts();
    let tables = tables_of(alloc, desc)?;
    let flat = flat_columns(alloc, cube, tables.as_slice())?;
    let dicts = cube_dicts(alloc, cube, flat.as_slice())?;
    let kept = kept_forms(alloc, cube)?;
    let masks = Items::from_slice(alloc, cube.masks.as_slice())?;
    Ok(Layout {
        tables: Items::of(tables),
        flat: Items::of(flat),
        dicts: Items::of(dicts),
        dims: cube.rowkey.len(),
        measures: Items::of(kept.forms),
        extremes: Items::of(kept.extremes),
        masks,
    })
}

/// What the step files of the descriptor's cube are read by.
pub fn layout(alloc: Global, desc: &CubeDesc) -> Result<Layout, AllocError>
    ensures layout { IfOk result (λ l. l ≡ layout_in desc.now.source) }
    ensures holds { IfOk result IsLayout }
{
    let _source = desc.source();
    layout_of(alloc, desc)
}
