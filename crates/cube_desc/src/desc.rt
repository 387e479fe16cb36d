// A descriptor whose names are numbers.

ghost use Rattle.std.specs.Prelude.{◌≡◌, ◌<◌, All, List, Some, length, map, IfOk};
ghost use Rattle.std.specs.List.{list_any, range_with_len};
ghost use Rattle.cube_desc.specs.Meaning as meanings;
ghost use Rattle.cube_desc.specs.Forms as forms;
ghost use Rattle.cube_desc.specs.Sound as sound;

use agg_group::{Group, Mask};
use cube_val::{ColDesc, Items, JoinPlan, NameText, TableForm, WideCol};
use measure_laws::MeasureForm;
use std::alloc::{AllocError, Global};
use std::marker::Model;
use std::sync::Arc;

/// A table of the cube.
#[derive(Drop)]
pub struct TableDesc {
    /// Its name.
    pub name: NameText,
    /// Its columns, in the order of the descriptor.
    pub cols: Items<ColDesc>,
}

/// A measure of the cube.
#[derive(Drop)]
pub struct MeasureDesc {
    /// Its name.
    pub name: NameText,
    /// What it makes of the rows.
    pub form: MeasureForm,
    /// The fact table's column that it is of. Only a count is of none.
    pub column: Option<usize>,
}

/// A derived column, found in its lookup when a query is answered.
#[derive(Clone, Copy, Debug, PartialEq, Eq)]
pub struct DerivedDesc {
    /// The number of the lookup, from 0.
    pub lookup: usize,
    /// The place of the column in the lookup.
    pub column: usize,
}

/// What a descriptor says, with numbers for names.
#[derive(Drop)]
pub struct CubeParts {
    /// The name of the cube.
    pub name: NameText,
    /// The fact table, and then the lookups in their order.
    pub tables: Items<TableDesc>,
    /// The measures.
    pub measures: Items<MeasureDesc>,
    /// The columns of the rowkey: dimension i is the i-th.
    pub rowkey: Items<WideCol>,
    /// The derived columns.
    pub derived: Items<DerivedDesc>,
    /// The aggregation groups.
    pub groups: Items<Group>,
    /// The masks of the cuboids that are built, rising.
    pub masks: Items<Mask>,
    /// How rows are made of the tables.
    pub plan: Arc<JoinPlan>,
}

impl Model for CubeParts {
    ghost use Rattle.std.specs.Arc.{arc_value};
    ghost use Rattle.cube_desc.specs.Cube.{Cube};

    ghost Value = { Cube };

    ghost view = { λ c. record { name = c.name; tables = c.tables; measures = c.measures; rowkey = c.rowkey; derived = c.derived; groups = c.groups; masks = c.masks; plan = arc_value c.plan } };
}

/// A descriptor with the bytes that it was read from. It is what they mean.
#[derive(Drop)]
pub struct CubeDesc {
    parts: CubeParts,
    source: Vec<u8>,
}

impl Model for CubeDesc {
    ghost use Rattle.std.specs.Prelude.{◌≡◌, Some};
    ghost use Rattle.cube_desc.specs.Meaning.{Descriptor, desc_of};

    ghost Value = { Descriptor };

    ghost view = { λ d. record { cube = d.parts; source = d.source.items } };

    ghost invariant = { λ d. desc_of d.source.items ≡ Some d.parts };
}

impl CubeDesc {
    pub(crate) fn new(parts: CubeParts, source: Vec<u8>) -> CubeDesc
        requires { meanings.desc_of source.items ≡ Some parts }
        ensures { result ≡ record { cube = parts; source = source.items } }
    {
        CubeDesc { parts, source }
    }

    /// What the descriptor says.
    pub fn parts(&self) -> &CubeParts
        ensures value { result.now ≡ self.now.cube }
        ensures read { meanings.desc_of self.now.source ≡ Some self.now.cube }
        ensures sound { sound.IsSound self.now.cube }
    {
        &self.parts
    }

    /// The bytes that it was read from.
    pub fn source(&self) -> &[u8]
        ensures value { result.now ≡ self.now.source }
        ensures read { meanings.desc_of self.now.source ≡ Some self.now.cube }
    {
        self.source.as_slice()
    }

    /// The form of the table file of a table, by its number. A lookup's key is its primary key; the fact table has none, and in its
    /// columns that a measure is of no null may stand.
    pub fn form(&self, alloc: Global, table: usize) -> Result<TableForm, AllocError>
        requires { table < length self.now.cube.tables }
        ensures form { IfOk result (λ f. f ≡ forms.form_of self.now.cube table) }
        ensures no_null { IfOk result (λ f. length f.no_null ≡ length f.cols) }
        ensures key { IfOk result (λ f. All (λ place. place < length f.cols) f.key) }
    {
        form_of(alloc, &self.parts, table)
    }
}

fn is_of(column: usize, measure: &MeasureDesc) -> bool
    ensures { result ≡ forms.is_of column measure.now.column }
{
    match measure.column {
        Some(own) => own == column,
        None => false,
    }
}

fn is_measured(measures: &[MeasureDesc], column: usize) -> bool
    ensures { result ≡ list_any (λ m. forms.is_of column m.column) measures.now }
{
    measures.iter().any(|m| is_of(column, m))
}

fn no_null_at(parts: &CubeParts, table: usize, column: usize) -> bool
    ensures { result ≡ forms.no_null_at parts.now table column }
{
    table == 0 && is_measured(parts.measures.as_slice(), column)
}

fn no_nulls(
    alloc: Global,
    parts: &CubeParts,
    table: usize,
    count: usize,
) -> Result<Vec<bool>, AllocError>
    ensures { IfOk result (λ v. v.items ≡ map (forms.no_null_at parts.now table) (range_with_len 0 count)) }
{
    let mut no_null = Vec::new(alloc);
    for column in 0..count {
        no_null.push(no_null_at(parts, table, column))?;
    }
    Ok(no_null)
}

fn copied_cols(alloc: Global, cols: &[ColDesc]) -> Result<Items<ColDesc>, AllocError>
    ensures { IfOk result (λ copies. copies ≡ cols.now) }
{
    let mut copies = Items::new(alloc);
    for col in cols {
        copies.push(col.copy()?)?;
    }
    Ok(copies)
}

fn key_of(alloc: Global, plan: &JoinPlan, table: usize) -> Result<Items<usize>, AllocError>
    ensures { IfOk result (λ key. key ≡ forms.key_of plan.now table) }
{
    if table == 0 {
        return Ok(Items::new(alloc));
    }
    match plan.joins.as_slice().get(table - 1) {
        Some(join) => Items::from_slice(alloc, join.primary.as_slice()),
        None => Ok(Items::new(alloc)),
    }
}

fn form_of(alloc: Global, parts: &CubeParts, table: usize) -> Result<TableForm, AllocError>
    requires { table < length parts.now.tables }
    ensures { IfOk result (λ f. f ≡ forms.form_of parts.now table) }
{
    let desc = parts.tables.get(table);
    let cols = copied_cols(alloc, desc.cols.as_slice())?;
    let no_null = no_nulls(alloc, parts, table, desc.cols.len())?;
    let key = key_of(alloc, &parts.plan, table)?;
    Ok(TableForm {
        cols,
        no_null: Items::of(no_null),
        key,
    })
}
