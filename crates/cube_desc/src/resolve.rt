// Names to numbers.

ghost use Rattle.std.specs.Prelude.{◌≡◌, ◌==◌, ◌<◌, ◌^◌, ◌++◌, ℕ, List, [], ◌∷◌, map, length, IfOk, IfSome, OnOk, Option, unwrap_or, option_to_list, bytes_eq, option_and_then};
ghost use Rattle.std.specs.List.{flat_map, position, list_any};
ghost use Rattle.std.specs.Arc.{arc_value};
ghost use Rattle.cube_desc.specs.Resolve.{type_of_word, type_named, column_of, table_of, lookup_of, tables_of, column_place, lookup_place, table_number, wide_of, rowkey_column, rowkey_of, derived_column, derived_named, dimension_derived, derived_of, form_named, measured_column, measure_of, measures_of, firsts, measure_columns, join_of, wide_derived, wide_fact, wide_columns, plan_of};
ghost use Rattle.descriptor_json.specs.declared.raw.RawLookup.{RawLookup};

use crate::desc::{DerivedDesc, MeasureDesc, TableDesc};
use cube_val::{ColDesc, ColType, Items, JoinPlan, JoinStep, WideCol};
use desc_checks::{column_number, columns_named, fact_columns, parts, takes_column};
use descriptor_json::{RawColumn, RawDesc, RawDimension, RawLookup, RawMeasure, RawName, RawNamed};
use measure_laws::MeasureForm;
use std::alloc::{AllocError, Global};

// ---- tables and columns

fn type_of_word(text: &[u8]) -> Option<ColType>
    ensures { result ≡ type_of_word text.now }
{
    if text == b"int".as_slice() {
        Some(ColType::Int)
    } else if text == b"decimal".as_slice() {
        Some(ColType::Decimal)
    } else if text == b"text".as_slice() {
        Some(ColType::Text)
    } else if text == b"date".as_slice() {
        Some(ColType::Date)
    } else {
        None
    }
}

fn type_named(text: &[u8]) -> ColType
    ensures { result ≡ type_named text.now }
{
    type_of_word(text).unwrap_or(ColType::Date)
}

fn column_desc(column: &RawColumn) -> Result<ColDesc, AllocError>
    ensures { IfOk result (λ c. c ≡ column_of column.now) }
{
    let (own, kind) = (&column.name, &column.kind);
    let name = own.text.copy()?;
    Ok(ColDesc {
        name,
        ty: type_named(kind.text.bytes()),
    })
}

fn column_descs(alloc: Global, columns: &[RawColumn]) -> Result<Items<ColDesc>, AllocError>
    ensures { IfOk result (λ cols. cols ≡ map column_of columns.now) }
{
    let mut cols = Items::new(alloc);
    for column in columns {
        cols.push(column_desc(column)?)?;
    }
    Ok(cols)
}

fn table_desc(alloc: Global, raw: &RawDesc, name: &RawName) -> Result<TableDesc, AllocError>
    ensures { IfOk result (λ t. t ≡ table_of raw.now name.now) }
{
    let own = name.text.copy()?;
    let cols = column_descs(alloc, columns_named(raw, name.text.bytes()))?;
    Ok(TableDesc { name: own, cols })
}

pub(crate) fn table_descs(alloc: Global, raw: &RawDesc) -> Result<Items<TableDesc>, AllocError>
    ensures { IfOk result (λ ts. ts ≡ tables_of raw.now) }
{
    let lookups = &raw.lookups;
    let mut tables = Items::new(alloc);
    tables.push(table_desc(alloc, raw, &raw.fact_table)?)?;
    for lookup in lookups.items.as_slice() {
        tables.push(table_desc(alloc, raw, &lookup.table)?)?;
    }
    Ok(tables)
}

fn column_place(columns: &[RawColumn], name: &[u8]) -> usize
    ensures { result ≡ column_place columns.now name.now }
{
    column_number(columns, name).unwrap_or(0)
}

fn is_lookup(lookup: &RawLookup, name: &[u8]) -> bool
    ensures { result ≡ bytes_eq lookup.now.table.text name.now }
{
    let own = &lookup.table;
    own.text.bytes() == name
}

fn find_lookup(lookups: &[RawLookup], name: &[u8]) -> Option<usize>
    ensures place { result ≡ position (λ l. bytes_eq l.table.text name.now) lookups.now }
    ensures bound { IfSome result (λ i. i < 2 ^ 63) }
{
    lookups.iter().position(|l| is_lookup(l, name))
}

fn lookup_place(raw: &RawDesc, name: &[u8]) -> usize
    ensures place { result ≡ lookup_place raw.now name.now }
    ensures bound { result < 2 ^ 63 }
{
    let lookups = &raw.lookups;
    find_lookup(lookups.items.as_slice(), name).unwrap_or(0)
}

fn table_number(raw: &RawDesc, name: &[u8]) -> usize
    ensures { result ≡ table_number raw.now name.now }
{
    let fact = &raw.fact_table;
    if fact.text.bytes() == name {
        return 0;
    }
    lookup_place(raw, name) + 1
}

fn wide(raw: &RawDesc, table: &[u8], column: &[u8]) -> WideCol
    ensures { result ≡ wide_of raw.now table.now column.now }
{
    WideCol {
        table: table_number(raw, table),
        column: column_place(columns_named(raw, table), column),
    }
}

// ---- dimensions

fn rowkey_column(raw: &RawDesc, text: &RawName) -> WideCol
    ensures { result ≡ rowkey_column raw.now text.now }
{
    let (table, column) = parts(text.text.bytes());
    wide(raw, table, column)
}

pub(crate) fn rowkey_columns(alloc: Global, raw: &RawDesc) -> Result<Vec<WideCol>, AllocError>
    ensures { IfOk result (λ v. v.items ≡ rowkey_of raw.now) }
{
    let rowkey = &raw.rowkey;
    let texts = rowkey.items.as_slice();
    texts.iter().map(|t| rowkey_column(raw, t)).collect(alloc)
}

fn derived_column(raw: &RawDesc, table: &[u8], name: &RawName) -> DerivedDesc
    ensures { result ≡ derived_column raw.now table.now name.now }
{
    DerivedDesc {
        lookup: lookup_place(raw, table),
        column: column_place(columns_named(raw, table), name.text.bytes()),
    }
}

fn push_derived(
    raw: &RawDesc,
    table: &[u8],
    names: &[RawName],
    derived: &mut Vec<DerivedDesc>,
) -> Result<(), AllocError>
    ensures { OnOk result (derived.new.items ≡ derived.old.items ++ map (derived_column raw.now table.now) names.now) }
{
    for name in names {
        derived.push(derived_column(raw, table, name))?;
    }
    Ok(())
}

fn push_dimension(
    raw: &RawDesc,
    dimension: &RawDimension,
    derived: &mut Vec<DerivedDesc>,
) -> Result<(), AllocError>
    ensures { OnOk result (derived.new.items ≡ derived.old.items ++ dimension_derived raw.now dimension.now) }
{
    let table = &dimension.table;
    match &dimension.named {
        RawNamed::Column(_) => Ok(()),
        RawNamed::Derived(names) => {
            push_derived(raw, table.text.bytes(), names.as_slice(), derived)
        }
    }
}

pub(crate) fn derived_columns(alloc: Global, raw: &RawDesc) -> Result<Vec<DerivedDesc>, AllocError>
    ensures { IfOk result (λ v. v.items ≡ derived_of raw.now) }
{
    let mut derived = Vec::new(alloc);
    for dimension in raw.dimensions.as_slice() {
        push_dimension(raw, dimension, &mut derived)?;
    }
    Ok(derived)
}

// ---- measures

fn form_named(text: &[u8]) -> MeasureForm
    ensures { result ≡ form_named text.now }
{
    MeasureForm::of_word(text).unwrap_or(MeasureForm::Distinct)
}

fn measured_column(raw: &RawDesc, measure: &RawMeasure) -> Option<usize>
    ensures { result ≡ measured_column raw.now measure.now }
{
    let function = &measure.function;
    let value = &function.parameter.value;
    if takes_column(measure) {
        Some(column_place(fact_columns(raw), value.text.bytes()))
    } else {
        None
    }
}

fn measure_desc(raw: &RawDesc, measure: &RawMeasure) -> Result<MeasureDesc, AllocError>
    ensures { IfOk result (λ m. m ≡ measure_of raw.now measure.now) }
{
    let (own, function) = (&measure.name, &measure.function);
    let word = &function.expression;
    let name = own.text.copy()?;
    Ok(MeasureDesc {
        name,
        form: form_named(word.text.bytes()),
        column: measured_column(raw, measure),
    })
}

pub(crate) fn measure_descs(alloc: Global, raw: &RawDesc) -> Result<Items<MeasureDesc>, AllocError>
    ensures { IfOk result (λ ms. ms ≡ measures_of raw.now) }
{
    let all = &raw.measures;
    let mut measures = Items::new(alloc);
    for measure in all.items.as_slice() {
        measures.push(measure_desc(raw, measure)?)?;
    }
    Ok(measures)
}

fn contains(columns: &[usize], column: usize) -> bool
    ensures { result ≡ list_any (λ b. b == column) columns.now }
{
    columns.iter().any(|b| *b == column)
}

fn push_first(columns: &mut Vec<usize>, column: usize) -> Result<(), AllocError>
    ensures { OnOk result (columns.new.items ≡ columns.old.items ++ firsts columns.old.items (column ∷ [])) }
{
    if contains(columns.as_slice(), column) {
        return Ok(());
    }
    columns.push(column)?;
    Ok(())
}

fn add_first(columns: &mut Vec<usize>, column: Option<usize>) -> Result<(), AllocError>
    ensures { OnOk result (columns.new.items ≡ columns.old.items ++ firsts columns.old.items (option_to_list column)) }
{
    match column {
        Some(column) => push_first(columns, column),
        None => Ok(()),
    }
}

fn measure_columns(alloc: Global, raw: &RawDesc) -> Result<Vec<usize>, AllocError>
    ensures { IfOk result (λ v. v.items ≡ measure_columns raw.now) }
{
    let measures = &raw.measures;
    let mut columns = Vec::new(alloc);
    for measure in measures.items.as_slice() {
        add_first(&mut columns, measured_column(raw, measure))?;
    }
    Ok(columns)
}

// ---- the plan

fn key_places(
    alloc: Global,
    columns: &[RawColumn],
    names: &[RawName],
) -> Result<Vec<usize>, AllocError>
    ensures { IfOk result (λ v. v.items ≡ map (λ t. column_place columns.now t.text) names.now) }
{
    names
        .iter()
        .map(|t| column_place(columns, t.text.bytes()))
        .collect(alloc)
}

fn join_step(alloc: Global, raw: &RawDesc, lookup: &RawLookup) -> Result<JoinStep, AllocError>
    ensures { IfOk result (λ j. j ≡ join_of raw.now lookup.now) }
{
    let (table, join) = (&lookup.table, &lookup.join);
    let kind = &join.kind;
    let own = columns_named(raw, table.text.bytes());
    let foreign = key_places(alloc, fact_columns(raw), join.foreign.as_slice())?;
    let primary = key_places(alloc, own, join.primary.as_slice())?;
    Ok(JoinStep {
        inner: kind.text.bytes() == b"inner".as_slice(),
        foreign: Items::of(foreign),
        primary: Items::of(primary),
    })
}

fn join_steps(alloc: Global, raw: &RawDesc) -> Result<Items<JoinStep>, AllocError>
    ensures { IfOk result (λ js. js ≡ map (join_of raw.now) raw.now.lookups.items) }
{
    let lookups = &raw.lookups;
    let mut joins = Items::new(alloc);
    for lookup in lookups.items.as_slice() {
        joins.push(join_step(alloc, raw, lookup)?)?;
    }
    Ok(joins)
}

fn wide_derived(raw: &RawDesc, table: &[u8], name: &RawName) -> WideCol
    ensures { result ≡ wide_derived (derived_column raw.now table.now name.now) }
{
    let derived = derived_column(raw, table, name);
    WideCol {
        table: lookup_place(raw, table) + 1,
        column: derived.column,
    }
}

fn push_wide_derived(
    raw: &RawDesc,
    table: &[u8],
    names: &[RawName],
    columns: &mut Vec<WideCol>,
) -> Result<(), AllocError>
    ensures { OnOk result (columns.new.items ≡ columns.old.items ++ map wide_derived (map (derived_column raw.now table.now) names.now)) }
{
    for name in names {
        columns.push(wide_derived(raw, table, name))?;
    }
    Ok(())
}

fn push_wide_dimension(
    raw: &RawDesc,
    dimension: &RawDimension,
    columns: &mut Vec<WideCol>,
) -> Result<(), AllocError>
    ensures { OnOk result (columns.new.items ≡ columns.old.items ++ map wide_derived (dimension_derived raw.now dimension.now)) }
{
    let table = &dimension.table;
    match &dimension.named {
        RawNamed::Column(_) => Ok(()),
        RawNamed::Derived(names) => {
            push_wide_derived(raw, table.text.bytes(), names.as_slice(), columns)
        }
    }
}

fn push_wide_dimensions(raw: &RawDesc, columns: &mut Vec<WideCol>) -> Result<(), AllocError>
    ensures { OnOk result (columns.new.items ≡ columns.old.items ++ flat_map (λ d. map wide_derived (dimension_derived raw.now d)) raw.now.dimensions) }
{
    for dimension in raw.dimensions.as_slice() {
        push_wide_dimension(raw, dimension, columns)?;
    }
    Ok(())
}

fn push_wide_facts(columns: &mut Vec<WideCol>, facts: &[usize]) -> Result<(), AllocError>
    ensures { OnOk result (columns.new.items ≡ columns.old.items ++ map wide_fact facts.now) }
{
    for column in facts {
        columns.push(WideCol {
            table: 0,
            column: *column,
        })?;
    }
    Ok(())
}

fn wide_columns(alloc: Global, raw: &RawDesc) -> Result<Vec<WideCol>, AllocError>
    ensures { IfOk result (λ v. v.items ≡ wide_columns raw.now) }
{
    let facts = measure_columns(alloc, raw)?;
    let mut columns = rowkey_columns(alloc, raw)?;
    push_wide_dimensions(raw, &mut columns)?;
    push_wide_facts(&mut columns, facts.as_slice())?;
    Ok(columns)
}

pub(crate) fn join_plan(alloc: Global, raw: &RawDesc) -> Result<JoinPlan, AllocError>
    ensures { IfOk result (λ p. p ≡ plan_of raw.now) }
{
    let partition = &raw.partition;
    let joins = join_steps(alloc, raw)?;
    let wide = wide_columns(alloc, raw)?;
    Ok(JoinPlan {
        partition: column_place(fact_columns(raw), partition.text.bytes()),
        joins,
        wide: Items::of(wide),
    })
}
