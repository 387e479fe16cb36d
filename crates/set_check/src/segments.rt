// Segments of one row, which has no date and so lies in no range.

ghost use Rattle.std.specs.Prelude.{◌≡◌, ◌∷◌, [], IfOk};
ghost use Rattle.std.specs.Arc.{arc_value};
ghost use Rattle.set_check.specs.Parts.{count_of_rows, empty_table, job_parts, job_plan, job_row, job_source};

use agg_group::Mask;
use cell_store::CellTable;
use cube_val::{ColType, Items, JoinPlan, Row, Table, TableSet, Val, WideCol};
use dim_dictionary::{Dict, DictSet};
use measure_laws::MeasureForm;
use outside::Honest;
use plain_answer::{Agg, AggKind};
use range_list::Range;
use segment_store::{Segment, SegmentParts, Snap};
use std::alloc::{AllocError, Global};
use std::sync::Arc;

/// Hands that are honest.
#[derive(Drop)]
pub(crate) struct Exact;

impl Honest for Exact {
    ghost honest = { Unit {0} };
}

// The one column of joined rows: the number of the job.
const JOB: WideCol = WideCol {
    table: 0,
    column: 1,
};

// What each cell keeps.
const COUNT_OF_ROWS: Agg = Agg {
    kind: AggKind::Count,
    column: None,
    ty: ColType::Int,
};

// How rows are joined.
fn plan(alloc: Global) -> Result<JoinPlan, AllocError>
    ensures { IfOk result (λ plan. plan ≡ job_plan) }
{
    let wide = Items::from_slice(alloc, &[JOB])?;
    Ok(JoinPlan {
        partition: 0,
        joins: Items::new(alloc),
        wide,
    })
}

// The fact table: the row of the job.
fn facts(alloc: Global, job: u32) -> Result<Table, AllocError>
    ensures { IfOk result (λ table. table ≡ job_row job ∷ []) }
{
    let mut row = Row::new(alloc);
    row.push(Val::Null)?;
    row.push(Val::Int(i64::from(job)))?;
    let mut table = Table::new(alloc);
    table.push(row)?;
    Ok(table)
}

// The tables of a source.
fn tables(alloc: Global, job: u32) -> Result<TableSet, AllocError>
    ensures { IfOk result (λ tables. tables ≡ (job_row job ∷ []) ∷ []) }
{
    let table = Arc::new(alloc, facts(alloc, job)?)?;
    let mut tables = Vec::new(alloc);
    tables.push(table)?;
    Ok(TableSet::new(tables))
}

// The source of a segment.
fn snap(alloc: Global, range: Range, job: u32) -> Result<Snap, AllocError>
    ensures { IfOk result (λ snap. snap ≡ job_source range job) }
{
    let plan = Arc::new(alloc, plan(alloc)?)?;
    let tables = tables(alloc, job)?;
    Ok(Snap::new(plan, tables, range))
}

// The sources of a segment.
fn origin(alloc: Global, range: Range, job: u32) -> Result<Items<Snap>, AllocError>
    ensures { IfOk result (λ origin. origin ≡ job_source range job ∷ []) }
{
    let mut origin = Items::new(alloc);
    origin.push(snap(alloc, range, job)?)?;
    Ok(origin)
}

// The dictionary of the rowkey, of no value.
fn dicts(alloc: Global) -> Result<DictSet, AllocError>
    ensures { IfOk result (λ dicts. dicts ≡ [] ∷ []) }
{
    let mut dicts = Vec::new(alloc);
    dicts.push(Dict::of(Vec::new(alloc)))?;
    Ok(DictSet::new(dicts))
}

// The one cuboid, of no row.
fn cuboids(alloc: Global) -> Result<Items<CellTable>, AllocError>
    ensures { IfOk result (λ tables. tables ≡ empty_table ∷ []) }
{
    let table = CellTable::new(alloc, Mask(1), &[MeasureForm::Count])?;
    let mut tables = Items::new(alloc);
    tables.push(table)?;
    Ok(tables)
}

// The parts of a segment.
fn parts(alloc: Global, range: Range, job: u32) -> Result<SegmentParts, AllocError>
    ensures { IfOk result (λ parts. parts ≡ job_parts range job) }
{
    let origin = origin(alloc, range, job)?;
    let kept = Items::from_slice(alloc, &[COUNT_OF_ROWS])?;
    let dicts = dicts(alloc)?;
    let tables = cuboids(alloc)?;
    Ok(SegmentParts {
        range,
        job,
        origin,
        kept,
        dicts,
        lookups: Items::new(alloc),
        tables,
    })
}

/// The segment of a job over a range.
pub(crate) fn segment(alloc: Global, range: Range, job: u32) -> Result<Segment<Exact>, AllocError>
    ensures { IfOk result (λ segment. segment ≡ job_parts range job) }
{
    let parts = parts(alloc, range, job)?;
    Ok(Segment::seal(parts))
}
