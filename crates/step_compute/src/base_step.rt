// The base step.

ghost use Rattle.std.specs.Prelude.{◌≡◌, ◌≤◌, ◌<◌, ◌+◌, ◌++◌, IfOk, IsErrOf, List, OnOk, length};
ghost use Rattle.measure_laws.specs.Measures.{most_items};
ghost use Rattle.cube_desc.specs.Kept.{dict_places};
ghost use Rattle.cube_val.specs.declared.val.Val.{Val};
ghost use Rattle.layer_builder.specs.Base.{IsBase, count_of_distincts};
ghost use Rattle.layer_builder.specs.Pieces.{AreBases};
ghost use Rattle.step_compute.specs.Values.{base_value};
ghost use Rattle.step_compute.specs.Watched.{Looked, SawStop};

use crate::columns::kept_aggs;
use crate::fault::StepFault;
use crate::watching::{ROWS_PER_LOOK, look};
use cell_store::CellTable;
use cube_desc::CubeDesc;
use cube_val::Row;
use dim_dictionary::DictSet;
use layer_builder::{base_of_pieces, base_pieces};
use outside::Watch;
use plain_answer::{Agg, FlatRows};
use std::alloc::{AllocError, Global};
use std::thread::Threads;

// Into how many pieces the rows after a look are cut at most.
const PIECES: u32 = 8;

// Adds the base cuboids of the pieces of some rows.
fn add_pieces<R: Threads + Sync>(
    rt: &R,
    alloc: Global,
    rows: &[Row],
    dicts: &DictSet,
    aggs: &[Agg],
    tables: &mut Vec<CellTable>,
) -> Result<(), AllocError>
    requires dims { count_of_distincts aggs.now < length dicts.now }
    requires few_dims { length dicts.now ≤ count_of_distincts aggs.now + 64 }
    requires few { length rows.now ≤ most_items }
    ensures { OnOk result ((done : List (List Val)) → AreBases aggs.now dicts.now done tables.old.items → AreBases aggs.now dicts.now (done ++ rows.now) tables.new.items) }
{
    let mut made = base_pieces(rt, alloc, rows, dicts, aggs, PIECES)?;
    tables.append(&mut made)
}

// The base cuboids of pieces of rows, part by part.
fn in_parts<R: Threads + Sync, W: Watch>(
    rt: &R,
    alloc: Global,
    rows: &[Row],
    dicts: &DictSet,
    aggs: &[Agg],
    watch: &mut W,
) -> Result<Vec<CellTable>, StepFault>
    requires dims { count_of_distincts aggs.now < length dicts.now }
    requires few_dims { length dicts.now ≤ count_of_distincts aggs.now + 64 }
    requires few { length rows.now ≤ most_items }
    ensures tables { IfOk result (λ tables. AreBases aggs.now dicts.now rows.now tables.items) }
    ensures looked { Looked W.seen W.there W.held W.place watch.old watch.new }
    ensures stopped { IsErrOf result StepFault.Stopped → SawStop W.seen W.there watch.old watch.new }
{
    let mut tables = Vec::new(alloc);
    let mut start = 0;
    while start < rows.len() {
        look(watch)?;
        let end = start + ROWS_PER_LOOK.min(rows.len() - start);
        add_pieces(rt, alloc, &rows[start..end], dicts, aggs, &mut tables)?;
        start = end;
    }
    Ok(tables)
}

// The base cuboid of rows by aggregates.
fn base_of<R: Threads + Sync, W: Watch>(
    rt: &R,
    alloc: Global,
    rows: &[Row],
    dicts: &DictSet,
    aggs: &[Agg],
    watch: &mut W,
) -> Result<CellTable, StepFault>
    requires dims { count_of_distincts aggs.now < length dicts.now }
    requires few_dims { length dicts.now ≤ count_of_distincts aggs.now + 64 }
    requires few { length rows.now ≤ most_items }
    ensures base { IfOk result (IsBase aggs.now dicts.now rows.now) }
    ensures looked { Looked W.seen W.there W.held W.place watch.old watch.new }
    ensures stopped { IsErrOf result StepFault.Stopped → SawStop W.seen W.there watch.old watch.new }
{
    let tables = in_parts(rt, alloc, rows, dicts, aggs, watch)?;
    match base_of_pieces(alloc, dicts, aggs, &tables) {
        Ok(table) => Ok(table),
        Err(_) => Err(StepFault::Memory),
    }
}

/// The base cuboid of flat rows, in the numbers of their dictionaries: one for each rowkey column, and then one for each
/// COUNT_DISTINCT.
pub fn base_value<R: Threads + Sync, W: Watch>(
    rt: &R,
    alloc: Global,
    desc: &CubeDesc,
    flat: &FlatRows,
    dicts: &DictSet,
    watch: &mut W,
) -> Result<CellTable, StepFault>
    requires dicts { length dicts.now ≡ length (dict_places desc.now.cube) }
    requires few { length flat.now ≤ most_items }
    ensures base { IfOk result (λ table. table ≡ base_value desc.now.cube flat.now dicts.now) }
    ensures looked { Looked W.seen W.there W.held W.place watch.old watch.new }
    ensures stopped { IsErrOf result StepFault.Stopped → SawStop W.seen W.there watch.old watch.new }
{
    let aggs = kept_aggs(alloc, desc.parts())?;
    base_of(rt, alloc, flat.rows(), dicts, aggs.as_slice(), watch)
}
