// The product of a task.

ghost use Rattle.std.specs.Prelude.{◌≡◌, ◌≤◌, ◌<◌, ◌^◌, IfOk, IsErrOf, IsTrue, length};
ghost use Rattle.cell_store.specs.Cells.{CellRows};
ghost use Rattle.cube_val.specs.declared.val.Val.{Val};
ghost use Rattle.flat_join.specs.Flat.{AreTablesOf, flat_of};
ghost use Rattle.measure_laws.specs.Measures.{most_items};
ghost use Rattle.step_files.specs.Tasks.{FitsTask, is_descriptor};
ghost use Rattle.cube_desc.specs.Kept.{dict_places};
ghost use Rattle.step_task.specs.Steps.{cube_in, step_compute};
ghost use Rattle.step_compute.specs.Values.{HasParents, base_value, dict_value, layer_value};
ghost use Rattle.step_compute.specs.Watched.{Looked, SawStop};

use cell_store::CellTable;
use cube_desc::{CubeDesc, DescRefusal, read_desc};
use cube_val::{Items, TableSet};
use dim_dictionary::DictSet;
use outside::Watch;
use plain_answer::FlatRows;
use range_list::Range;
use std::alloc::{AllocError, Global};
use std::thread::Threads;
use step_compute::{StepFault, base_value, dict_value, flat_value, layer_value, look};
use step_files::{Product, Task};

// The descriptor of a valid task.
fn descriptor(alloc: Global, bytes: &[u8]) -> Result<CubeDesc, AllocError>
    requires { IsTrue (is_descriptor bytes.now) }
    ensures { IfOk result (λ d. d.cube ≡ cube_in bytes.now) }
{
    match read_desc(alloc, bytes) {
        Ok(desc) => Ok(desc),
        Err(DescRefusal::Fault(_)) => unreachable!(),
        Err(DescRefusal::Memory) => Err(AllocError),
    }
}

// The joined rows of a range.
fn flat_rows<W: Watch>(
    alloc: Global,
    desc: &[u8],
    range: &Range,
    tables: &TableSet,
    watch: &mut W,
) -> Result<FlatRows, StepFault>
    requires desc { IsTrue (is_descriptor desc.now) }
    requires tables { AreTablesOf (cube_in desc.now) tables.now }
    ensures flat { IfOk result (λ flat. flat ≡ flat_of (cube_in desc.now) tables.now range.now) }
    ensures looked { Looked W.seen W.there W.held W.place watch.old watch.new }
    ensures stopped { IsErrOf result StepFault.Stopped → SawStop W.seen W.there watch.old watch.new }
{
    let desc = descriptor(alloc, desc)?;
    flat_value(alloc, &desc, tables, range, watch)
}

// The dictionaries of joined rows.
fn dictionaries<W: Watch>(
    alloc: Global,
    desc: &[u8],
    flat: &FlatRows,
    watch: &mut W,
) -> Result<DictSet, StepFault>
    requires desc { IsTrue (is_descriptor desc.now) }
    requires few { length flat.now < 2 ^ 32 }
    ensures dicts { IfOk result (λ dicts. dicts ≡ dict_value (cube_in desc.now) flat.now) }
    ensures looked { Looked W.seen W.there W.held W.place watch.old watch.new }
    ensures stopped { IsErrOf result StepFault.Stopped → SawStop W.seen W.there watch.old watch.new }
{
    let desc = descriptor(alloc, desc)?;
    dict_value(alloc, &desc, flat, watch)
}

// The base cuboid of joined rows.
fn base_table<R: Threads + Sync, W: Watch>(
    rt: &R,
    alloc: Global,
    desc: &[u8],
    flat: &FlatRows,
    dicts: &DictSet,
    watch: &mut W,
) -> Result<CellTable, StepFault>
    requires desc { IsTrue (is_descriptor desc.now) }
    requires dicts { length dicts.now ≡ length (dict_places (cube_in desc.now)) }
    requires few { length flat.now ≤ most_items }
    ensures base { IfOk result (λ table. table ≡ base_value (cube_in desc.now) flat.now dicts.now) }
    ensures looked { Looked W.seen W.there W.held W.place watch.old watch.new }
    ensures stopped { IsErrOf result StepFault.Stopped → SawStop W.seen W.there watch.old watch.new }
{
    let desc = descriptor(alloc, desc)?;
    base_value(rt, alloc, &desc, flat, dicts, watch)
}

// The cuboids of a layer, in one list.
fn layer_items<R: Threads + Sync, W: Watch>(
    rt: &R,
    alloc: Global,
    desc: &CubeDesc,
    dims: u32,
    parents: &[CellTable],
    watch: &mut W,
) -> Result<Items<CellTable>, StepFault>
    requires { HasParents desc.now.cube.masks dims parents.now }
    ensures cells { IfOk result (λ tables. tables ≡ layer_value desc.now.cube.masks dims parents.now) }
    ensures looked { Looked W.seen W.there W.held W.place watch.old watch.new }
    ensures stopped { IsErrOf result StepFault.Stopped → SawStop W.seen W.there watch.old watch.new }
{
    match layer_value(rt, alloc, desc, dims, parents, watch) {
        Ok(tables) => Ok(Items::of(tables)),
        Err(e) => Err(e),
    }
}

// The cuboids of a layer.
fn layer_tables<R: Threads + Sync, W: Watch>(
    rt: &R,
    alloc: Global,
    desc: &[u8],
    dims: u32,
    parents: &[CellTable],
    watch: &mut W,
) -> Result<Items<CellTable>, StepFault>
    requires desc { IsTrue (is_descriptor desc.now) }
    requires parents { HasParents (cube_in desc.now).masks dims parents.now }
    ensures cells { IfOk result (λ tables. tables ≡ layer_value (cube_in desc.now).masks dims parents.now) }
    ensures looked { Looked W.seen W.there W.held W.place watch.old watch.new }
    ensures stopped { IsErrOf result StepFault.Stopped → SawStop W.seen W.there watch.old watch.new }
{
    let desc = descriptor(alloc, desc)?;
    layer_items(rt, alloc, &desc, dims, parents, watch)
}

// The product of a flat step.
fn flat_product<W: Watch>(
    alloc: Global,
    desc: Items<u8>,
    range: Range,
    tables: TableSet,
    watch: &mut W,
) -> Result<Product, StepFault>
    requires desc { IsTrue (is_descriptor desc) }
    requires tables { AreTablesOf (cube_in desc) tables }
    ensures product { IfOk result (λ p. p ≡ Product.Flat (flat_of (cube_in desc) tables range)) }
    ensures looked { Looked W.seen W.there W.held W.place watch.old watch.new }
    ensures stopped { IsErrOf result StepFault.Stopped → SawStop W.seen W.there watch.old watch.new }
{
    match flat_rows(alloc, desc.as_slice(), &range, &tables, watch) {
        Ok(flat) => Ok(Product::Flat(flat)),
        Err(e) => Err(e),
    }
}

// The product of a dict step.
fn dict_product<W: Watch>(
    alloc: Global,
    desc: Items<u8>,
    flat: FlatRows,
    watch: &mut W,
) -> Result<Product, StepFault>
    requires desc { IsTrue (is_descriptor desc) }
    requires few { length flat < 2 ^ 32 }
    ensures product { IfOk result (λ p. p ≡ Product.Dicts (dict_value (cube_in desc) flat)) }
    ensures looked { Looked W.seen W.there W.held W.place watch.old watch.new }
    ensures stopped { IsErrOf result StepFault.Stopped → SawStop W.seen W.there watch.old watch.new }
{
    match dictionaries(alloc, desc.as_slice(), &flat, watch) {
        Ok(dicts) => Ok(Product::Dicts(dicts)),
        Err(e) => Err(e),
    }
}

// The product of a base step.
fn base_product<R: Threads + Sync, W: Watch>(
    rt: &R,
    alloc: Global,
    desc: Items<u8>,
    flat: FlatRows,
    dicts: DictSet,
    watch: &mut W,
) -> Result<Product, StepFault>
    requires desc { IsTrue (is_descriptor desc) }
    requires dicts { length dicts ≡ length (dict_places (cube_in desc)) }
    requires few { length flat ≤ most_items }
    ensures product { IfOk result (λ p. p ≡ Product.Base (base_value (cube_in desc) flat dicts)) }
    ensures looked { Looked W.seen W.there W.held W.place watch.old watch.new }
    ensures stopped { IsErrOf result StepFault.Stopped → SawStop W.seen W.there watch.old watch.new }
{
    match base_table(rt, alloc, desc.as_slice(), &flat, &dicts, watch) {
        Ok(table) => Ok(Product::Base(table)),
        Err(e) => Err(e),
    }
}

// The product of a layer step.
fn layer_product<R: Threads + Sync, W: Watch>(
    rt: &R,
    alloc: Global,
    desc: Items<u8>,
    dims: u32,
    parents: Items<CellTable>,
    watch: &mut W,
) -> Result<Product, StepFault>
    requires desc { IsTrue (is_descriptor desc) }
    requires parents { HasParents (cube_in desc).masks dims parents }
    ensures product { IfOk result (λ p. p ≡ Product.Cells (layer_value (cube_in desc).masks dims parents)) }
    ensures looked { Looked W.seen W.there W.held W.place watch.old watch.new }
    ensures stopped { IsErrOf result StepFault.Stopped → SawStop W.seen W.there watch.old watch.new }
{
    match layer_tables(rt, alloc, desc.as_slice(), dims, parents.as_slice(), watch) {
        Ok(tables) => Ok(Product::Cells(tables)),
        Err(e) => Err(e),
    }
}

// What the step of a valid task makes.
#[tactic(none)]
fn made<R: Threads + Sync, W: Watch>(
    rt: &R,
    alloc: Global,
    task: Task,
    watch: &mut W,
) -> Result<Product, StepFault>
    requires { FitsTask task }
    ensures product { IfOk result (λ p. p ≡ step_compute task) }
    ensures looked { Looked W.seen W.there W.held W.place watch.old watch.new }
    ensures stopped { IsErrOf result StepFault.Stopped → SawStop W.seen W.there watch.old watch.new }
{
    match task {
        Task::Flat {
            desc,
            range,
            tables,
        } => flat_product(alloc, desc, range, tables, watch),
        Task::Dict { desc, flat } => dict_product(alloc, desc, flat, watch),
        Task::Base { desc, flat, dicts } => base_product(rt, alloc, desc, flat, dicts, watch),
        Task::Layer {
            desc,
            dims,
            sizes: _,
            parents,
        } => layer_product(rt, alloc, desc, dims, parents, watch),
        Task::Seal(seal) => Ok(Product::Seal(seal)),
    }
}

/// What the step of a valid task makes, after a look at the watch.
pub(crate) fn product_of<R: Threads + Sync, W: Watch>(
    rt: &R,
    alloc: Global,
    task: Task,
    watch: &mut W,
) -> Result<Product, StepFault>
    requires { FitsTask task }
    ensures product { IfOk result (λ p. p ≡ step_compute task) }
    ensures looked { Looked W.seen W.there W.held W.place watch.old watch.new }
    ensures stopped { IsErrOf result StepFault.Stopped → SawStop W.seen W.there watch.old watch.new }
{
    look(watch)?;
    made(rt, alloc, task, watch)
}
