// The bodies of tasks from their bytes.

ghost use Rattle.std.specs.Prelude.{◌≡◌, IfOk, Some, None, if◌then◌else◌};
ghost use Rattle.byte_frame.specs.Outcomes.{Gives};
ghost use Rattle.byte_frame.specs.Reading.{all_of, as_at};
ghost use Rattle.step_fields.specs.Reading.{range_at, rows_at};
ghost use Rattle.step_codec.specs.Layouts.{IsLayout, row_limit};
ghost use Rattle.step_codec.specs.Seals.{seal_at};
ghost use Rattle.step_files.specs.Cubes.{layout_in};
ghost use Rattle.step_files.specs.Tasks.{base_from, base_work_at, body_at, desc_at, dict_from, dict_work_at, flat_from, flat_work_at, is_descriptor, layer_from, layer_work_at, rows_and_dicts_at, work_at};

use crate::cube::layout;
use crate::task::Task;
use byte_frame::{FieldReader, ReadError, read_list};
use cube_desc::{DescRefusal, read_desc};
use cube_val::Items;
use dim_dictionary::DictSet;
use plain_answer::FlatRows;
use range_list::Range;
use std::alloc::Global;
use step_codec::{
    LayerWork, Layout, ROW_LIMIT, SIZE_LIMIT, read_holding, read_layer, read_loaded, read_seal,
};
use step_fields::{Column, RowOf, take_range};

// The bytes of a descriptor, and what the step files of its cube are read by.
#[derive(Drop)]
struct Described {
    desc: Items<u8>,
    layout: Layout,
}

impl Described {
    // The bytes alone.
    fn into_desc(self) -> Items<u8>
        ensures { result ≡ self.desc }
    {
        self.desc
    }
}

/// What the step files of the cube that the bytes describe are read by; `Malformed` exactly where they describe none.
pub(crate) fn read_layout(alloc: Global, bytes: &[u8]) -> Result<Layout, ReadError>
    ensures desc { Gives (λ _. bytes.now) result (if is_descriptor bytes.now then Some bytes.now else None) }
    ensures layout { IfOk result (λ l. l ≡ layout_in bytes.now) }
    ensures holds { IfOk result IsLayout }
{
    match read_desc(alloc, bytes) {
        Ok(desc) => match layout(alloc, &desc) {
            Ok(layout) => Ok(layout),
            Err(_) => Err(ReadError::Memory),
        },
        Err(DescRefusal::Fault(_)) => Err(ReadError::Malformed),
        Err(DescRefusal::Memory) => Err(ReadError::Memory),
    }
}

// The descriptor that the bytes are.
fn describe(alloc: Global, bytes: &[u8]) -> Result<Described, ReadError>
    ensures desc { Gives (λ d. d.desc) result (if is_descriptor bytes.now then Some bytes.now else None) }
    ensures layout { IfOk result (λ d. d.layout ≡ layout_in d.desc) }
    ensures holds { IfOk result (λ d. IsLayout d.layout) }
{
    let layout = match read_layout(alloc, bytes) {
        Ok(layout) => layout,
        Err(e) => return Err(e),
    };
    let desc = Items::from_slice(alloc, bytes)?;
    Ok(Described { desc, layout })
}

// The descriptor behind its length.
fn take_desc(alloc: Global, r: &mut FieldReader) -> Result<Described, ReadError>
    ensures desc { Gives (λ d. (d.desc, r.new)) result (desc_at r.old) }
    ensures layout { IfOk result (λ d. d.layout ≡ layout_in d.desc) }
    ensures holds { IfOk result (λ d. IsLayout d.layout) }
{
    let Some(len) = r.take_u32() else {
        return Err(ReadError::Malformed);
    };
    let Some(bytes) = r.take_bytes(len as usize) else {
        return Err(ReadError::Malformed);
    };
    describe(alloc, bytes)
}

// Flat rows of these columns.
pub(crate) fn read_flat(
    alloc: Global,
    columns: &[Column],
    r: &mut FieldReader,
) -> Result<FlatRows, ReadError>
    ensures { Gives (λ flat. (flat, r.new)) result (rows_at columns.now row_limit r.old) }
{
    match read_list(alloc, &RowOf { columns }, ROW_LIMIT, r) {
        Ok(rows) => Ok(FlatRows::of(rows)),
        Err(e) => Err(e),
    }
}

// A range.
fn read_range(r: &mut FieldReader) -> Result<Range, ReadError>
    ensures { Gives (λ range. (range, r.new)) result (range_at r.old) }
{
    match take_range(r) {
        Some(range) => Ok(range),
        None => Err(ReadError::Malformed),
    }
}

// What a flat step works on.
#[tactic(none)]
fn read_flat_task(alloc: Global, r: &mut FieldReader) -> Result<Task, ReadError>
    ensures { Gives (λ task. (task, r.new)) result (as_at flat_from flat_work_at r.old) }
{
    let cube = match take_desc(alloc, r) {
        Ok(cube) => cube,
        Err(e) => return Err(e),
    };
    let range = match read_range(r) {
        Ok(range) => range,
        Err(e) => return Err(e),
    };
    let tables = match read_loaded(alloc, &cube.layout, r) {
        Ok(tables) => tables,
        Err(e) => return Err(e),
    };
    Ok(Task::Flat {
        desc: cube.into_desc(),
        range,
        tables,
    })
}

// What a dict step works on.
#[tactic(none)]
fn read_dict_task(alloc: Global, r: &mut FieldReader) -> Result<Task, ReadError>
    ensures { Gives (λ task. (task, r.new)) result (as_at dict_from dict_work_at r.old) }
{
    let cube = match take_desc(alloc, r) {
        Ok(cube) => cube,
        Err(e) => return Err(e),
    };
    let flat = match read_flat(alloc, cube.layout.flat.as_slice(), r) {
        Ok(flat) => flat,
        Err(e) => return Err(e),
    };
    Ok(Task::Dict {
        desc: cube.into_desc(),
        flat,
    })
}

// Flat rows, and dictionaries that hold their values.
#[derive(Drop)]
struct BaseWork {
    flat: FlatRows,
    dicts: DictSet,
}

// Flat rows and dictionaries, by the layout of their cube.
#[tactic(none)]
fn read_base_work(
    alloc: Global,
    layout: &Layout,
    r: &mut FieldReader,
) -> Result<BaseWork, ReadError>
    ensures { Gives (λ w. ((w.flat, w.dicts), r.new)) result (rows_and_dicts_at layout.now r.old) }
{
    let flat = match read_flat(alloc, layout.flat.as_slice(), r) {
        Ok(flat) => flat,
        Err(e) => return Err(e),
    };
    match read_holding(alloc, layout, SIZE_LIMIT, flat.rows(), r) {
        Ok(dicts) => Ok(BaseWork { flat, dicts }),
        Err(e) => Err(e),
    }
}

// What a base step works on.
#[tactic(none)]
fn read_base_task(alloc: Global, r: &mut FieldReader) -> Result<Task, ReadError>
    ensures { Gives (λ task. (task, r.new)) result (as_at base_from base_work_at r.old) }
{
    let cube = match take_desc(alloc, r) {
        Ok(cube) => cube,
        Err(e) => return Err(e),
    };
    let work = match read_base_work(alloc, &cube.layout, r) {
        Ok(work) => work,
        Err(e) => return Err(e),
    };
    let BaseWork { flat, dicts } = work;
    Ok(Task::Base {
        desc: cube.into_desc(),
        flat,
        dicts,
    })
}

// What a layer step works on.
#[tactic(none)]
fn read_layer_task(alloc: Global, r: &mut FieldReader) -> Result<Task, ReadError>
    ensures { Gives (λ task. (task, r.new)) result (as_at layer_from layer_work_at r.old) }
{
    let cube = match take_desc(alloc, r) {
        Ok(cube) => cube,
        Err(e) => return Err(e),
    };
    let work = match read_layer(alloc, &cube.layout, r) {
        Ok(work) => work,
        Err(e) => return Err(e),
    };
    let LayerWork {
        dims,
        sizes,
        parents,
    } = work;
    Ok(Task::Layer {
        desc: cube.into_desc(),
        dims,
        sizes,
        parents,
    })
}

// What a seal step works on.
#[tactic(none)]
fn read_seal_task(alloc: Global, r: &mut FieldReader) -> Result<Task, ReadError>
    ensures { Gives (λ task. (task, r.new)) result (as_at Task.Seal seal_at r.old) }
{
    match read_seal(alloc, r) {
        Ok(seal) => Ok(Task::Seal(seal)),
        Err(e) => Err(e),
    }
}

// What stands behind the number of the kind.
fn read_work(alloc: Global, kind: u8, r: &mut FieldReader) -> Result<Task, ReadError>
    ensures { Gives (λ task. (task, r.new)) result (work_at kind r.old) }
{
    if kind == 1 {
        return read_flat_task(alloc, r);
    }
    if kind == 2 {
        return read_dict_task(alloc, r);
    }
    if kind == 3 {
        return read_base_task(alloc, r);
    }
    if kind == 4 {
        return read_layer_task(alloc, r);
    }
    if kind == 5 {
        return read_seal_task(alloc, r);
    }
    Err(ReadError::Malformed)
}

// The body in front of the bytes.
#[tactic(auto, unfolding(crate::specs::Tasks::body_at))]
fn read_front(alloc: Global, r: &mut FieldReader) -> Result<Task, ReadError>
    ensures { Gives (λ task. (task, r.new)) result (body_at r.old) }
{
    let Some(kind) = r.take_u8() else {
        return Err(ReadError::Malformed);
    };
    read_work(alloc, kind, r)
}

/// The body of a task that all of the bytes are.
pub(crate) fn read_body(alloc: Global, bytes: &[u8]) -> Result<Task, ReadError>
    ensures { Gives (λ task. task) result (all_of body_at bytes.now) }
{
    let mut reader = FieldReader::new(bytes);
    let task = match read_front(alloc, &mut reader) {
        Ok(task) => task,
        Err(e) => return Err(e),
    };
    if reader.left() != 0 {
        return Err(ReadError::Malformed);
    }
    Ok(task)
}
