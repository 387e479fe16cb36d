// The bodies of products from their bytes.

ghost use Rattle.std.specs.Prelude.{◌≡◌, ◌≤◌, IfOk, IsTrue, length, map};
ghost use Rattle.byte_frame.specs.Outcomes.{Gives};
ghost use Rattle.byte_frame.specs.Reading.{all_of, as_at, if_at};
ghost use Rattle.step_fields.specs.Reading.{rows_at};
ghost use Rattle.cube_fields.specs.Reading.{table_at, tables_at};
ghost use Rattle.step_codec.specs.Layouts.{IsLayout, base_mask, layer_masks, row_limit, table_form};
ghost use Rattle.step_codec.specs.Reading.{holding_at};
ghost use Rattle.step_codec.specs.Seals.{FitsSeal, most_items, seal_at, seal_text};
ghost use Rattle.step_files.specs.Cubes.{layout_in};
ghost use Rattle.step_files.specs.Products.{is_seal, product_at};
ghost use Rattle.step_files.specs.Tasks.{FitsTask, is_descriptor};

use crate::product::Product;
use crate::reading::{read_flat, read_layout};
use crate::task::Task;
use agg_group::Mask;
use byte_frame::{FieldReader, ReadError};
use cell_store::CellTable;
use cube_fields::{CellTableForm, read_table, read_tables};
use cube_val::Items;
use dim_dictionary::DictSet;
use plain_answer::FlatRows;
use std::alloc::{AllocError, Global};
use step_codec::{
    Layout, ROW_LIMIT, SealBody, layer_masks, put_seal, read_holding, read_seal, table_form,
};

// What the step files of a valid task's cube are read by.
fn layout_of(alloc: Global, desc: &[u8]) -> Result<Layout, AllocError>
    requires { IsTrue (is_descriptor desc.now) }
    ensures layout { IfOk result (λ l. l ≡ layout_in desc.now) }
    ensures holds { IfOk result IsLayout }
{
    match read_layout(alloc, desc) {
        Ok(layout) => Ok(layout),
        Err(ReadError::Malformed) => unreachable!(),
        Err(ReadError::Memory) => Err(AllocError),
    }
}

// The sizes of the dictionaries.
fn sizes_of(alloc: Global, dicts: &DictSet) -> Result<Vec<u32>, AllocError>
    ensures { IfOk result (λ v. v.items ≡ map length dicts.now) }
{
    let mut sizes = Vec::new(alloc);
    for i in 0..dicts.len() {
        let dict = dicts.get(i);
        sizes.push(dict.len())?;
    }
    Ok(sizes)
}

// The mask of the base.
fn base_mask(layout: &Layout) -> Mask
    requires { IsLayout layout.now }
    ensures { result ≡ base_mask layout.now }
{
    let masks = layout.masks.as_slice();
    masks[masks.len() - 1]
}

// Flat rows of the cube.
fn read_flat_product(alloc: Global, desc: &[u8], r: &mut FieldReader) -> Result<Product, ReadError>
    requires { IsTrue (is_descriptor desc.now) }
    ensures { Gives (λ p. (p, r.new)) result (as_at Product.Flat (rows_at (layout_in desc.now).flat row_limit) r.old) }
{
    let layout = layout_of(alloc, desc)?;
    match read_flat(alloc, layout.flat.as_slice(), r) {
        Ok(flat) => Ok(Product::Flat(flat)),
        Err(e) => Err(e),
    }
}

// Dictionaries that hold the values of the rows.
fn read_dicts_product(
    alloc: Global,
    desc: &[u8],
    flat: &FlatRows,
    r: &mut FieldReader,
) -> Result<Product, ReadError>
    requires { IsTrue (is_descriptor desc.now) }
    ensures { Gives (λ p. (p, r.new)) result (as_at Product.Dicts (holding_at (layout_in desc.now) row_limit flat.now) r.old) }
{
    let layout = layout_of(alloc, desc)?;
    match read_holding(alloc, &layout, ROW_LIMIT, flat.rows(), r) {
        Ok(dicts) => Ok(Product::Dicts(dicts)),
        Err(e) => Err(e),
    }
}

// The form of the base cuboid, whose dictionaries are these.
fn base_form(alloc: Global, layout: &Layout, dicts: &DictSet) -> Result<CellTableForm, AllocError>
    ensures { IfOk result (λ form. form ≡ table_form layout.now (map length dicts.now) 1) }
{
    let sizes = sizes_of(alloc, dicts)?;
    table_form(alloc, layout, sizes.as_slice())
}

// The table of the base cuboid.
fn read_base_table(
    alloc: Global,
    layout: &Layout,
    dicts: &DictSet,
    r: &mut FieldReader,
) -> Result<CellTable, ReadError>
    requires { IsLayout layout.now }
    ensures { Gives (λ table. (table, r.new)) result (table_at (table_form layout.now (map length dicts.now) 1) (base_mask layout.now) r.old) }
{
    let form = base_form(alloc, layout, dicts)?;
    read_table(alloc, &form, base_mask(layout), r)
}

// The base cuboid.
fn read_base_product(
    alloc: Global,
    desc: &[u8],
    dicts: &DictSet,
    r: &mut FieldReader,
) -> Result<Product, ReadError>
    requires { IsTrue (is_descriptor desc.now) }
    ensures { Gives (λ p. (p, r.new)) result (as_at Product.Base (table_at (table_form (layout_in desc.now) (map length dicts.now) 1) (base_mask (layout_in desc.now))) r.old) }
{
    let layout = layout_of(alloc, desc)?;
    match read_base_table(alloc, &layout, dicts, r) {
        Ok(table) => Ok(Product::Base(table)),
        Err(e) => Err(e),
    }
}

// The tables of the cuboids of a layer.
fn read_layer_tables(
    alloc: Global,
    layout: &Layout,
    dims: u32,
    sizes: &[u32],
    r: &mut FieldReader,
) -> Result<Vec<CellTable>, ReadError>
    requires { IsLayout layout.now }
    ensures { Gives (λ v. (v.items, r.new)) result (tables_at (table_form layout.now sizes.now 1) (layer_masks layout.now.masks dims) r.old) }
{
    let form = table_form(alloc, layout, sizes)?;
    let masks = layer_masks(alloc, layout, dims)?;
    read_tables(alloc, &form, masks.as_slice(), r)
}

// The cuboids of a layer.
fn read_cells_product(
    alloc: Global,
    desc: &[u8],
    dims: u32,
    sizes: &[u32],
    r: &mut FieldReader,
) -> Result<Product, ReadError>
    requires { IsTrue (is_descriptor desc.now) }
    ensures { Gives (λ p. (p, r.new)) result (as_at Product.Cells (tables_at (table_form (layout_in desc.now) sizes.now 1) (layer_masks (layout_in desc.now).masks dims)) r.old) }
{
    let layout = layout_of(alloc, desc)?;
    match read_layer_tables(alloc, &layout, dims, sizes, r) {
        Ok(tables) => Ok(Product::Cells(Items::of(tables))),
        Err(e) => Err(e),
    }
}

// The bytes of a seal.
fn seal_bytes(alloc: Global, seal: &SealBody) -> Result<Vec<u8>, AllocError>
    requires { FitsSeal seal.now }
    ensures { IfOk result (λ v. v.items ≡ seal_text seal.now) }
{
    let mut bytes = Vec::new(alloc);
    put_seal(&mut bytes, seal)?;
    Ok(bytes)
}

// Whether two seals are written as the same bytes.
fn is_seal(alloc: Global, own: &SealBody, seal: &SealBody) -> Result<bool, AllocError>
    requires own { FitsSeal own.now }
    requires short { (length seal.now.done ≤ most_items) × (length seal.now.cuboids ≤ most_items) }
    ensures { IfOk result (λ same. same ≡ is_seal own.now seal.now) }
{
    let wanted = seal_bytes(alloc, own)?;
    let mut bytes = Vec::new(alloc);
    put_seal(&mut bytes, seal)?;
    Ok(bytes.as_slice() == wanted.as_slice())
}

// The task's own seal.
fn read_seal_product(
    alloc: Global,
    own: &SealBody,
    r: &mut FieldReader,
) -> Result<Product, ReadError>
    requires { FitsSeal own.now }
    ensures { Gives (λ p. (p, r.new)) result (as_at Product.Seal (if_at (is_seal own.now) seal_at) r.old) }
{
    let seal = match read_seal(alloc, r) {
        Ok(seal) => seal,
        Err(e) => return Err(e),
    };
    let same = is_seal(alloc, own, &seal)?;
    if !same {
        return Err(ReadError::Malformed);
    }
    Ok(Product::Seal(seal))
}

// A product of the task, in front of the bytes.
#[tactic(auto, unfolding(crate::specs::Products::product_at))]
fn read_front(alloc: Global, task: &Task, r: &mut FieldReader) -> Result<Product, ReadError>
    requires { FitsTask task.now }
    ensures { Gives (λ p. (p, r.new)) result (product_at task.now r.old) }
{
    match task {
        Task::Flat { desc, .. } => read_flat_product(alloc, desc.as_slice(), r),
        Task::Dict { desc, flat } => read_dicts_product(alloc, desc.as_slice(), flat, r),
        Task::Base { desc, dicts, .. } => read_base_product(alloc, desc.as_slice(), dicts, r),
        Task::Layer {
            desc,
            dims,
            sizes,
            ..
        } => read_cells_product(alloc, desc.as_slice(), *dims, sizes.as_slice(), r),
        Task::Seal(own) => read_seal_product(alloc, own, r),
    }
}

/// The body of a product of the task that all of the bytes are.
pub(crate) fn read_product_body(
    alloc: Global,
    task: &Task,
    bytes: &[u8],
) -> Result<Product, ReadError>
    requires { FitsTask task.now }
    ensures { Gives (λ p. p) result (all_of (product_at task.now) bytes.now) }
{
    let mut reader = FieldReader::new(bytes);
    let product = match read_front(alloc, task, &mut reader) {
        Ok(product) => product,
        Err(e) => return Err(e),
    };
    if reader.left() != 0 {
        return Err(ReadError::Malformed);
    }
    Ok(product)
}
