// The cell tables of a layer.

ghost use Rattle.std.specs.Prelude.{◌≡◌, ◌<◌, ◌&&◌, IfOk, length, map, slice_index_or};
ghost use Rattle.byte_frame.specs.Outcomes.{Gives};
ghost use Rattle.cuboid_tree.specs.Tree.{SpansTree, is_child, is_of_layer};
ghost use Rattle.cube_fields.specs.Reading.{tables_at};
ghost use Rattle.step_codec.specs.Layouts.{field_of, fields_of, is_above_layer, is_in_layer, layer_masks, parent_masks, sizes_after, table_form};
ghost use Rattle.step_codec.specs.Reading.{layer_at, size_at};

use crate::layout::{DictColumn, Layout};
use agg_group::Mask;
use byte_frame::{FieldReader, ReadError, Reads, read_counted};
use cell_store::CellTable;
use cube_fields::{CellField, CellTableForm, read_tables};
use cube_val::{Items, ROW_LIMIT};
use cuboid_tree::SpanTree;
use measure_laws::{ItemKind, MeasureForm};
use std::alloc::{AllocError, Global};

/// The most values of a dictionary of several snapshots together.
pub const SIZE_LIMIT: u32 = 200_000_000;

// The size of a dictionary of several snapshots.
fn take_size(r: &mut FieldReader) -> Result<u32, ReadError>
    ensures { Gives (λ size. (size, r.new)) result (size_at r.old) }
{
    let Some(size) = r.take_u32() else {
        return Err(ReadError::Malformed);
    };
    if size > SIZE_LIMIT {
        return Err(ReadError::Malformed);
    }
    Ok(size)
}

impl Reads<u32> for DictColumn {
    ghost use Rattle.step_codec.specs.Reading.{size_at};

    ghost at = { λ _. size_at };

    fn read(&self, _alloc: Global, r: &mut FieldReader) -> Result<u32, ReadError> {
        take_size(r)
    }
}

// The size at a place, or 0 where there is none.
fn size_of(sizes: &[u32], place: usize) -> u32
    ensures { result ≡ slice_index_or sizes.now place 0 }
{
    match sizes.get(place) {
        Some(size) => *size,
        None => 0,
    }
}

// The cell of a measure, where the dictionaries that come next have these sizes.
fn field_of(sizes: &[u32], form: MeasureForm) -> CellField
    ensures { result ≡ field_of sizes.now form }
{
    let size = match form.item_kind() {
        ItemKind::Rows | ItemKind::Values | ItemKind::Numbers => 0,
        ItemKind::Ids => size_of(sizes, 0),
    };
    CellField { form, size }
}

// The sizes of the dictionaries behind that of a measure.
fn sizes_after(sizes: &[u32], kind: ItemKind) -> &[u32]
    ensures { result.now ≡ sizes_after kind sizes.now }
{
    match kind {
        ItemKind::Rows | ItemKind::Values | ItemKind::Numbers => sizes,
        ItemKind::Ids => match sizes {
            [] => sizes,
            [_, rest @ ..] => rest,
        },
    }
}

// The cells of measures, where the dictionaries of those that have one have these sizes.
fn fields_of(
    alloc: Global,
    measures: &[MeasureForm],
    sizes: &[u32],
) -> Result<Vec<CellField>, AllocError>
    ensures { IfOk result (λ fields. fields.items ≡ fields_of sizes.now measures.now) }
{
    let mut fields = Vec::new(alloc);
    let mut left = sizes;
    for form in measures {
        fields.push(field_of(left, *form))?;
        left = sizes_after(left, form.item_kind());
    }
    Ok(fields)
}

/// The form of the cell tables of one snapshot, whose dictionaries have these sizes.
pub fn table_form(
    alloc: Global,
    layout: &Layout,
    sizes: &[u32],
) -> Result<CellTableForm, AllocError>
    ensures { IfOk result (λ form. form ≡ table_form layout.now sizes.now 1) }
{
    let (keys, others) = sizes.split_at(layout.dims.min(sizes.len()));
    let cells = fields_of(alloc, layout.measures.as_slice(), others)?;
    Ok(CellTableForm {
        sizes: Items::from_slice(alloc, keys)?,
        cells: Items::of(cells),
        extremes: Items::from_slice(alloc, layout.extremes.as_slice())?,
        most: ROW_LIMIT,
    })
}

// Whether the cuboid at the place has so many dimensions and isn't the base.
fn is_in_layer(tree: &SpanTree, dims: u32, place: usize) -> bool
    requires { place < length tree.now }
    ensures { result ≡ is_in_layer tree.now dims place }
{
    let masks = tree.masks();
    masks[place].count() == dims && tree.parent(place).is_some()
}

// The cuboids of the tree with so many dimensions but the base, rising.
fn masks_in_layer(alloc: Global, tree: &SpanTree, dims: u32) -> Result<Vec<Mask>, AllocError>
    ensures { IfOk result (λ masks. masks.items ≡ layer_masks tree.now dims) }
{
    let masks = tree.masks();
    let mut found = Vec::new(alloc);
    for place in 0..masks.len() {
        if is_in_layer(tree, dims, place) {
            found.push(masks[place])?;
        }
    }
    Ok(found)
}

/// The cuboids with so many dimensions but the base, rising.
pub fn layer_masks(alloc: Global, layout: &Layout, dims: u32) -> Result<Vec<Mask>, AllocError>
    requires { SpansTree layout.now.masks }
    ensures { IfOk result (λ masks. masks.items ≡ layer_masks layout.now.masks dims) }
{
    let tree = SpanTree::build(alloc, layout.masks.as_slice())?;
    masks_in_layer(alloc, &tree, dims)
}

// Whether the cuboid at the place has so many dimensions and the parent.
fn is_below(tree: &SpanTree, dims: u32, parent: usize, place: usize) -> bool
    requires { place < length tree.now }
    ensures { result ≡ (is_of_layer tree.now dims place && is_child tree.now parent place) }
{
    let masks = tree.masks();
    masks[place].count() == dims && tree.parent(place) == Some(parent)
}

// Whether the cuboid at the place is the parent of one with so many dimensions.
fn is_above_layer(tree: &SpanTree, dims: u32, parent: usize) -> bool
    ensures { result ≡ is_above_layer tree.now dims parent }
{
    for place in 0..tree.masks().len() {
        if is_below(tree, dims, parent, place) {
            return true;
        }
    }
    false
}

// The cuboids of the tree that are parents of those with so many dimensions, rising.
fn masks_above_layer(alloc: Global, tree: &SpanTree, dims: u32) -> Result<Vec<Mask>, AllocError>
    ensures { IfOk result (λ masks. masks.items ≡ parent_masks tree.now dims) }
{
    let masks = tree.masks();
    let mut found = Vec::new(alloc);
    for place in 0..masks.len() {
        if is_above_layer(tree, dims, place) {
            found.push(masks[place])?;
        }
    }
    Ok(found)
}

/// The parents of the cuboids with so many dimensions, rising.
pub fn parent_masks(alloc: Global, layout: &Layout, dims: u32) -> Result<Vec<Mask>, AllocError>
    requires { SpansTree layout.now.masks }
    ensures { IfOk result (λ masks. masks.items ≡ parent_masks layout.now.masks dims) }
{
    let tree = SpanTree::build(alloc, layout.masks.as_slice())?;
    masks_above_layer(alloc, &tree, dims)
}

/// What a layer step works on.
#[derive(Drop)]
pub struct LayerWork {
    /// How many dimensions the cuboids have.
    pub dims: u32,
    /// The sizes of the dictionaries.
    pub sizes: Items<u32>,
    /// The tables of the cuboids' parents, rising by mask.
    pub parents: Items<CellTable>,
}

// The tables of the parents.
fn read_parents(
    alloc: Global,
    layout: &Layout,
    dims: u32,
    sizes: &[u32],
    r: &mut FieldReader,
) -> Result<Vec<CellTable>, ReadError>
    requires { SpansTree layout.now.masks }
    ensures { Gives (λ v. (v.items, r.new)) result (tables_at (table_form layout.now sizes.now 1) (parent_masks layout.now.masks dims) r.old) }
{
    let form = table_form(alloc, layout, sizes)?;
    let masks = parent_masks(alloc, layout, dims)?;
    read_tables(alloc, &form, masks.as_slice(), r)
}

/// What a layer step works on.
#[tactic(auto, unfolding(crate::specs::Reading::layer_at))]
pub fn read_layer(
    alloc: Global,
    layout: &Layout,
    r: &mut FieldReader,
) -> Result<LayerWork, ReadError>
    requires { SpansTree layout.now.masks }
    ensures { Gives (λ w. ((w.dims, (w.sizes, w.parents)), r.new)) result (layer_at layout.now r.old) }
{
    let Some(dims) = r.take_u32() else {
        return Err(ReadError::Malformed);
    };
    let sizes: Vec<u32> = match read_counted(alloc, layout.dicts.as_slice(), r) {
        Ok(sizes) => sizes,
        Err(e) => return Err(e),
    };
    let parents = match read_parents(alloc, layout, dims, sizes.as_slice(), r) {
        Ok(parents) => parents,
        Err(e) => return Err(e),
    };
    Ok(LayerWork {
        dims,
        sizes: Items::of(sizes),
        parents: Items::of(parents),
    })
}
