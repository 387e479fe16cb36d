// The layer step.

ghost use Rattle.std.specs.Prelude.{◌≡◌, ◌≤◌, ◌<◌, ◌+◌, ◌++◌, All, Any, IfOk, IsErrOf, IsSome, IsTrue, OnOk, length, map};
ghost use Rattle.std.specs.List.{position_or_len};
ghost use Rattle.cuboid_tree.specs.Tree.{SpansTree, parent_of};
ghost use Rattle.layer_builder.specs.Layers.{HasParent};
ghost use Rattle.step_compute.specs.Values.{HasParents, has_mask, is_in_layer, layer_places, layer_value, parent_mask};
ghost use Rattle.step_compute.specs.Wants.{made_of, want_of};
ghost use Rattle.step_compute.specs.Watched.{Looked, SawStop};

use crate::fault::StepFault;
use crate::watching::look;
use agg_group::Mask;
use cell_store::CellTable;
use cube_desc::CubeDesc;
use cuboid_tree::SpanTree;
use layer_builder::{Want, layer};
use outside::Watch;
use std::alloc::{AllocError, Global};
use std::thread::Threads;

// How many cuboids are made after a look.
const CUBOIDS_PER_LOOK: usize = 8;

// Into how many pieces the work on a batch is cut at most.
const PIECES: u32 = 8;

// Whether the cuboid at the place has so many dimensions and isn't the base.
fn is_in_layer(tree: &SpanTree, dims: u32, place: usize) -> bool
    requires { place < length tree.now }
    ensures { result ≡ is_in_layer tree.now dims place }
{
    let masks = tree.masks();
    masks[place].count() == dims && tree.parent(place).is_some()
}

// The place among tables of the one with the mask, or how many they are.
fn place_with(tables: &[CellTable], mask: Mask) -> usize
    ensures { result ≡ position_or_len (has_mask mask) tables.now }
{
    let place = tables.iter().position(|t| t.mask().0 == mask.0);
    place.unwrap_or(tables.len())
}

// The cuboid at a place, from its parent's table.
fn want_of(tree: &SpanTree, place: usize, parents: &[CellTable]) -> Want
    requires place { place < length tree.now }
    ensures { result ≡ want_of tree.now parents.now place }
{
    let masks = tree.masks();
    let parent = tree.parent(place).unwrap_or(0);
    Want {
        mask: masks[place],
        parent: place_with(parents, masks[parent]),
    }
}

// The cuboids with so many dimensions but the base, rising.
fn wants(
    alloc: Global,
    tree: &SpanTree,
    dims: u32,
    parents: &[CellTable],
) -> Result<Vec<Want>, AllocError>
    ensures { IfOk result (λ wants. wants.items ≡ map (want_of tree.now parents.now) (layer_places tree.now dims)) }
{
    let mut wants = Vec::new(alloc);
    for place in 0..tree.masks().len() {
        if is_in_layer(tree, dims, place) {
            wants.push(want_of(tree, place, parents))?;
        }
    }
    Ok(wants)
}

// Makes the tables of a batch, and adds them.
fn add_batch<R: Threads + Sync>(
    rt: &R,
    alloc: Global,
    parents: &[CellTable],
    batch: &[Want],
    tables: &mut Vec<CellTable>,
) -> Result<(), AllocError>
    requires { All (HasParent parents.now) batch.now }
    ensures { OnOk result (tables.new.items ≡ tables.old.items ++ map (made_of parents.now) batch.now) }
{
    let mut made = layer(rt, alloc, parents, batch, PIECES)?;
    tables.append(&mut made)
}

// Makes the tables batch by batch.
fn in_batches<R: Threads + Sync, W: Watch>(
    rt: &R,
    alloc: Global,
    parents: &[CellTable],
    wants: &[Want],
    watch: &mut W,
) -> Result<Vec<CellTable>, StepFault>
    requires { All (HasParent parents.now) wants.now }
    ensures tables { IfOk result (λ tables. tables.items ≡ map (made_of parents.now) wants.now) }
    ensures looked { Looked W.seen W.there W.held W.place watch.old watch.new }
    ensures stopped { IsErrOf result StepFault.Stopped → SawStop W.seen W.there watch.old watch.new }
{
    let mut tables = Vec::new(alloc);
    let mut start = 0;
    while start < wants.len() {
        look(watch)?;
        let end = start + CUBOIDS_PER_LOOK.min(wants.len() - start);
        add_batch(rt, alloc, parents, &wants[start..end], &mut tables)?;
        start = end;
    }
    Ok(tables)
}

/// The cuboids with so many dimensions but the base, rising by mask, each from the table of its parent.
pub fn layer_value<R: Threads + Sync, W: Watch>(
    rt: &R,
    alloc: Global,
    desc: &CubeDesc,
    dims: u32,
    parents: &[CellTable],
    watch: &mut W,
) -> Result<Vec<CellTable>, StepFault>
    requires { HasParents desc.now.cube.masks dims parents.now }
    ensures layer { IfOk result (λ tables. tables.items ≡ layer_value desc.now.cube.masks dims parents.now) }
    ensures looked { Looked W.seen W.there W.held W.place watch.old watch.new }
    ensures stopped { IsErrOf result StepFault.Stopped → SawStop W.seen W.there watch.old watch.new }
{
    let cube = desc.parts();
    let tree = SpanTree::build(alloc, cube.masks.as_slice())?;
    let wants = wants(alloc, &tree, dims, parents)?;
    in_batches(rt, alloc, parents, wants.as_slice(), watch)
}
