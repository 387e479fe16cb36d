// Cuboids of smaller dimension sets.

ghost use Rattle.std.specs.Prelude.{◌≡◌, ◌≤◌, ◌<◌, ◌+◌, All, IfOk, OnOk, length};
ghost use Rattle.std.specs.List.{AllZip};
ghost use Rattle.agg_group.specs.Mask.{IsWithin};
ghost use Rattle.layer_builder.specs.Layers.{HasParent, IsRegrouped, IsWanted};

use crate::table_results::all_made;
use agg_group::Mask;
use cell_gather::{add_rows, gather, kept_dims};
use cell_store::{CellTable, Steps};
use rayon::prelude::*;
use std::alloc::{AllocError, Global};
use std::marker::Brand;
use std::sync::ledger::{Blank, Ledger};
use std::thread::Threads;

/// A cuboid that is wanted: its dimensions, and the place of the table that it is made from.
#[derive(Clone, Copy)]
pub struct Want {
    /// The dimensions.
    pub mask: Mask,
    /// The place of the larger table.
    pub parent: usize,
}

/// The cuboid of these dimensions, from a table that has them all. Each row of the parent is read once, which is one step.
pub fn regroup<L: Ledger>(
    alloc: Global,
    parent: &CellTable,
    mask: Mask,
    steps: &mut Steps<L>,
) -> Result<CellTable, AllocError>
    requires { IsWithin mask parent.now.mask }
    ensures table { IfOk result (IsRegrouped parent.now mask) }
    ensures steps { OnOk result (steps.new ≡ steps.old + length parent.now.rows) }
    ensures at_most { steps.new ≤ steps.old + length parent.now.rows }
{
    let keeps = kept_dims(alloc, parent.mask(), mask)?;
    let mut rows = Vec::with_capacity(alloc, parent.len())?;
    add_rows(&mut rows, alloc, parent, &keeps, steps)?;
    gather(alloc, mask, parent.forms(), rows)
}

/// A smaller cuboid, of which nobody counts the steps.
pub(crate) fn regroup_uncounted<L: Ledger>(
    alloc: Global,
    parent: &CellTable,
    mask: Mask,
    blank: Blank,
) -> Result<CellTable, AllocError>
    requires within { IsWithin mask parent.now.mask }
    requires blank { (blank.name ≡ L.name) × (blank.parts ≡ L.parts) × (0 < L.parts) }
    ensures { IfOk result (IsRegrouped parent.now mask) }
{
    let mut steps = Steps::<L>::new(blank);
    regroup(alloc, parent, mask, &mut steps)
}

// The wanted cuboid.
fn wanted(alloc: Global, parents: &[CellTable], want: Want) -> Result<CellTable, AllocError>
    requires { HasParent parents.now want }
    ensures { IfOk result (IsWanted parents.now want) }
{
    let parent = &parents[want.parent];
    regroup_uncounted::<Brand>(alloc, parent, want.mask, Blank::new(1))
}

/// The cuboids that are wanted, in order, each from its parent. They are made in at most so many pieces.
pub fn layer<R: Threads + Sync>(
    rt: &R,
    alloc: Global,
    parents: &[CellTable],
    wants: &[Want],
    pieces: u32,
) -> Result<Vec<CellTable>, AllocError>
    requires pieces { 0 < pieces }
    requires wants { All (HasParent parents.now) wants.now }
    ensures { IfOk result (λ tables. AllZip (IsWanted parents.now) wants.now tables.items) }
{
    let size = wants.len().saturating_sub(1) / pieces as usize + 1;
    let made = wants
        .par_iter()
        .with_min_len(size)
        .map(
            move |want: &Want| -> Result<CellTable, AllocError>
                requires { HasParent parents.now want.now }
                ensures { IfOk result (IsWanted parents.entry.now want.now) }
            { wanted(alloc, parents, *want) },
        )
        .collect::<Vec<_>>(rt, alloc)?;
    all_made(alloc, made)
}
