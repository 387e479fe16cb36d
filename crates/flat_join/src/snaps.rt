// A snapshot of each lookup.

ghost use Rattle.std.specs.Prelude.{◌≡◌, ◌<◌, List, All, IfOk, find, length};
ghost use Rattle.std.specs.List.{range_with_len};
ghost use Rattle.cube_val.specs.declared.val.Val.{Val};
ghost use Rattle.cube_desc.specs.Sound.{IsSound};
ghost use Rattle.flat_join.specs.Joins.{is_match, lookups_of};
ghost use Rattle.lookup_snap.specs.Snaps.{value_in};
ghost use Rattle.flat_join.specs.Flat.{AreTablesOf};
ghost use Rattle.flat_join.specs.Partners.{AreServed};
ghost use Rattle.table_reader.specs.Keys.{AreWithin, HasDistinctKeys, key_of};

use cube_desc::CubeParts;
use cube_val::{JoinStep, Table, TableSet};
use lookup_snap::LookupSnap;
use std::alloc::{AllocError, Global};

fn all_places(alloc: Global, width: usize) -> Result<Vec<usize>, AllocError>
    ensures { IfOk result (λ places. places.items ≡ range_with_len 0 width) }
{
    let mut places = Vec::with_capacity(alloc, width)?;
    for place in 0..width {
        places.push(place)?;
    }
    Ok(places)
}

// The whole rows of a lookup by their primary keys.
fn snap_of(
    alloc: Global,
    lookup: &Table,
    primary: &[usize],
    width: usize,
) -> Result<LookupSnap, AllocError>
    requires key { 0 < length primary.now }
    requires within { All (λ place. place < width) primary.now }
    requires rows { All (λ (row : List Val). length row ≡ width) lookup.now }
    requires distinct { HasDistinctKeys primary.now lookup.now }
    ensures { IfOk result (λ snap. (key : List Val) → value_in snap key ≡ find (λ row. is_match (key_of primary.now row) key) lookup.now) }
{
    let places = all_places(alloc, width)?;
    let snap = LookupSnap::make(alloc, lookup, primary, places.as_slice())?;
    Ok(snap)
}

/// The snapshot of each lookup, in the order of the joins.
pub(crate) fn snaps_of(
    alloc: Global,
    parts: &CubeParts,
    joins: &[JoinStep],
    tables: &TableSet,
) -> Result<Vec<LookupSnap>, AllocError>
    requires joins { joins.now ≡ parts.now.plan.joins }
    requires sound { IsSound parts.now }
    requires tables { AreTablesOf parts.now tables.now }
    ensures { IfOk result (λ snaps. AreServed joins.now (lookups_of tables.now) snaps.items) }
{
    let mut snaps = Vec::new(alloc);
    for i in 0..joins.len() {
        let lookup = parts.tables.get(i + 1);
        let primary = joins[i].primary.as_slice();
        let snap = snap_of(alloc, tables.table(i + 1), primary, lookup.cols.len())?;
        snaps.push(snap)?;
    }
    Ok(snaps)
}
