// The rows of a lookup by their keys.

ghost use Rattle.std.specs.Prelude.{◌≡◌, ◌<◌, ◌↔◌, ◌&&◌, not, List, [], All, IfOk, IsTrue, OnOk, Some, if◌then◌else◌, length, option_copied, slice_get};
ghost use Rattle.std.specs.BTreeMap.{IsOrdered, get};
ghost use Rattle.std.specs.Ordering.{is_eq};
ghost use Rattle.cube_val.specs.Order.{row_cmp};
ghost use Rattle.cube_val.specs.declared.val.Val.{Val};
ghost use Rattle.lookup_snap.specs.Snaps.{IsRising, has_key, value_in, values_for};
ghost use Rattle.table_reader.specs.Keys.{AreWithin, key_of};

use crate::part::{has_null, part_of};
use cube_val::{Row, Table};
use std::alloc::{AllocError, Global};
use std::collections::BTreeMap;
use std::marker::Model;

/// The rows of a lookup by their keys. Contracts see it as the list of its entries, a key with its values each.
#[derive(Drop)]
pub struct LookupSnap {
    entries: Vec<(Row, Row)>,
}

impl Model for LookupSnap {
    ghost use Rattle.std.specs.Prelude.{List};
    ghost use Rattle.cube_val.specs.declared.val.Val.{Val};
    ghost use Rattle.lookup_snap.specs.Snaps.{IsRising};

    ghost Value = { List (List Val × List Val) };

    ghost view = { λ snap. snap.entries.items };

    ghost invariant = { λ snap. IsRising snap.entries.items };
}

// Adds the row's values at its key, in place of those that stood there. A row with a null in its key adds nothing.
fn add_row(
    alloc: Global,
    rows: &mut BTreeMap<Row, Row>,
    key: &[usize],
    cols: &[usize],
    row: &Row,
) -> Result<(), AllocError>
    requires key { AreWithin key.now row.now }
    requires cols { AreWithin cols.now row.now }
    requires ordered { IsOrdered row_cmp rows.old }
    ensures adds { OnOk result ((q : List Val) → get row_cmp rows.new q
        ≡ (if has_key key.now row.now q then Some (key_of cols.now row.now) else get row_cmp rows.old q)) }
    ensures ordered { OnOk result (IsOrdered row_cmp rows.new) }
{
    let own = part_of(alloc, key, row)?;
    if has_null(&own) {
        return Ok(());
    }
    let values = part_of(alloc, cols, row)?;
    let _earlier = rows.insert(own, values)?;
    Ok(())
}

impl LookupSnap {
    /// The rows of the table by their values at `key`, each with its values at `cols`. Rows whose key has a null are left out. Of
    /// rows with one key, which a table that keeps its primary key doesn't have, the last counts.
    pub fn make(
        alloc: Global,
        table: &Table,
        key: &[usize],
        cols: &[usize],
    ) -> Result<LookupSnap, AllocError>
        requires key { All (AreWithin key.now) table.now }
        requires cols { All (AreWithin cols.now) table.now }
        ensures rows { IfOk result (λ snap. (q : List Val) → value_in snap q ≡ values_for key.now cols.now table.now q) }
        ensures rising { IfOk result (λ snap. IsRising snap) }
    {
        let mut rows = BTreeMap::new(alloc);
        for i in 0..table.len() {
            add_row(alloc, &mut rows, key, cols, table.row(i))?;
        }
        let entries = rows.into_iter().collect(alloc)?;
        Ok(LookupSnap { entries })
    }

    /// How many keys there are.
    pub fn len(&self) -> usize
        ensures { result ≡ length self.now }
    {
        self.entries.len()
    }

    /// Whether there is no key.
    pub fn is_empty(&self) -> bool
        ensures { IsTrue result ↔ (self.now ≡ []) }
    {
        self.entries.is_empty()
    }

    /// The entry at a place, a key and the values at it. The keys rise.
    pub fn entry(&self, i: usize) -> &(Row, Row)
        requires { i < length self.now }
        ensures at { slice_get self.now i ≡ Some result.now }
        ensures rising { IsRising self.now }
    {
        &self.entries[i]
    }

    /// The values at the key, or none where no such key is there.
    pub fn find(&self, key: &Row) -> Option<&Row>
        ensures value { option_copied result ≡ value_in self.now key.now }
        ensures rising { IsRising self.now }
    {
        match self.entries.binary_search_by(|entry| entry.0.cmp(key)) {
            Ok(place) => Some(&self.entries[place].1),
            Err(_) => None,
        }
    }

    /// Whether both have the same keys with the same values.
    pub fn same(&self, other: &LookupSnap) -> bool
        ensures { IsTrue result ↔ (self.now ≡ other.now) }
    {
        self.entries == other.entries
    }
}
