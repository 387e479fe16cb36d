// The join of a cube's tables, a part of the fact rows at a time.

ghost use Rattle.std.specs.Prelude.{◌≡◌, ◌++◌, IfOk, OnOk};
ghost use Rattle.flat_join.specs.Flat.{AreTablesOf, flat_of};
ghost use Rattle.flat_join.specs.Joins.{fact_of};
ghost use Rattle.flat_join.specs.Prepared.{flat_rows_of};

use crate::flat::{add_joined_rows, flat_columns};
use crate::snaps::snaps_of;
use cube_desc::CubeDesc;
use cube_val::{Row, TableSet, WideCol};
use lookup_snap::LookupSnap;
use plain_answer::FlatRows;
use range_list::Range;
use std::alloc::{AllocError, Global};
use std::marker::Model;

/// The tables of a cube and a range, ready to be joined: there is a snapshot of each lookup. Contracts see it as the cube, the tables and
/// the range.
#[derive(Drop)]
pub struct PreparedJoin<'a> {
    desc: &'a CubeDesc,
    tables: &'a TableSet,
    range: &'a Range,
    columns: Vec<WideCol>,
    snaps: Vec<LookupSnap>,
}

impl<'a> Model for PreparedJoin<'a> {
    ghost use Rattle.flat_join.specs.Prepared.{IsPrepared, Joining};

    ghost Value = { Joining };

    ghost view = { λ j. record { cube = j.desc.now.cube; tables = j.tables.now; range = j.range.now } };

    ghost invariant = { λ j. IsPrepared (record { cube = j.desc.now.cube; tables = j.tables.now; range = j.range.now }) j.columns.items j.snaps.items };
}

impl<'a> PreparedJoin<'a> {
    /// Makes the snapshots of the lookups. No fact row is read.
    pub fn new(
        alloc: Global,
        desc: &'a CubeDesc,
        tables: &'a TableSet,
        range: &'a Range,
    ) -> Result<PreparedJoin<'a>, AllocError>
        requires { AreTablesOf desc.now.cube tables.now }
        ensures { IfOk result (λ join. join ≡ record { cube = desc.now.cube; tables = tables.now; range = range.now }) }
    {
        let parts = desc.parts();
        let columns = flat_columns(alloc, parts)?;
        let snaps = snaps_of(alloc, parts, parts.plan.joins.as_slice(), tables)?;
        Ok(PreparedJoin {
            desc,
            tables,
            range,
            columns,
            snaps,
        })
    }

    /// The rows of the fact table, in file order.
    pub fn facts(&self) -> &'a [Row]
        ensures { result.now ≡ fact_of self.now.tables }
    {
        self.tables.table(0).rows()
    }

    /// Adds the flat rows of some fact rows. After want of memory some of them stand there.
    pub fn add_rows(
        &self,
        alloc: Global,
        facts: &[Row],
        flat: &mut FlatRows,
    ) -> Result<(), AllocError>
        ensures { OnOk result (flat.new ≡ flat.old ++ flat_rows_of self.now facts.now) }
    {
        let parts = self.desc.parts();
        add_joined_rows(
            alloc,
            &parts.plan,
            self.columns.as_slice(),
            self.snaps.as_slice(),
            self.range,
            facts,
            flat,
        )
    }
}

/// The flat rows of a cube's tables and a range: for each fact row whose partition date lies in the range, in file order, its columns of the
/// rowkey and of the measures, those of lookups taken from the rows that it matches. An inner join drops a fact row
/// without a match, a left join gives nulls for it.
pub fn join(
    alloc: Global,
    desc: &CubeDesc,
    tables: &TableSet,
    range: &Range,
) -> Result<FlatRows, AllocError>
    requires { AreTablesOf desc.now.cube tables.now }
    ensures { IfOk result (λ flat. flat ≡ flat_of desc.now.cube tables.now range.now) }
{
    let prepared = PreparedJoin::new(alloc, desc, tables, range)?;
    let mut flat = FlatRows::new(alloc);
    prepared.add_rows(alloc, prepared.facts(), &mut flat)?;
    Ok(flat)
}
