// The source of a segment.

ghost use Rattle.std.specs.Prelude.{◌≡◌, ◌<◌, IfOk, length, slice_index_or};
ghost use Rattle.std.specs.Arc.{arc_value};
ghost use Rattle.segment_store.specs.Sources.{IsSource, rows_in};

use cube_val::{JoinPlan, Row, TableSet};
use range_list::Range;
use std::alloc::{AllocError, Global};
use std::marker::Model;
use std::sync::Arc;

/// What one BUILD or REFRESH read: the plan of joined rows, the tables, and the range of the rows. The tables are shared, not copied.
#[derive(Drop)]
pub struct Snap {
    plan: Arc<JoinPlan>,
    tables: TableSet,
    range: Range,
}

impl Model for Snap {
    ghost use Rattle.std.specs.Arc.{arc_value};
    ghost use Rattle.segment_store.specs.Sources.{IsSource, Source};

    ghost Value = { Source };

    ghost view = { λ s. record { plan = arc_value s.plan; tables = s.tables; range = s.range } };

    ghost invariant = { λ s. IsSource (record { plan = arc_value s.plan; tables = s.tables; range = s.range }) };
}

impl Snap {
    /// The source of these tables. It takes no memory.
    pub fn new(plan: Arc<JoinPlan>, tables: TableSet, range: Range) -> Snap
        requires { IsSource (record { plan = arc_value plan; tables = tables; range = range }) }
        ensures { result ≡ record { plan = arc_value plan; tables = tables; range = range } }
    {
        Snap {
            plan,
            tables,
            range,
        }
    }

    /// An equal source, of the same tables.
    pub fn copy(&self, alloc: Global) -> Result<Snap, AllocError>
        ensures { IfOk result (λ snap. snap ≡ self.now) }
    {
        let plan = self.plan.clone()?;
        let tables = self.tables.copy(alloc)?;
        Ok(Snap {
            plan,
            tables,
            range: self.range,
        })
    }

    /// The range of the rows.
    pub fn range(&self) -> Range
        ensures value { result ≡ self.now.range }
        ensures source { IsSource self.now }
    {
        self.range
    }

    /// How the rows of the tables are joined.
    pub fn plan(&self) -> &JoinPlan
        ensures { result.now ≡ self.now.plan }
    {
        &self.plan
    }

    /// How many rows the table of a number has. The fact table is 0, and the lookups follow in their order.
    pub fn rows(&self, table: usize) -> usize
        requires { table < length self.now.tables }
        ensures { result ≡ length (rows_in self.now table) }
    {
        self.tables.table(table).len()
    }

    /// A row of a table; who shows it has counted its step.
    pub(crate) fn row(&self, table: usize, i: usize) -> &Row
        requires table { table < length self.now.tables }
        requires row { i < length (rows_in self.now table) }
        ensures { result.now ≡ slice_index_or (rows_in self.now table) i result.now }
    {
        self.tables.table(table).row(i)
    }
}
