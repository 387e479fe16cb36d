// The forms of tables, the tables of a cube, and how they are joined.

ghost use Rattle.std.specs.Prelude.{◌≡◌, ◌<◌, ◌↔◌, [], IfOk, IsTrue, Some, length, map, slice_get, slice_index_or};
ghost use Rattle.std.specs.Arc.{arc_value};

use crate::items::Items;
use crate::name::NameText;
use crate::rows::Table;
use crate::val::ColType;
use std::alloc::{AllocError, Global};
use std::marker::Model;
use std::sync::Arc;

/// A column: its name and its type.
#[derive(Debug, Drop, PartialEq, Eq)]
pub struct ColDesc {
    /// The name, as it is compared and printed.
    pub name: NameText,
    /// The type of its values.
    pub ty: ColType,
}

impl ColDesc {
    /// An equal column.
    pub fn copy(&self) -> Result<ColDesc, AllocError>
        ensures { IfOk result (λ col. col ≡ self.now) }
    {
        let name = self.name.copy()?;
        Ok(ColDesc { name, ty: self.ty })
    }
}

/// What a table file has to have.
#[derive(Debug, Drop, PartialEq, Eq)]
pub struct TableForm {
    /// The columns, in the order of a row's values.
    pub cols: Items<ColDesc>,
    /// For each column, whether no null may stand in it.
    pub no_null: Items<bool>,
    /// The places of the columns of the primary key. There are none in a fact table.
    pub key: Items<usize>,
}

/// A join of the fact table with a lookup.
#[derive(Debug, Drop, PartialEq, Eq)]
pub struct JoinStep {
    /// Whether a fact row without a match is dropped. If not, it gets nulls.
    pub inner: bool,
    /// The places of the foreign key's columns in the fact table.
    pub foreign: Items<usize>,
    /// The places of the primary key's columns in the lookup, each beside its foreign one.
    pub primary: Items<usize>,
}

/// A column of the joined rows: which table has it, 0 being the fact table and 1 the first lookup, and where.
#[derive(Clone, Copy, Debug, PartialEq, Eq)]
pub struct WideCol {
    /// The number of the table.
    pub table: usize,
    /// The place of the column in a row of that table.
    pub column: usize,
}

/// How the rows of a cube are made of its tables.
#[derive(Debug, Drop, PartialEq, Eq)]
pub struct JoinPlan {
    /// The place of the partition date in the fact table.
    pub partition: usize,
    /// One join for each lookup, in the order of the lookups.
    pub joins: Items<JoinStep>,
    /// The columns of a joined row.
    pub wide: Items<WideCol>,
}

/// The tables of a cube, the fact table first and then the lookups in their order. They are shared, not copied.
#[derive(Debug, Drop)]
pub struct TableSet {
    tables: Vec<Arc<Table>>,
}

impl Model for TableSet {
    ghost use Rattle.std.specs.Prelude.{List, map};
    ghost use Rattle.std.specs.Arc.{arc_value};
    ghost use Rattle.cube_val.specs.declared.val.Val.{Val};

    ghost Value = { List (List (List Val)) };

    ghost view = { λ set. map arc_value set.tables.items };
}

impl TableSet {
    /// The set of these tables. It takes no memory.
    pub fn new(tables: Vec<Arc<Table>>) -> TableSet
        ensures { result ≡ map arc_value tables.items }
    {
        TableSet { tables }
    }

    /// How many tables there are.
    pub fn len(&self) -> usize
        ensures { result ≡ length self.now }
    {
        self.tables.len()
    }

    /// Whether there is no table.
    pub fn is_empty(&self) -> bool
        ensures { IsTrue result ↔ (self.now ≡ []) }
    {
        self.tables.is_empty()
    }

    /// The table with a number.
    pub fn table(&self, t: usize) -> &Table
        requires { t < length self.now }
        ensures at { slice_get self.now t ≡ Some result.now }
        ensures value { result.now ≡ slice_index_or self.now t result.now }
    {
        &self.tables[t]
    }

    /// A set of the same tables.
    #[tactic(auto, using(crate::proofs::Shared::shared_more))]
    pub fn copy(&self, alloc: Global) -> Result<TableSet, AllocError>
        ensures { IfOk result (λ set. set ≡ self.now) }
    {
        let mut tables = Vec::new(alloc);
        for table in &self.tables {
            tables.push(table.clone()?)?;
        }
        Ok(TableSet { tables })
    }
}
