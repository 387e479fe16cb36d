// Rows of values, and tables of rows.

ghost use Rattle.std.specs.Prelude.{◌≡◌, ◌<◌, ◌++◌, ◌∷◌, ◌↔◌, [], IsTrue, OnOk, OnErr, Some, length, slice_get, slice_index_or};

use crate::val::Val;
use std::alloc::{AllocError, Global};
use std::marker::Model;

/// The most rows of a table.
pub const ROW_LIMIT: u32 = 200_000;

/// A list of values.
#[derive(Debug, Drop)]
pub struct Row {
    vals: Vec<Val>,
}

impl Model for Row {
    ghost use Rattle.std.specs.Prelude.{List};
    ghost use Rattle.cube_val.specs.declared.val.Val.{Val};

    ghost Value = { List Val };

    ghost view = { λ row. row.vals.items };
}

impl Row {
    /// A row of no value.
    pub fn new(alloc: Global) -> Row
        ensures { result ≡ [] }
    {
        Row {
            vals: Vec::new(alloc),
        }
    }

    /// The row of these values.
    pub fn of(vals: Vec<Val>) -> Row
        ensures { result ≡ vals.items }
    {
        Row { vals }
    }

    /// Adds a value at the end.
    pub fn push(&mut self, v: Val) -> Result<(), AllocError>
        ensures ok { OnOk result (self.new ≡ self.old ++ v ∷ []) }
        ensures err { OnErr result (self.new ≡ self.old) }
    {
        self.vals.push(v)?;
        Ok(())
    }

    /// How many values there are.
    pub fn len(&self) -> usize
        ensures { result ≡ length self.now }
    {
        self.vals.len()
    }

    /// Whether there is no value.
    pub fn is_empty(&self) -> bool
        ensures { IsTrue result ↔ (self.now ≡ []) }
    {
        self.vals.is_empty()
    }

    /// The value at a place.
    pub fn get(&self, i: usize) -> &Val
        requires { i < length self.now }
        ensures at { slice_get self.now i ≡ Some result.now }
        ensures value { result.now ≡ slice_index_or self.now i result.now }
    {
        &self.vals[i]
    }

    /// The values in order.
    pub fn vals(&self) -> &[Val]
        ensures { result.now ≡ self.now }
    {
        self.vals.as_slice()
    }
}

/// A list of rows.
#[derive(Debug, Drop)]
pub struct Table {
    rows: Vec<Row>,
}

impl Model for Table {
    ghost use Rattle.std.specs.Prelude.{List};
    ghost use Rattle.cube_val.specs.declared.val.Val.{Val};

    ghost Value = { List (List Val) };

    ghost view = { λ table. table.rows.items };
}

impl Table {
    /// A table of no row.
    pub fn new(alloc: Global) -> Table
        ensures { result ≡ [] }
    {
        Table {
            rows: Vec::new(alloc),
        }
    }

    /// The table of these rows.
    pub fn of(rows: Vec<Row>) -> Table
        ensures { result ≡ rows.items }
    {
        Table { rows }
    }

    /// Adds a row at the end.
    pub fn push(&mut self, r: Row) -> Result<(), AllocError>
        ensures ok { OnOk result (self.new ≡ self.old ++ r ∷ []) }
        ensures err { OnErr result (self.new ≡ self.old) }
    {
        self.rows.push(r)?;
        Ok(())
    }

    /// How many rows there are.
    pub fn len(&self) -> usize
        ensures { result ≡ length self.now }
    {
        self.rows.len()
    }

    /// Whether there is no row.
    pub fn is_empty(&self) -> bool
        ensures { IsTrue result ↔ (self.now ≡ []) }
    {
        self.rows.is_empty()
    }

    /// The row at a place.
    pub fn row(&self, i: usize) -> &Row
        requires { i < length self.now }
        ensures at { slice_get self.now i ≡ Some result.now }
        ensures value { result.now ≡ slice_index_or self.now i result.now }
    {
        &self.rows[i]
    }

    /// The rows in order.
    pub fn rows(&self) -> &[Row]
        ensures { result.now ≡ self.now }
    {
        self.rows.as_slice()
    }
}
