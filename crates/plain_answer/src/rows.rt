// Joined rows, in order.

ghost use Rattle.std.specs.Prelude.{◌≡◌, ◌<◌, ◌++◌, ◌∷◌, ◌↔◌, [], IsTrue, OnOk, OnErr, Some, length, slice_get};

use cube_val::Row;
use std::alloc::{AllocError, Global};
use std::marker::Model;

/// A list of rows of rowkey and measure columns.
#[derive(Debug, Drop)]
pub struct FlatRows {
    rows: Vec<Row>,
}

impl Model for FlatRows {
    ghost use Rattle.std.specs.Prelude.{List};
    ghost use Rattle.cube_val.specs.declared.val.Val.{Val};

    ghost Value = { List (List Val) };

    ghost view = { λ flat. flat.rows.items };
}

impl FlatRows {
    /// No row.
    pub fn new(alloc: Global) -> FlatRows
        ensures { result ≡ [] }
    {
        FlatRows {
            rows: Vec::new(alloc),
        }
    }

    /// The list of these rows. It takes no memory.
    pub fn of(rows: Vec<Row>) -> FlatRows
        ensures { result ≡ rows.items }
    {
        FlatRows { rows }
    }

    /// The rows, given back. It takes no memory.
    pub fn into_rows(self) -> Vec<Row>
        ensures { result.items ≡ self }
    {
        let FlatRows { rows } = self;
        rows
    }

    /// Adds a row at the end.
    pub fn push(&mut self, r: Row) -> Result<(), AllocError>
        ensures ok { OnOk result (self.new ≡ self.old ++ r ∷ []) }
        ensures err { OnErr result (self.new ≡ self.old) }
    {
        self.rows.push(r)?;
        Ok(())
    }

    /// How many rows there are.
    pub fn len(&self) -> usize
        ensures { result ≡ length self.now }
    {
        self.rows.len()
    }

    /// Whether there is no row.
    pub fn is_empty(&self) -> bool
        ensures { IsTrue result ↔ (self.now ≡ []) }
    {
        self.rows.is_empty()
    }

    /// The row at a place.
    pub fn row(&self, i: usize) -> &Row
        requires { i < length self.now }
        ensures { slice_get self.now i ≡ Some result.now }
    {
        &self.rows[i]
    }

    /// The rows in order.
    pub fn rows(&self) -> &[Row]
        ensures { result.now ≡ self.now }
    {
        self.rows.as_slice()
    }
}
