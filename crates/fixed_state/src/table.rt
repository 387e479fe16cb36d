// Handles of loaded tables.

ghost use Rattle.std.specs.Prelude.{◌≡◌};
ghost use Rattle.std.specs.Arc.{arc_value};

use cube_val::Table;
use run_state::TableHandle;
use std::alloc::AllocError;
use std::marker::Model;
use std::sync::Arc;

/// A handle of a loaded table, which is shared. Contracts see the rows.
#[derive(Drop)]
pub struct SharedTable {
    table: Arc<Table>,
}

impl Model for SharedTable {
    ghost use Rattle.std.specs.Prelude.{List};
    ghost use Rattle.std.specs.Arc.{arc_value};
    ghost use Rattle.cube_val.specs.declared.val.Val.{Val};

    ghost Value = { List (List Val) };

    ghost view = { λ t. arc_value t.table };
}

impl SharedTable {
    /// A handle of this table.
    pub fn of(table: Arc<Table>) -> SharedTable
        ensures { result ≡ arc_value table }
    {
        SharedTable { table }
    }

    /// The table.
    pub fn table(&self) -> &Table
        ensures { result.now ≡ self.now }
    {
        &self.table
    }
}

impl TableHandle for SharedTable {
    ghost rows = { λ rows. rows };

    fn copy(&self) -> Result<SharedTable, AllocError> {
        let table = self.table.clone()?;
        Ok(SharedTable { table })
    }
}
