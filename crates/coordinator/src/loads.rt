// The rows of loads, as the coordinator shares them with the board.

ghost use Rattle.std.specs.Prelude.{◌≡◌, ◌==◌, ◌++◌, ◌∷◌, [], IfOk, All, find, map, option_map};
ghost use Rattle.coordinator.specs.Coordinator.{load_of};

use cube_val::Table;
use run_inputs::LoadedTable;
use std::alloc::{AllocError, Global};
use std::sync::Arc;

/// The rows of a load, with the number of its line.
#[derive(Drop)]
pub struct SharedLoad {
    pub line: u32,
    pub rows: Arc<Table>,
}

// A load, to be shared.
fn shared_load(alloc: Global, table: LoadedTable) -> Result<SharedLoad, AllocError>
    ensures { IfOk result (λ load. load_of load ≡ table) }
{
    let LoadedTable { line, rows } = table;
    let rows = Arc::new(alloc, rows)?;
    Ok(SharedLoad { line, rows })
}

/// The loads of a run, to be shared.
pub fn shared_loads(alloc: Global, tables: Vec<LoadedTable>) -> Result<Vec<SharedLoad>, AllocError>
    ensures { IfOk result (λ loads. map load_of loads.items ≡ tables.items) }
{
    let mut loads = Vec::new(alloc);
    for table in tables {
        loads.push(shared_load(alloc, table)?)?;
    }
    Ok(loads)
}

/// The load of a line.
pub fn load_at(loads: &[SharedLoad], line: u32) -> Option<&SharedLoad>
    ensures { option_map (λ load. load.now) result ≡ find (λ load. load.line == line) loads.now }
{
    loads.iter().find(|load| load.line == line)
}
