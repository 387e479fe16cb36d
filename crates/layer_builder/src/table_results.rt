// Tables from their results.

ghost use Rattle.std.specs.Prelude.{◌≡◌, IfOk, Ok, map};

use cell_store::CellTable;
use std::alloc::{AllocError, Global};

/// The tables, where each was made; else want of memory.
pub(crate) fn all_made(
    alloc: Global,
    made: Vec<Result<CellTable, AllocError>>,
) -> Result<Vec<CellTable>, AllocError>
    ensures { IfOk result (λ tables. map Ok tables.items ≡ made.items) }
{
    let mut tables = Vec::with_capacity(alloc, made.len())?;
    for table in made {
        tables.push(table?)?;
    }
    Ok(tables)
}
