// The records after the header, read one by one.

ghost use Rattle.std.specs.Prelude.{◌≡◌, ◌<◌, ◌∷◌, [], ℕ, List, All, IfOk, length};
ghost use Rattle.table_reader.specs.Bodies.{IsBodyOf};
ghost use Rattle.table_reader.specs.Digests.{digests_of};
ghost use Rattle.table_reader.specs.Reads.{HasRead};

use crate::digest::add_digest;
use crate::fault::{TableFault, TableKind, TableRefusal};
use crate::header::Column;
use crate::records::read_next;
use crate::row::read_row;
use csv::{ByteRecord, Reader};
use cube_val::{ROW_LIMIT, Row};
use std::alloc::{AllocError, Global};

/// The rows up to the end of a file, or up to the first record that has a fault by itself, and then that fault; and the digests
/// of the rows' keys, which are taken while a row has just been read.
#[derive(Drop)]
pub struct Body {
    pub rows: Vec<Row>,
    pub digests: Vec<u64>,
    pub fault: Option<TableFault>,
}

// A list of digests, with memory for those of so many rows where a key has a column.
fn digests_for(alloc: Global, key: &[usize], room: usize) -> Result<Vec<u64>, AllocError>
    ensures { IfOk result (λ digests. digests.items ≡ []) }
{
    if key.is_empty() {
        return Ok(Vec::new(alloc));
    }
    Vec::with_capacity(alloc, room)
}

/// Reads the records after the header, which has `width` fields. Memory is reserved for `room` rows at first.
pub fn read_body(
    alloc: Global,
    columns: &[Column],
    width: usize,
    key: &[usize],
    room: usize,
    reader: &mut Reader<&[u8]>,
    found: &mut ByteRecord,
) -> Result<Body, AllocError>
    requires { All (λ place. place < length columns.now) key.now }
    ensures body { IfOk result (λ body. (bytes : List ℕ) (header : List (List ℕ)) → HasRead bytes (header ∷ []) reader.old
        → IsBodyOf columns.now width bytes header body.rows.items body.fault) }
    ensures digests { IfOk result (λ body. body.digests.items ≡ digests_of key.now body.rows.items) }
{
    let mut rows = Vec::with_capacity(alloc, room)?;
    let mut digests = digests_for(alloc, key, room)?;
    for turn in 0..ROW_LIMIT {
        match read_next(reader, found) {
            Ok(true) => {}
            Ok(false) => return Ok(Body {
                rows,
                digests,
                fault: None,
            }),
            Err(e) => return Err(e),
        }
        let row = match read_row(alloc, columns, width, turn + 1, found) {
            Ok(row) => row,
            Err(TableRefusal::Fault(fault)) => {
                return Ok(Body {
                    rows,
                    digests,
                    fault: Some(fault),
                });
            }
            Err(TableRefusal::Memory) => return Err(AllocError),
        };
        add_digest(&mut digests, key, &row)?;
        rows.push(row)?;
    }
    match read_next(reader, found) {
        Ok(true) => {
            let fault = TableFault::in_row(ROW_LIMIT + 1, TableKind::TooManyRows);
            Ok(Body {
                rows,
                digests,
                fault: Some(fault),
            })
        }
        Ok(false) => Ok(Body {
            rows,
            digests,
            fault: None,
        }),
        Err(e) => Err(e),
    }
}
