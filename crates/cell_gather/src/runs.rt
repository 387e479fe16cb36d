// Rows of one key at the front of rows.

ghost use Rattle.std.specs.Prelude.{◌≡◌};
ghost use Rattle.std.specs.List.{prefix_len};
ghost use Rattle.cell_gather.specs.Runs.{has_key};

use crate::rows::KeyedCells;

/// How many rows at the front have the key.
pub(crate) fn run_len(rows: &[KeyedCells], key: &[u32]) -> usize
    ensures { result ≡ prefix_len (has_key key.now) rows.now }
{
    let mut n = 0;
    for row in rows {
        if row.key.as_slice() != key {
            return n;
        }
        n += 1;
    }
    n
}
