// Lists that rise strictly.

ghost use Rattle.std.specs.Prelude.{◌≡◌};
ghost use Rattle.byte_frame.specs.Spelling.{is_below, rises};
ghost use Rattle.cube_fields.specs.Orders.{before};
ghost use Rattle.cube_fields.specs.Reading.{key_before};

use cell_store::CellRow;
use std::cmp::Ordering;

// Whether x comes before the first of xs, if there is one.
fn before_first<T: Ord>(x: &T, xs: &[T]) -> bool
    ensures { result ≡ is_below (before T.cmp) x.now xs.now }
{
    match xs {
        [] => true,
        [y, ..] => match x.cmp(y) {
            Ordering::Less => true,
            Ordering::Equal => false,
            Ordering::Greater => false,
        },
    }
}

/// Whether each comes before the one after it.
pub(crate) fn rise<T: Ord>(xs: &[T]) -> bool
    ensures { result ≡ rises (before T.cmp) xs.now }
{
    for i in 0..xs.len() {
        if !before_first(&xs[i], &xs[i + 1..]) {
            return false;
        }
    }
    true
}

// Whether the key of the row comes before that of the first of the rows, if there is one.
fn key_before_first(row: &CellRow, rows: &[CellRow]) -> bool
    ensures { result ≡ is_below key_before row.now rows.now }
{
    match rows {
        [] => true,
        [next, ..] => match row.key().cmp(next.key()) {
            Ordering::Less => true,
            Ordering::Equal => false,
            Ordering::Greater => false,
        },
    }
}

/// Whether the key of each row comes before that of the row after it.
pub(crate) fn keys_rise(rows: &[CellRow]) -> bool
    ensures { result ≡ rises key_before rows.now }
{
    for i in 0..rows.len() {
        if !key_before_first(&rows[i], &rows[i + 1..]) {
            return false;
        }
    }
    true
}
