// Rows with their keys, in order, and the runs of one key among them.

ghost use Rattle.std.specs.Prelude.{◌≡◌, IfOk, slice_index_or};
ghost use Rattle.std.specs.List.{prefix_len};
ghost use Rattle.std.specs.List.Sorted.{IsPermutation, IsSortedBy};
ghost use Rattle.std.specs.Ordering.{is_lt};
ghost use Rattle.cell_gather.specs.Gathers.{RowMeasure};
ghost use Rattle.cell_store.specs.Cells.{key_cmp};
ghost use Rattle.cube_val.specs.declared.val.Val.{Val};
ghost use Rattle.std.specs.Prelude.{List};
ghost use Rattle.layer_builder.specs.Runs.{HasFront, cells_by_key, has_key};

use cube_val::Val;
use smallvec::SmallVec;
use std::alloc::AllocError;
use std::cmp::Ordering;
use std::marker::Model;

/// The number of dimensions of a key that is kept without an allocation.
pub(crate) const INLINE: usize = 4;

// What the first number of a key counts for in the front of the key: one more than the greatest second number.
const FRONT_UNIT: u64 = 1 << 32;

/// The values of a row, with its key.
#[derive(Drop)]
pub(crate) struct KeyedRow<'a> {
    // The first two numbers of the key as one number. Most keys differ in them, so that a sort compares one number, and
    // seldom keys.
    front: u64,
    pub(crate) key: SmallVec<u32, INLINE>,
    pub(crate) vals: &'a [Val],
}

impl<'a> Model for KeyedRow<'a> {
    ghost use Rattle.std.specs.Prelude.{List, ℕ};
    ghost use Rattle.std.specs.Coded.{coded×, coded_list, coded_ℕ};
    ghost use Rattle.cube_val.specs.declared.val.Val.{Val};
    ghost use Rattle.cube_val.specs.contracts.val.Val as val;
    ghost use Rattle.layer_builder.specs.Runs.{HasFront};

    ghost Value = { List ℕ × List Val };

    ghost coded = { coded× (coded_list coded_ℕ) (coded_list val.the_row.coded) };

    ghost view = { λ row. (row.key.items, row.vals.now) };

    ghost invariant = { λ row. HasFront row.key.items row.front };
}

impl<'a> KeyedRow<'a> {
    /// A row of this key and these values. It takes no memory.
    pub(crate) fn new(key: SmallVec<u32, INLINE>, vals: &'a [Val]) -> KeyedRow<'a>
        ensures { result ≡ (key.items, vals.now) }
    {
        let front = front_of(key.as_slice());
        KeyedRow { front, key, vals }
    }
}

// A number of a key; 0 past its end.
fn key_number(key: &[u32], i: usize) -> u32
    ensures { result ≡ slice_index_or key.now i 0 }
{
    match key.get(i) {
        Some(number) => *number,
        None => 0,
    }
}

// The first two numbers of a key as one.
fn front_of(key: &[u32]) -> u64
    ensures { HasFront key.now result }
{
    let first = key_number(key, 0);
    let second = key_number(key, 1);
    u64::from(first) * FRONT_UNIT + u64::from(second)
}

// The order of two keys: by their first different number. Keys are short, so it goes number by number.
fn key_order(key: &[u32], other: &[u32]) -> Ordering
    ensures { result ≡ key_cmp key.now other.now }
{
    for i in 0..key.len().min(other.len()) {
        match key[i].cmp(&other[i]) {
            Ordering::Equal => {}
            Ordering::Less => return Ordering::Less,
            Ordering::Greater => return Ordering::Greater,
        }
    }
    key.len().cmp(&other.len())
}

// The order of two rows: by the fronts of their keys, and where these are the same by the keys.
fn row_order(a: &KeyedRow, b: &KeyedRow) -> Ordering
    ensures { result ≡ key_cmp a.now.0 b.now.0 }
{
    match a.front.cmp(&b.front) {
        Ordering::Less => Ordering::Less,
        Ordering::Greater => Ordering::Greater,
        Ordering::Equal => key_order(a.key.as_slice(), b.key.as_slice()),
    }
}

/// The rows in the order of their keys; those of one key stay in theirs.
pub(crate) fn sorted_rows<'a>(rows: Vec<KeyedRow<'a>>) -> Result<Vec<KeyedRow<'a>>, AllocError>
    ensures sorted { IfOk result (λ sorted. IsSortedBy (λ a b. is_lt (key_cmp a.0 b.0)) sorted.items) }
    ensures permutation { IfOk result (λ sorted. IsPermutation rows.entry.items sorted.items) }
    ensures groups { (measures : List (RowMeasure (List Val))) → IfOk result (λ sorted. cells_by_key measures sorted.items ≡ cells_by_key measures rows.entry.items) }
{
    let mut rows = rows;
    rows.sort_by(
        |a: &KeyedRow, b: &KeyedRow| -> Ordering
            ensures { result ≡ key_cmp a.now.0 b.now.0 }
        { row_order(a, b) },
    )?;
    Ok(rows)
}

/// How many rows at the front have the key.
pub(crate) fn run_len(rows: &[KeyedRow], key: &[u32]) -> usize
    ensures { result ≡ prefix_len (has_key key.now) rows.now }
{
    let mut n = 0;
    for row in rows {
        if row.key.as_slice() != key {
            return n;
        }
        n += 1;
    }
    n
}
