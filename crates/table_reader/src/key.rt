// The keys of rows, compared where the rows are.

ghost use Rattle.std.specs.Prelude.{◌≡◌, ◌&&◌, ◌||◌, not, OnOk, ◌<◌, ℕ, List, [], All, IfOk, IfNone, IfSome, length, take, slice_index_or};
ghost use Rattle.std.proofs.Common.{rules};
ghost use Rattle.std.specs.Cmp.{eq_by_cmp_equiv, partial_equiv_from_equiv, partial_order_from_total};
ghost use Rattle.std.specs.Cmp.Rules.{comparing};
ghost use Rattle.std.specs.Ordering.{as_partial_cmp, eq_by_cmp, is_eq};
ghost use Rattle.std.specs.BTreeSet.{contains};
ghost use Rattle.cube_val.specs.Order.{row_cmp};
ghost use Rattle.cube_val.specs.OrderLaws.{row_cmp_total};
ghost use Rattle.cube_val.specs.declared.val.Val.{Val};
ghost use Rattle.table_reader.specs.Digests.{digests_of};
ghost use Rattle.table_reader.specs.Keys.{AreWithin, HasDistinctKeys, Repeats, has_null, is_null, key_of, val_at};

use crate::digest::{digests_differ, digests_of};
use cube_val::{Row, Val, cmp};
use std::alloc::{AllocError, Global};
use std::cmp::Ordering;
use std::collections::BTreeSet;
use std::marker::Model;

// The value of a row at a place.
fn val_at(row: &Row, place: usize) -> &Val
    requires { place < length row.now }
    ensures { result.now ≡ val_at row.now place }
{
    row.get(place)
}

/// Whether a value is the null.
pub fn is_null(value: &Val) -> bool
    ensures { result ≡ is_null value.now }
{
    match value {
        Val::Null => true,
        Val::Int(_) => false,
        Val::Text(_) => false,
    }
}

// Whether a null stands in the key of the row.
fn has_null(places: &[usize], row: &Row) -> bool
    requires { AreWithin places.now row.now }
    ensures { result ≡ has_null (key_of places.now row.now) }
{
    for i in 0..places.len() {
        if is_null(val_at(row, places[i])) {
            return true;
        }
    }
    false
}

// The order of two keys: by their first difference.
fn compare(places: &[usize], row: &Row, others: &[usize], other: &Row) -> Ordering
    requires within { AreWithin places.now row.now }
    requires others_within { AreWithin others.now other.now }
    ensures { result ≡ row_cmp (key_of places.now row.now) (key_of others.now other.now) }
{
    for i in 0..places.len().min(others.len()) {
        match cmp(val_at(row, places[i]), val_at(other, others[i])) {
            Ordering::Equal => {}
            Ordering::Less => return Ordering::Less,
            Ordering::Greater => return Ordering::Greater,
        }
    }
    places.len().cmp(&others.len())
}

/// The key of a row, compared where the row is. Contracts see it as the list of its values.
#[derive(Drop)]
pub struct Key<'a> {
    places: &'a [usize],
    row: &'a Row,
}

impl<'a> Model for Key<'a> {
    ghost use Rattle.std.specs.Prelude.{List};
    ghost use Rattle.cube_val.specs.declared.val.Val.{Val};
    ghost use Rattle.table_reader.specs.Keys.{AreWithin, key_of};

    ghost Value = { List Val };

    ghost view = { λ key. key_of key.places.now key.row.now };

    ghost invariant = { λ key. AreWithin key.places.now key.row.now };
}

impl<'a> Key<'a> {
    /// The key of the row at these places.
    pub fn of(places: &'a [usize], row: &'a Row) -> Key<'a>
        requires { AreWithin places.now row.now }
        ensures { result ≡ key_of places.now row.now }
    {
        Key { places, row }
    }

    /// Whether a null stands in the key.
    pub fn has_null(&self) -> bool
        ensures { result ≡ has_null self.now }
    {
        has_null(self.places, self.row)
    }
}

impl<'a> PartialEq for Key<'a> {
    ghost eq = { eq_by_cmp row_cmp };

    ghost laws = { partial_equiv_from_equiv (eq_by_cmp_equiv row_cmp_total) };

    fn eq(&self, other: &Self) -> bool {
        self.cmp(other) == Ordering::Equal
    }
}

impl<'a> Eq for Key<'a> {
    ghost laws = { eq_by_cmp_equiv row_cmp_total };
}

impl<'a> PartialOrd for Key<'a> {
    ghost partial_cmp = { as_partial_cmp row_cmp };

    ghost laws = { partial_order_from_total row_cmp_total };

    fn partial_cmp(&self, other: &Self) -> Option<Ordering> {
        Some(self.cmp(other))
    }
}

impl<'a> Ord for Key<'a> {
    ghost cmp = { row_cmp };

    ghost total = { row_cmp_total };

    ghost matches_partial_cmp = { Prim.search (comparing, rules) };

    ghost matches_eq = { Prim.search (comparing, rules) };

    fn cmp(&self, other: &Self) -> Ordering {
        compare(self.places, self.row, other.places, other.row)
    }
}

// Adds a key to those before it, and says whether it repeats one of them. A key with a null is none.
fn add_key<'a>(keys: &mut BTreeSet<Key<'a>>, key: Key<'a>) -> Result<bool, AllocError>
    ensures repeats { IfOk result (λ repeats. repeats ≡ (not (has_null key.entry) && contains row_cmp keys.old key.entry)) }
    ensures adds { OnOk result ((q : List Val) → contains row_cmp keys.new q ≡ (contains row_cmp keys.old q || (not (has_null key.entry) && is_eq (row_cmp key.entry q)))) }
{
    if key.has_null() {
        return Ok(false);
    }
    let is_new = keys.insert(key)?;
    Ok(!is_new)
}

/// The place of the first row that repeats the key of an earlier one. The digests are those of the rows' keys.
pub(crate) fn repeated_key(
    alloc: Global,
    places: &[usize],
    rows: &[Row],
    digests: Vec<u64>,
) -> Result<Option<usize>, AllocError>
    requires within { All (AreWithin places.now) rows.now }
    requires digests { digests.items ≡ digests_of places.now rows.now }
    ensures none { IfOk result (λ o. IfNone o (HasDistinctKeys places.now rows.now)) }
    ensures some { IfOk result (λ o. IfSome o (λ i. (i < length rows.now) × HasDistinctKeys places.now (take i rows.now)
        × Repeats places.now (take i rows.now) (slice_index_or rows.now i []))) }
{
    if places.is_empty() {
        return Ok(None);
    }
    let differ = digests_differ(digests);
    if differ {
        return Ok(None);
    }
    let mut keys = BTreeSet::new(alloc);
    for i in 0..rows.len() {
        let repeats = add_key(&mut keys, Key::of(places, &rows[i]))?;
        if repeats {
            return Ok(Some(i));
        }
    }
    Ok(None)
}

/// The place of the first row that repeats the key of an earlier one.
pub fn first_repeated(
    alloc: Global,
    places: &[usize],
    rows: &[Row],
) -> Result<Option<usize>, AllocError>
    requires { All (AreWithin places.now) rows.now }
    ensures none { IfOk result (λ o. IfNone o (HasDistinctKeys places.now rows.now)) }
    ensures some { IfOk result (λ o. IfSome o (λ i. (i < length rows.now) × HasDistinctKeys places.now (take i rows.now)
        × Repeats places.now (take i rows.now) (slice_index_or rows.now i []))) }
{
    let digests = digests_of(alloc, places, rows)?;
    repeated_key(alloc, places, rows, digests)
}
