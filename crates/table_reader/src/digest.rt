// Digests of keys: where no two rows have one digest, no two have one key.

ghost use Rattle.std.specs.Prelude.{◌≡◌, ◌++◌, ◌∷◌, [], ℕ, List, true, All, IfOk, OnOk};
ghost use Rattle.cube_val.specs.declared.val.Val.{Val};
ghost use Rattle.table_reader.specs.Digests.{digest_of, digests_of, fed_with};
ghost use Rattle.table_reader.specs.Keys.{AreWithin, HasDistinctKeys, key_of};

use cube_val::{Row, Val};
use std::alloc::{AllocError, Global};
use std::hash::{FoldHasher, Hasher};

// Feeds a value to the hasher.
fn feed(state: &mut FoldHasher, value: &Val)
    ensures { state.new ≡ fed_with state.old value.now }
{
    match value {
        Val::Null => state.write(b""),
        Val::Int(number) => state.write_i64(*number),
        Val::Text(text) => state.write(text.bytes()),
    }
}

// The digest of the row's key.
fn digest(places: &[usize], row: &Row) -> u64
    requires { AreWithin places.now row.now }
    ensures { result ≡ digest_of (key_of places.now row.now) }
{
    let mut state = FoldHasher::default();
    for i in 0..places.len() {
        feed(&mut state, row.get(places[i]));
    }
    state.finish()
}

/// Adds the digest of a row's key to those of the rows before it, where a key has a column.
pub fn add_digest(digests: &mut Vec<u64>, places: &[usize], row: &Row) -> Result<(), AllocError>
    requires { AreWithin places.now row.now }
    ensures { OnOk result ((rows : List (List Val)) → digests.old.items ≡ digests_of places.now rows
        → digests.new.items ≡ digests_of places.now (rows ++ row.now ∷ [])) }
{
    if places.is_empty() {
        return Ok(());
    }
    digests.push(digest(places, row))?;
    Ok(())
}

/// The digests of the rows' keys.
pub fn digests_of(alloc: Global, places: &[usize], rows: &[Row]) -> Result<Vec<u64>, AllocError>
    requires { All (AreWithin places.now) rows.now }
    ensures { IfOk result (λ digests. digests.items ≡ digests_of places.now rows.now) }
{
    let mut digests = Vec::new(alloc);
    for i in 0..rows.len() {
        add_digest(&mut digests, places, &rows[i])?;
    }
    Ok(digests)
}

/// Whether the digests differ. Where those of the rows' keys do, no row repeats a key.
pub fn digests_differ(digests: Vec<u64>) -> bool
    ensures { (places : List ℕ) (rows : List (List Val)) → digests.items ≡ digests_of places rows → result ≡ true → HasDistinctKeys places rows }
{
    let mut digests = digests;
    digests.sort_unstable();
    digests.is_sorted_by(|a, b| a < b)
}
