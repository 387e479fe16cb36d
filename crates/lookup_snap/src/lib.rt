//! The rows of a lookup by their keys: what a join with it reads, and what a segment keeps of it.
//!
//! The crate stands on `cube_val` for rows and on `table_reader` for the keys of rows. At its boundary a [`LookupSnap`] is
//! the list of its entries, each a key with values, strictly rising by key: so two snapshots are equal exactly where their
//! lists are, a key is found by a binary search, and the entries are gone over in order. No key has a null, since a null
//! joins with nothing.
//!
//! - `snap`: the snapshot; `part`: the values of a row at places.
#![tactic(auto)]

mod part;
mod snap;

pub use snap::LookupSnap;
