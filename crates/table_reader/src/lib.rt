//! Tables read from CSV files by a form: which columns a file has to have, of which types, where no null may stand, and
//! which of them are the primary key.
//!
//! The crate stands on `cube_val`, whose values, rows and forms it uses, and on `csv`, which splits bytes into records. Every
//! crate that reads a table stands on it, so that a file is judged in one way everywhere.
//!
//! The invariant at its boundary is the contract of [`read_table`]: a file that is a table of the form is read to its rows,
//! and of every other file the first fault is told with its row, its column and its kind. Faults of the header come first,
//! then those of the first record that has one; what comes before what in a record is the definition's alone. A file is
//! one of them only (`files_have_one_outcome`), so the answer is determined but for want of memory.
//!
//! The way of the data: `records` (the bytes to records, one after another), `header` (the columns of the form in the
//! first of them), `row` (a record to the row that it writes), `body` (the rows up to the end or the first record that is
//! none), `digest` (whether the digests of the keys, in order, all differ, so that no key is repeated), `key` (else the first
//! repeated key, found by the order of keys where the rows are) and `table` (the top call). Beside them `fault` has the
//! faults, `laws` what holds of all files and `examples` the definitions on a few.
#![tactic(auto)]

mod body;
mod digest;
mod examples;
mod fault;
mod header;
mod key;
mod laws;
mod records;
mod row;
mod table;

pub use examples::worked_examples;
pub use fault::{TableFault, TableKind, TableRefusal};
pub use key::first_repeated;
pub use laws::files_have_one_outcome;
pub use table::{read_rows, read_table};
