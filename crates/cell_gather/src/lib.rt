//! Rows of cells, gathered by their keys into a table.
//!
//! What makes a cuboid of anything: of a larger cuboid (its rows by a part of their keys), of the rows of a segment (each
//! with its key and the cells of itself alone), of the parts of a merge. The crate stands on cell tables (`cell_store`)
//! and on the definitions of aggregation; it knows neither columns nor dictionaries.
//!
//! At its boundary: `gather` gives for each distinct key, in order, the merge of the cells that have it, and the law of
//! `gathered_cells`: gathering aggregates by a part of their keys gives the aggregate of all their rows by that part. So
//! a table that is an aggregate stays one.
//!
//! The modules: `rows`: rows to gather; `merge`: cells merged one by one; `union`: cells of
//! many rows merged; `runs`: rows of one key; `table`: the table;
//! `keys`: parts of keys; `laws`: the law; `examples`: the definitions on a few cells.
#![tactic(auto)]

mod examples;
mod keys;
mod laws;
mod merge;
mod rows;
mod runs;
mod table;
mod union;

pub use examples::worked_examples;
pub use keys::{kept_dims, kept_numbers};
pub use laws::gathered_cells;
pub use rows::{KeyedCells, add_rows};
pub use table::gather;
