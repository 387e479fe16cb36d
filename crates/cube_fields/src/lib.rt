//! The fields of step files that hold what a cube is built of: dictionaries and cell tables.
//!
//! The crate stands on the values of `step_fields`, on the readers and laws of `byte_frame`, and on the types that it
//! writes: the dictionaries of `dim_dictionary` and the tables of `cell_store`. It knows no descriptor: who reads a table
//! says its mask, and its form: the sizes of the dictionaries, the forms of the cells and the most rows that it counts.
//!
//! Each field has its bytes and what may stand in it (`specs/Dicts.antt`, `specs/Cells.antt`), its reader
//! (`specs/Reading.antt`), and the law that ties them, by which it is read exactly ([`fields_are_exact`]). The terms of
//! these laws are in `proofs/ExactDicts.antt` and `proofs/ExactCells.antt`, for the laws of the formats above.
//!
//! At its boundary:
//!
//! - The values of a dictionary rise strictly and fit its column; those of more than the limit are malformed.
//! - The keys of a cell table rise strictly, each number is below its dictionary's size, each count is at least 1, the
//!   counts add up to at most the form's limit, and each cell can be of as many items as its row counts.
//! - A list's count above its limit is malformed, whatever follows, so it asks for no memory.
//!
//! The modules: `forms`: what a table is read by; `order`: lists that rise strictly; `each`: items by contexts; `dicts`: dictionaries; `cells`: rows of
//! cells; `tables`: cell tables; `put`: what is written; `laws` and `examples`.
#![tactic(auto)]

mod cells;
mod dicts;
mod each;
mod examples;
mod forms;
mod laws;
mod order;
mod put;
mod tables;

pub use dicts::{DictForm, read_dicts};
pub use examples::worked_examples;
pub use forms::{CellField, CellTableForm, Extremes};
pub use laws::fields_are_exact;
pub use put::{put_dict, put_dicts, put_table, put_tables};
pub use tables::{read_table, read_tables};
