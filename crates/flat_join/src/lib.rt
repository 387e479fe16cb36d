//! The flat rows of a cube: the fact rows of a range joined with the lookups, with the columns of the rowkey and of the measures.
//!
//! The crate stands on `cube_val` (rows, forms and plans), `range_list` (ranges of days), `table_reader` (keys of rows), `cube_desc`
//! (which tables a cube has and how they are joined), `lookup_snap` (rows of a lookup by their keys) and `plain_answer` (`FlatRows`).
//! At its boundary:
//!
//! - `joined` (`specs/Joins.antt`), what joined rows are: a function over whole tables, by which a fact row is looked up in all rows of
//!   a lookup. A null equals nothing, so neither a null in the fact row nor one in the lookup matches. Whatever builds, merges or
//!   answers from joined rows cites it.
//! - `IsTable` (`specs/Fits.antt`), what rows keep of their form; every table that is read has it (`read_tables_fit`).
//! - [`join`], which is that definition: the code finds the same rows by sorted keys. That the tables fit the cube's forms is asked
//!   of the caller, who has it of every table that was read. [`PreparedJoin`] is the same for a part of the fact rows at a time.
//!
//! - `prepared`: the top calls. `flat`: the flat rows of fact rows. `snaps`: a snapshot of each lookup. `partner`: what one fact row
//!   matches. `wide`: the values of a joined row.
//! - `laws`: what holds of all tables. `examples`: joined rows, and answers over them, from the definitions.
#![tactic(auto)]

mod examples;
mod flat;
mod laws;
mod partner;
mod prepared;
mod snaps;
mod wide;

pub use examples::{worked_examples, worked_joins};
pub use laws::read_tables_fit;
pub use prepared::{PreparedJoin, join};
