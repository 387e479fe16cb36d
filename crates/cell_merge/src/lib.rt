//! Cell tables of several parts, merged into one under the numbers of their merged dictionaries.
//!
//! A merge of segments makes the dictionaries of all parts one (`Dict::merge_all`), which gives each part's values new numbers.
//! Here the rows of the parts' tables get those numbers, in their keys and in their sets of different values, and are gathered.
//! The crate stands on cell tables (`cell_store`), on rows gathered by keys (`cell_gather`) and on new numbers
//! (`dim_dictionary`); of `layer_builder` it takes the definition of a cuboid. It knows neither descriptors nor step files.
//!
//! At its boundary: `merge_tables` gives the gathering of the parts' renumbered rows, whatever the parts are; and by
//! `merged_cuboids` that is the cuboid of all rows over the merged dictionaries, where each part is a cuboid of its rows over its own.
//!
//! The modules: `remaps`: the new numbers of all dictionaries of a part; `renumbering`: rows under new numbers; `merging`: the
//! merged table; `laws`: what it is of the rows; `examples`: the definitions on a few rows.
#![tactic(auto)]

mod examples;
mod laws;
mod merging;
mod remaps;
mod renumbering;

pub use examples::worked_examples;
pub use laws::merged_cuboids;
pub use merging::merge_tables;
pub use remaps::RemapSet;
