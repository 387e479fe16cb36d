//! What stands in the tasks of steps and in their products: tables, dictionaries of flat rows, the cell tables of a layer,
//! and seals.
//!
//! Which columns, dictionaries and cuboids a file has is said by a [`Layout`], which the crate above makes of a descriptor;
//! this one knows no descriptor, no kinds of tasks and no frames.
//!
//! At its boundary:
//!
//! - Each body has a spelling, says what fits, and has a reader, and the three are tied by one law
//!   ([`bodies_are_exact`]). What is read was so written and fits, so nobody tests it again.
//! - A call that reads answers `Malformed` exactly where the definition of its reader gives nothing.
//!
//! The modules: `layout`: the columns, measures and masks by which files are read; `loaded`: the tables of a snapshot;
//! `dicts`: dictionaries that hold the values of rows; `layers`: the cell tables of a layer; `seal`: what a seal says of its
//! segment; `laws`: what holds of all bodies.
#![tactic(auto)]

mod dicts;
mod laws;
mod layers;
mod layout;
mod loaded;
mod seal;

pub use dicts::read_holding;
pub use laws::bodies_are_exact;
pub use layers::{LayerWork, SIZE_LIMIT, layer_masks, parent_masks, read_layer, table_form};
pub use layout::{DictColumn, Layout, TableColumns};
pub use loaded::{ROW_LIMIT, put_loaded, read_loaded};
pub use seal::{CuboidRows, DoneStep, SealBody, put_seal, read_seal};
