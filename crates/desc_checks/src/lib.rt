//! The checks of a cube descriptor whose shape is right: limits, names, repeats, types, tables, columns, joins, the
//! partition date, dimensions, measures, the rowkey.
//!
//! Each check is a definition in `specs/` that gives the list of its failing places, in the order of the walk over the
//! descriptor. All checks in turn give one list of faults (`specs/Faults.antt`), whose head is the descriptor's fault.
//! The code computes no list: each check looks for its first failing place.
//!
//! It stands on the raw descriptor alone and knows no JSON. At its boundary: `first_fault` answers none exactly for a
//! descriptor without a fault, and the crate above then finds every name that it follows.
//!
//! The modules: `check` (what a check is, and checks of lists), `along` (checks that look back), and one for each group of
//! kinds; `fault` puts them in order.
#![tactic(auto)]

mod along;
mod check;
mod columns;
mod dimensions;
mod fault;
mod joins;
mod kind;
mod limits;
mod measures;
mod names;
mod repeats;
mod seen;
mod tables;
mod types;

pub use columns::{column_number, takes_column};
pub use fault::{fault_at, first_fault};
pub use kind::{DescFault, DescKind};
pub use names::parts;
pub use tables::{columns_named, fact_columns, lookup_columns};
pub use types::type_of;
