//! The names of a query, found in a cube: what tables, columns and aggregates stand for, and the first fault of a query that the cube can't
//! answer.
//!
//! The first half of binding. It gives nothing of the query that is run: `query_bind`, above it, makes that of a query without a fault.
//!
//! At its boundary:
//!
//! - `found` and `dimension_of` say which column a name stands for; `first_fault` is the fault that comes first in the order of `BindKind`, at
//!   the least byte at which it stands.
//! - Each kind is defined as the list of its failing places (`specs/Names.antt`, `Uses.antt`, `Joins.antt`, `Types.antt`); `specs/Faults.antt`
//!   puts them in order.
//! - It takes no memory: a check goes over the query and keeps one place.
//!
//! The modules: `scope` (what names stand for), `check` (checks of the parts of a query), `names`, `uses`,
//! `joins`, `types` (the checks), `fault` (their order), `laws` (what a query may ask is kept).
#![tactic(auto)]

mod check;
mod fault;
mod joins;
mod laws;
mod names;
mod scope;
mod types;
mod uses;

pub use fault::first_fault;
pub use laws::what_is_asked_is_kept;
pub use query_faults::{BindFault, BindKind};
pub use scope::{Scope, key_term};
pub use uses::kept_as;
