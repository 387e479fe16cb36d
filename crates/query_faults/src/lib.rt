//! Faults of queries, as types: what is wrong with a query's text, and why a cube can't answer a query.
//!
//! It stands below the crates that find these faults (`sql_tokens` and `sql_reader` for texts, `query_names` for cubes) and below those that
//! hand them on without knowing the language, as the refusals of a run do. Each fault has a place, which is the byte of the query's text
//! at which it is.
#![tactic(auto)]

mod bind;
mod sql;

pub use bind::{BindFault, BindKind};
pub use sql::{SqlFault, SqlKind};
