//! Binding: the question that a query asks of a cube.
//!
//! `bind` gives the ask of the joined rows that a query is, with the rowkey columns that a cuboid needs to answer it, or the first fault of
//! the query. `query_names` below finds what names stand for and has the checks; here stands what is made of a query that passes them.
//!
//! At its boundary:
//!
//! - Columns are places in the joined rows of the cube: the rowkey, the derived columns, the columns that measures are of.
//! - Every ask is sound: it has a meaning in the query language, so that nobody tests it again.
//!
//! The modules: `aggs` (the aggregates of a query), `terms` (terms and conditions), `titles` (the names over an answer's columns), `needs`
//! (the rowkey columns that are used), `bound_query` and `binding`.
#![tactic(auto)]

mod aggs;
mod binding;
mod bound_query;
mod needs;
mod terms;
mod titles;

pub use binding::bind;
pub use bound_query::{BindRefusal, Bound};
pub use query_names::{BindFault, BindKind};
