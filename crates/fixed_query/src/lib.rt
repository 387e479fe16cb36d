//! The query of the fixed cube, as a piece of work for a pool.
//!
//! A [`FixedQuery`] is a query with the cells of the ready set over which it is to be answered. It needs nothing else, so that whatever thread runs
//! it answers over exactly that set (`specs/QueryEnds.antt`), or finds no memory.
#![tactic(auto)]

mod query;

pub use query::{FixedPool, FixedQuery, QueryEnd};
