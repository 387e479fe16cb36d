//! The definitions of aggregation, and the laws that join them.
//!
//! Rows of any type are grouped by a key and measured (`aggregate`); the cells of one or more aggregates are gathered
//! by a part of their keys (`gather`). The crate stands on `measure_laws` and holds no data: what it gives the layers
//! above (those that build cuboids from rows, regroup and merge them, and combine the answers of segments) are these
//! definitions in `specs/`, the laws that `gathered_aggregates` states of every key, part and measure, and in `proofs/`
//! the facts that every loop shares which fills a table of cells part by part (`CellFacts`).
#![tactic(auto)]

mod examples;
mod laws;

pub use examples::worked_examples;
pub use laws::{aggregate_keys_rise, gathered_aggregates};
