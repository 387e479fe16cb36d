//! What holds of pieces of work in flight over every history: of the lines of queries without their end, and of the attempts that commands stop.
//!
//! It runs nothing. The modules: `laws`: the laws.
#![tactic(auto)]

mod laws;

pub use laws::{lines_apart, stops_apart};
