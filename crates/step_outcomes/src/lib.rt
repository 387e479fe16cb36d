//! The outcomes of steps: how they follow the faults that a hand tells of, and which calls of the hand were made for them.
//!
//! It runs nothing. The modules: `laws`: what holds of ends that follow faults; `examples`: the definitions, computed.
#![tactic(auto)]

mod examples;
mod laws;

pub use examples::{worked_calls, worked_ends};
pub use laws::ends_stand;
