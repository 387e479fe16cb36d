//! What holds of the entries of a transcript while queries are without their end.
//!
//! It runs nothing. The modules: `laws`: the laws.
#![tactic(auto)]

mod laws;

pub use laws::asked_are_open;
