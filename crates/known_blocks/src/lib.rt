//! The blocks of the commands of a script, as they become known: that of a command where it is taken, that of a query at its end. What may be written
//! of them is the text up to the first query without its end.
//!
//! The modules: `known`: blocks in the order of their commands; `laws`: how they stand beside the entries of a transcript.
#![tactic(auto)]

mod known;
mod laws;

pub use known::{Shown, fill, known_from};
pub use laws::{fill_adds, fill_shows};
