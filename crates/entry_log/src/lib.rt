//! A log of entries in a file, which outlives a crash at any moment.
//!
//! An entry is a gate that is open (the byte 1), a length and a sealed frame; behind the last entry stands a gate that
//! is closed, and whatever stands behind that doesn't count. An entry is first written and kept behind the closed gate,
//! with a closed gate of its own behind it; then the gate is opened and kept, so it counts whole or not at all. What an
//! entry's bytes say is for the crates above to say.
#![tactic(auto)]

mod examples;
mod fault;
mod kept;
mod laws;
mod log;
mod opening;
mod read;

pub use examples::worked_logs;
pub use fault::LogFault;
pub use laws::{logs_are_one, opening_again_is_opening_once};
pub use log::Log;
pub use read::read_log;
