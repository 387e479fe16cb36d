//! The scripts of the fixed cube: those of its lines that the fixed cube serves, read whole.
//!
//! The first line that has a fault, or that asks for what the fixed cube hasn't, decides; which one it is, and what the commands are, is a
//! definition in `specs/Scripts.antt` over the lines of the file. It stands on `script_reader`, which says what a line says.
#![tactic(auto)]

mod fixed;
mod script;
mod session;

pub use script::{FixedScriptRefusal, read_fixed_script};
