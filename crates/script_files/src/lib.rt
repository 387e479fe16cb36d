//! Scripts, read whole.
//!
//! The first line that has a fault decides, with the kind of its first fault; which line it is, and what the commands of a script are, is a
//! definition in `specs/Scripts.antt` over the lines of the file. It stands on `script_reader`, which says what a line says after others.
#![tactic(auto)]

mod examples;
mod script;
mod session;

pub use examples::worked_scripts;
pub use script::{ScriptRefusal, read_script};
