//! A run of a script on a board, in one thread.
//!
//! The coordinator takes one turn after another on the job board: the next command of the script where what it waits for is there, or else
//! a step of the first job in the queue, which it runs on the one hand before anything else. A query is answered where its command is taken.
//! Each block of the transcript is written as soon as it is known, and the end line once nothing is left to do.
//!
//! Its boundary is `run_script`: what it is given was read and checked before (`run_inputs`), and nothing here reads a file or knows the
//! words of a command line. The modules: `loads`: the rows of loads; `listing`: what is listed of jobs; `commands`, `query`, `steps`: turns
//! on the board; `fault`: why a run ends early; `turns`: one turn, with what is written of it; `run`: one turn after another; `examples`: the
//! definitions, computed.
#![tactic(auto)]

mod commands;
mod examples;
mod fault;
mod listing;
mod loads;
mod query;
mod run;
mod steps;
mod turns;

pub use examples::worked_stops;
pub use fault::RunFault;
pub use run::{ScriptRun, run_script};
