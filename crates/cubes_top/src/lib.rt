//! The top call: `run` takes the words of the command line, and runs a script over the fixed cube or hands them on to `run_plain`.
//!
//! It stands above everything else. All files are read and checked first, by `run_inputs`, which writes the one fault line where
//! they give no inputs; over inputs the `coordinator` takes one turn after another on the job board. The modules: `words` (whether the words
//! are a run on one hand), `top` (the call), `laws`.
//!
//! The contract of `run` is the invariant at the boundary: which status comes when, what was written then, and which history the run has.
#![tactic(auto)]

mod laws;
mod top;
mod words;

pub use laws::whole_runs_rest;
pub use top::{Ran, run};
