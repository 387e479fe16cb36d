//! The transcript of a history: definitions and laws, over the worlds of `run_history` and the blocks of `script_text`. It runs nothing.
//!
//! A script, the rows of its loads and a number of workers are `Inputs`; with them a history of events is a list of turns (`turns_of`), legal
//! and fresh as its turns are. The transcript is a list of entries beside the world: each command adds one, its block or, where a query was
//! accepted, an open place that the end of the query fills. What is told are the blocks up to the first open place; so what was told stays
//! told, and a writer may write each block as soon as it is told.
//!
//! What the cube is, is a parameter, one record `Served`.
#![tactic(auto)]

mod examples;
mod laws;

pub use examples::{worked_blocks, worked_history, worked_transcript};
pub use laws::{
    answered_sets_stay, each_turn_adds, more_is_told, one_event_more, told_stays_told,
    whole_histories_tell_all,
};
