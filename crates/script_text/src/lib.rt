//! The text of scripts and transcripts: what the lines of a script ask for, and the blocks that are written for them.
//!
//! It stands on the days, values, jobs and answers that lines and blocks carry, and on `run_history` for the refusals. It runs nothing:
//! the job board gives the verbs their effect, and the top call writes the blocks.
//!
//! At its boundary:
//!
//! - `Verb`, `Line`, `Script`, `Block` and their parts are plain data in contracts: numbers, lists and ranges.
//! - `put_block` appends exactly the text of a block, and `put_end` that of the end line. The texts are definitions in `specs/Blocks.antt`.
#![tactic(auto)]

mod block;
mod examples;
mod path;
mod put;
mod range;
mod refusal;
mod table;
mod text;
mod verb;

pub use block::{Block, JobLine, SegmentLine, Tally};
pub use examples::{worked_blocks, worked_refusals};
pub use path::PathText;
pub use put::{put_block, put_end};
pub use run_history::{Control, Refused};
pub use verb::{Line, Script, Verb};
