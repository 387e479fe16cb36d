//! The reading of the lines of scripts: from the bytes of a line to what it says.
//!
//! What a line's words are, what they say and which fault a line has after the lines before it are definitions in `specs/`: `Lines`,
//! `Names`, `Instructions`, `Faults`. `read_line` answers by them exactly, want of memory aside; the first line with a fault decides over a
//! script.
//!
//! It stands on the types of `script_text`. The modules: `word` (the words of a line), `argument` (what a command word says with its
//! arguments), `line` (a line after others), `fault` (the kinds of faults).
#![tactic(auto)]

mod argument;
mod fault;
mod instruction;
mod line;
mod word;

pub use fault::{LineRefusal, ScriptFault, ScriptKind};
pub use instruction::Instruction;
pub use line::{Counts, Said, read_line};
pub use word::CommandWord;
