//! The words of the command line: which command they say, with its arguments.
//!
//! `read_words` takes exactly five forms: `run PATH` with or without `--workers=N`, `demo NUMBER ROWS`, `fold PATH`,
//! `cuboids PATH` and `step TASK PRODUCT STOP`. `form` checks the form of the words, so that `clap`, which would take
//! more (help, `--workers N` in two words, `--`), sees only words that it takes; the values come from its matches, in
//! `values`. `read` is the call.
//!
//! The crate takes the most rows of a table from `cube_val`, and knows no file: a path is a word.
#![tactic(auto)]

mod examples;
mod form;
mod order;
mod read;
mod values;

pub use examples::worked_examples;
pub use order::{Order, WordsRefusal};
pub use read::read_words;
