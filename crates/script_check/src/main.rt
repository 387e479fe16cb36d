//! Says of each line of standard input what the words of a command line, a line of a script, a whole script or a block of a transcript
//! it is. In a TEXT stand the escapes of `check_lines`.
//!
//! - `words WORD ..`: the command that the words say; `''` is the empty word.
//! - `line LINES LOADS JOBS TEXT`: what the text says as a line of a script behind so many lines, of which so many are loads and jobs, or
//!   the kind of its fault.
//! - `script TEXT`: the number of the script's commands, or of its bad line. `times N TEXT`: the same of the text, so often, below the
//!   descriptor's line. `commands TEXT`: each command with the number of its line, and with its job or session.
//! - `read TEXT`, `read-times N TEXT`, `read-commands TEXT`: the same as scripts of any cube; a fault has its line and its kind.
//! - `block NUMBER ..`, `end ..`: the text of a block and of the end line; `blocks` says how they are given.
//!
//! It is no part of the product.
#![tactic(auto)]

mod blocks;
mod command_words;
mod refusals;
mod script_lines;
mod scripts;
mod whole_scripts;

use check_lines::{Answerer, Words, answer_lines, unknown_line};
use std::alloc::Global;
use std::io;
use std::io::Write;

// What answers a line of this program.
#[derive(Drop)]
struct ScriptCheck;

impl Answerer for ScriptCheck {
    fn answer<W: Write>(&mut self, alloc: Global, line: &[u8], out: &mut W) -> io::Result<()> {
        let mut words = Words::new(line)?;
        match words.next()? {
            "words" => command_words::answer(alloc, words, out),
            "line" => script_lines::answer(alloc, words, out),
            "script" => scripts::answer_script(alloc, words.rest(), out),
            "times" => scripts::answer_times(alloc, words, out),
            "commands" => scripts::answer_commands(alloc, words.rest(), out),
            "read" => whole_scripts::answer_read(alloc, words.rest(), out),
            "read-times" => whole_scripts::answer_times(alloc, words, out),
            "read-commands" => whole_scripts::answer_commands(alloc, words.rest(), out),
            "block" => blocks::answer_block(alloc, words, out),
            "end" => blocks::answer_end(alloc, words, out),
            _ => Err(unknown_line()),
        }
    }
}

fn main(rt: HostRuntime) -> io::Result<()> {
    answer_lines(&rt, rt.alloc(), &mut ScriptCheck)
}
