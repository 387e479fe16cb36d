//! Says of each line of standard input what a query's text is: its tokens, its parts or its first fault, and what it asks of a cube. In
//! a TEXT stand the escapes of `check_lines`.
//!
//! - `query TEXT`: `query`, or the kind and the place of the first fault, as `BadToken 26`. `padded N TEXT` is the same of the text with
//!   spaces behind it, N bytes in all.
//! - `tokens TEXT`: each token as its kind and place with a comma behind it, and then the fault, or `end`.
//! - `payloads TEXT`: what each token stands for, as `NAME|TEXT|NUMBER|ROWS` with a comma behind it, and then the fault, or `end`. The
//!   number is negative and in units of 1/10000.
//! - `tree TEXT`: the parts of a query: its table with the place, the alias of each item, each join with its table, the place of that
//!   and the number of its pairs, whether there is a condition, how many columns it is grouped by, the directions of its order, the limit.
//! - `cube JSON`: the cube of the lines below.
//! - `bind TEXT`: `bound`, or the kind and the place of a query's first fault over this cube.
//! - `ask TEXT`: what a query asks of this cube: the rowkey columns that it needs, as the number of their mask, the columns of groups,
//!   each aggregate with its column, the number of its keys, and the names over the answer.
//!
//! `bench/sql_texts.py` calls the reader by it. A line of another form ends the program with status 1, and so does want of memory. It is
//! no part of the product.
#![tactic(auto)]

mod asked;
mod bindings;
mod queries;
mod questions;
mod tokens;
mod tree;

use check_lines::{Answerer, Words, answer_lines, unescaped, unknown_line};
use cube_desc::CubeDesc;
use std::alloc::Global;
use std::io;
use std::io::Write;

// What answers a line of this program.
#[derive(Drop)]
struct SqlCheck {
    // The cube of the lines below the last one that gave a cube.
    cube: Option<CubeDesc>,
}

// What a word asks of a text alone.
fn answer_text<W: Write>(alloc: Global, word: &str, text: &[u8], out: &mut W) -> io::Result<()> {
    match word {
        "query" => queries::answer_query(alloc, text, out),
        "tokens" => tokens::answer_tokens(alloc, text, out),
        "payloads" => tokens::answer_payloads(alloc, text, out),
        "tree" => tree::answer_tree(alloc, text, out),
        _ => Err(unknown_line()),
    }
}

// What a word asks of a text over a cube.
fn answer_over<W: Write>(
    alloc: Global,
    cube: &CubeDesc,
    word: &str,
    text: &[u8],
    out: &mut W,
) -> io::Result<()> {
    match word {
        "bind" => bindings::answer_bind(alloc, cube, text, out),
        "ask" => bindings::answer_ask(alloc, cube, text, out),
        _ => answer_text(alloc, word, text, out),
    }
}

impl SqlCheck {
    fn answer_word<W: Write>(
        &self,
        alloc: Global,
        word: &str,
        text: &str,
        out: &mut W,
    ) -> io::Result<()> {
        let text = unescaped(alloc, text)?;
        match &self.cube {
            Some(cube) => answer_over(alloc, cube, word, text.as_slice(), out),
            None => answer_text(alloc, word, text.as_slice(), out),
        }
    }
}

impl Answerer for SqlCheck {
    fn answer<W: Write>(&mut self, alloc: Global, line: &[u8], out: &mut W) -> io::Result<()> {
        let mut words = Words::new(line)?;
        match words.next()? {
            "cube" => {
                self.cube = Some(bindings::cube_of(alloc, words.rest())?);
                out.write_all(b"cube\n")
            }
            "padded" => queries::answer_padded(alloc, words, out),
            word => self.answer_word(alloc, word, words.rest(), out),
        }
    }
}

fn main(rt: HostRuntime) -> io::Result<()> {
    answer_lines(&rt, rt.alloc(), &mut SqlCheck { cube: None })
}
