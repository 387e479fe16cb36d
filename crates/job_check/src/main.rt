//! Answers scripts of calls on jobs, the queue of jobs, the job board and the fixed cube.
//!
//! A line is a script of words: `job` and calls on one job, `list` and calls on one list of numbers, `board` and calls on one job board
//! of two workers, `cube` and a call on bytes of tasks and products. What each call answers is written behind the first word, with a
//! semicolon before it. Two of the lines are long ones, a list of a thousand numbers and a board of a thousand jobs: `bench/job_lines.py`
//! makes them, and what they have to answer.
//!
//! Texts of bytes are escaped as `check_lines` says. Where a line is none of these, a call may not be made, or memory runs out, the
//! program ends with status 1. It is no part of the product.
#![tactic(auto)]

mod board;
mod calls;
mod cube;
mod facts;
mod job;
mod list;

use crate::board::answer_board;
use crate::cube::answer_cube;
use crate::job::answer_job;
use crate::list::answer_list;
use check_lines::{Words, next_case, unknown_line};
use std::alloc::Global;
use std::io;
use std::io::{BufReader, BufWriter, Write};
use std::thread::Threads;

// Answers the script behind its first word.
fn answer_script<R: Threads + Sync, W: Write>(
    rt: &R,
    alloc: Global,
    kind: &str,
    words: &mut Words<'_>,
    out: &mut W,
) -> io::Result<()> {
    match kind {
        "job" => answer_job(words, out),
        "list" => answer_list(alloc, words, out),
        "board" => answer_board(rt, alloc, words, out),
        "cube" => answer_cube(rt, alloc, words, out),
        _ => Err(unknown_line()),
    }
}

// Answers a line.
fn answer<R: Threads + Sync, W: Write>(
    rt: &R,
    alloc: Global,
    line: &[u8],
    out: &mut W,
) -> io::Result<()> {
    let mut words = Words::new(line)?;
    let kind = words.next()?;
    out.write_all(kind.as_bytes())?;
    answer_script(rt, alloc, kind, &mut words, out)?;
    out.write_all(b"\n")
}

fn main(rt: HostRuntime) -> io::Result<()> {
    let alloc = rt.alloc();
    let mut lines = BufReader::new(alloc, rt.reader())?;
    let mut out = BufWriter::new(alloc, io::writer(&rt))?;
    for _ in 0..u64::MAX {
        let Some(line) = next_case(alloc, &mut lines, &mut out)? else {
            break;
        };
        answer(&rt, alloc, line.as_slice(), &mut out)?;
    }
    out.flush()
}
