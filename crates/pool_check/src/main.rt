//! Answers scripts of calls on a job board and a pool of hands that end a step only when they are let through.
//!
//! A line is a script of words: `pool`, the number of workers, and calls on one board and one pool of so many hands. `claim` and `take` start what
//! the board gives, `begun` waits until a hand has begun an attempt, `let` lets an attempt through, and `wait` takes the next end and records it.
//! What each call answers is written behind the first word, with a semicolon before it. At the end of a line every attempt is let through, what
//! is still in flight is joined, and the hands that came back are counted with their runs.
//!
//! Where a line is none of these, a call may not be made, or memory runs out, the program ends with status 1. It is no part of the product.
#![tactic(auto)]

mod board;
mod facts;
mod gate_hand;
mod run;

use crate::run::answer_pool;
use check_lines::{Words, next_case, unknown_line};
use std::alloc::Global;
use std::io;
use std::io::{BufReader, BufWriter, Write};
use std::sync::Wait;
use std::thread::Threads;

// Answers a line.
fn answer<R: Threads + Wait + Clone + Send + Sync + Drop + 'static, W: Write>(
    rt: &R,
    alloc: Global,
    line: &[u8],
    out: &mut W,
) -> io::Result<()> {
    let mut words = Words::new(line)?;
    if words.next()? != "pool" {
        return Err(unknown_line());
    }
    out.write_all(b"pool")?;
    answer_pool(rt, alloc, &mut words, out)?;
    out.write_all(b"\n")
}

fn main(rt: HostRuntime) -> io::Result<()> {
    let alloc = rt.alloc();
    let mut lines = BufReader::new(alloc, rt.reader())?;
    let mut out = BufWriter::new(alloc, io::writer(&rt))?;
    for _ in 0..u64::MAX {
        let Some(line) = next_case(alloc, &mut lines, &mut out)? else {
            break;
        };
        answer(&rt, alloc, line.as_slice(), &mut out)?;
    }
    out.flush()
}
