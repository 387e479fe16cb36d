//! Runs `cubes` over files in memory, by lines of standard input.
//!
//! - `new`: no file stands anywhere.
//! - `file PATH TEXT`: a file at the path, with the text and its escapes (see `check_lines`); `repeat PATH TIMES TEXT`: one with the text so
//!   often.
//! - `reads NUMBER ..`, `writes NUMBER ..`: these reads of files, and these writes of the output, fail in the next run; the first is 1.
//! - `fate JOB ATTEMPT FATE`: what an attempt of the next run meets: `killed BYTES`, `not-started`, `status STATUS` or `no-file`.
//! - `cubes WORD ..`: a run of these words, on one hand. Its output is written, and then its status.
//! - `history WORD ..`: the same, and then how many steps the hand ran, and the events.
//! - `lying CUT WORD ..`: a run whose hand cuts so many bytes off each product.
//!
//! It is no part of the product.
#![tactic(auto)]

mod given;
mod runs;

use check_lines::Words;
use given::Given;
use std::alloc::Global;
use std::io;
use std::io::{BufRead, BufReader, BufWriter, Write};
use std::sync::Wait;
use std::thread::Threads;

// Answers a line, which is a run or says what the next one is given.
fn answer<R: Threads + Wait + Sync, W: Write>(
    rt: &R,
    alloc: Global,
    given: &mut Given,
    line: &[u8],
    out: &mut W,
) -> io::Result<()> {
    let mut words = Words::new(line)?;
    match words.next()? {
        "cubes" => runs::answer_run(rt, alloc, given, words, out),
        "history" => runs::answer_history(rt, alloc, given, words, out),
        "lying" => runs::answer_lying(rt, alloc, given, words, out),
        word => given.take(alloc, word, words),
    }
}

// Answers a line. An empty one and one that begins with `# ` are written as they are.
fn answer_line<R: Threads + Wait + Sync, W: Write>(
    rt: &R,
    alloc: Global,
    given: &mut Given,
    line: &[u8],
    out: &mut W,
) -> io::Result<()> {
    let text = line.strip_suffix(b"\n").unwrap_or(line);
    if text.is_empty() || text.starts_with(b"# ") {
        out.write_all(text)?;
        return out.write_all(b"\n");
    }
    answer(rt, alloc, given, text, out)
}

fn main(rt: HostRuntime) -> io::Result<()> {
    let mut given = Given::new(rt.alloc());
    let mut lines = BufReader::new(rt.alloc(), rt.reader())?;
    let mut out = BufWriter::new(rt.alloc(), io::writer(&rt))?;
    for _ in 0..u64::MAX {
        let mut line = Vec::new(rt.alloc());
        if lines.read_until(b'\n', &mut line)? == 0 {
            break;
        }
        answer_line(&rt, rt.alloc(), &mut given, line.as_slice(), &mut out)?;
    }
    out.flush()
}
