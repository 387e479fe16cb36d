//! Says of each line of standard input what the bytes in it are, as `docs/FORMATS.md` tells them (`check_lines`).
//!
//! Bytes are hexadecimal digits. The lines:
//!
//! - A file and then any number of further files, with a space between two: which step files they are. Where the first is a task, it
//!   writes `task`, and for each further file `product` where it is one of that task, else `Damaged`; where the first is none it writes
//!   `BadTask` alone.
//! - `run` and a file: that of a task for `cubes step` over files in memory. It is answered by the product file that is left, or by the
//!   fault line. With `stop` in its place something stands at the path of the stop file too.
//! - `read`, a word and bytes: what a reader of fields finds in front of them (`reading`).
//! - `looks`, a number and a file: that of a task. It is answered by how often its step looks at a watch that sees a stop at the look with
//!   the number (at none where that is 0), and by `done`, `Stopped` or `BadTask`. `many`, a number, how many rows there are, the bytes in
//!   front of them, those of one row, and those behind them, if there are any: the same of the task with this body.
//!
//! What is read is written again too: `changed` stands behind it where that gives other bytes. The first lines of `stdin` are files that
//! another program made (`bench/step_texts.py`), and files with one byte changed. It is no part of the product.
#![tactic(auto)]

mod fields;
mod files;
mod frames;
mod lists;
mod looks;
mod reading;
mod rows;
mod running;

use crate::files::answer_files;
use crate::looks::{answer_looks, answer_many};
use crate::reading::answer_read;
use crate::running::answer_run;
use check_lines::bytes_of;
use std::alloc::Global;
use std::io;
use std::io::{BufRead, BufReader, BufWriter, Write};
use std::thread::Threads;

// What a line asks for.
#[derive(Clone, Copy)]
enum Line<'a> {
    // The product of the task of a file.
    Run(&'a [u8]),
    // The same where a stop is asked for.
    Stop(&'a [u8]),
    // What a reader of fields finds.
    Read(&'a [u8]),
    // How often the step of a task looks.
    Looks(&'a [u8]),
    // The same of a task of many rows.
    Many(&'a [u8]),
    // What heads the lines below it.
    Heading(&'a [u8]),
    // Which step files these are.
    Files(&'a [u8]),
}

fn line_of(line: &[u8]) -> Line<'_> {
    if line.is_empty() || line.starts_with(b"# ") {
        return Line::Heading(line);
    }
    if let Some(digits) = line.strip_prefix(b"run ") {
        return Line::Run(digits);
    }
    if let Some(digits) = line.strip_prefix(b"stop ") {
        return Line::Stop(digits);
    }
    if let Some(rest) = line.strip_prefix(b"read ") {
        return Line::Read(rest);
    }
    if let Some(rest) = line.strip_prefix(b"looks ") {
        return Line::Looks(rest);
    }
    match line.strip_prefix(b"many ") {
        Some(rest) => Line::Many(rest),
        None => Line::Files(line),
    }
}

// Answers a line. An empty one and one that begins with `# ` are written as they are: they head the lines below them.
fn answer_line<R: Threads + Sync, W: Write>(
    rt: &R,
    alloc: Global,
    line: &[u8],
    out: &mut W,
) -> io::Result<()> {
    match line_of(line) {
        Line::Run(digits) => answer_run(rt, alloc, bytes_of(alloc, digits)?, false, out),
        Line::Stop(digits) => answer_run(rt, alloc, bytes_of(alloc, digits)?, true, out),
        Line::Read(rest) => answer_read(alloc, rest, out),
        Line::Looks(rest) => answer_looks(rt, alloc, rest, out),
        Line::Many(rest) => answer_many(rt, alloc, rest, out),
        Line::Heading(text) => answer_heading(text, out),
        Line::Files(files) => answer_files(alloc, files, out),
    }
}

fn answer_heading<W: Write>(text: &[u8], out: &mut W) -> io::Result<()> {
    out.write_all(text)?;
    out.write_all(b"\n")
}

// The line without its line feed.
fn text_of(line: &[u8]) -> &[u8] {
    match line {
        [text @ .., b'\n'] => text,
        _ => line,
    }
}

fn main(rt: HostRuntime) -> io::Result<()> {
    let mut lines = BufReader::new(rt.alloc(), rt.reader())?;
    let mut out = BufWriter::new(rt.alloc(), io::writer(&rt))?;
    for _ in 0..u64::MAX {
        let mut line = Vec::new(rt.alloc());
        if lines.read_until(b'\n', &mut line)? == 0 {
            break;
        }
        answer_line(&rt, rt.alloc(), text_of(line.as_slice()), &mut out)?;
    }
    out.flush()
}
