//! Runs `run_plain` over files and a sink in memory, each call as lines of standard input say it (`check_lines`).
//!
//! The lines:
//!
//! - `new` begins a case: no file, and no call that fails.
//! - `file PATH TEXT` adds a file, and `more COUNT TEXT` adds the text so many times at the end of the last one. A text has escapes.
//! - `failing files NUMBER ..` says which reads and writes of files fail, and `failing sink NUMBER ..` which writes to the sink; the
//!   first has the number 1.
//! - `run WORD ..` runs the command of these words over the files and an empty sink. It writes the status and, where the sink then holds
//!   anything, what it holds, with escapes. A line `at PATH TEXT` follows for each file that is another one now, and for each word
//!   at whose path a new file stands. The files of the case stay for a further run.
//!
//! The work of steps is one of this program's own: a task is a product behind one byte more.
#![tactic(auto)]

mod case;
mod unwrapping;

use crate::case::Case;
use check_lines::{Words, unknown_line};
use std::alloc::Global;
use std::io;
use std::io::{BufRead, BufReader, BufWriter, Write};
use std::thread::Threads;

// Answers a line by its first word.
fn answer_word<R: Threads + Sync, W: Write>(
    rt: &R,
    alloc: Global,
    case: &mut Case,
    words: Words<'_>,
    out: &mut W,
) -> io::Result<()> {
    let mut words = words;
    match words.next()? {
        "new" => {
            *case = Case::new(alloc);
            Ok(())
        }
        "file" => case.add_file(alloc, words),
        "more" => case.lengthen(alloc, words),
        "failing" => case.fail(words),
        "run" => case.run(rt, alloc, words, out),
        _ => Err(unknown_line()),
    }
}

// The line without its line feed.
fn text_of(line: &[u8]) -> &[u8] {
    match line {
        [text @ .., b'\n'] => text,
        _ => line,
    }
}

// Answers a line; an empty line and one that begins with `# ` are written as they are.
fn answer_line<R: Threads + Sync, W: Write>(
    rt: &R,
    alloc: Global,
    case: &mut Case,
    text: &[u8],
    out: &mut W,
) -> io::Result<()> {
    if text.is_empty() || text.starts_with(b"# ") {
        out.write_all(text)?;
        return out.write_all(b"\n");
    }
    answer_word(rt, alloc, case, Words::new(text)?, out)
}

fn main(rt: HostRuntime) -> io::Result<()> {
    let alloc = rt.alloc();
    let mut lines = BufReader::new(alloc, rt.reader())?;
    let mut out = BufWriter::new(alloc, io::writer(&rt))?;
    let mut case = Case::new(alloc);
    for _ in 0..u64::MAX {
        let mut line = Vec::new(alloc);
        if lines.read_until(b'\n', &mut line)? == 0 {
            break;
        }
        answer_line(&rt, alloc, &mut case, text_of(line.as_slice()), &mut out)?;
    }
    out.flush()
}
