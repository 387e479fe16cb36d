//! Answers calls on what a run meets outside itself, in memory and as the system has it, each line of standard input a list of calls.
//!
//! Numbers and files are parted by commas, and `-` stands for none; a file is `PATH=TEXT`. Texts have the escapes of `check_lines`. What a
//! call answers is written behind the first word of its line, with a semicolon before it: bytes
//! in quotes, or the name of a fault.
//!
//! - `files NUMBERS FILES PATHS CALL ..`: files in memory, of which the reads and writes with these numbers fail. A call is
//!   `read PATH LIMIT`, `write PATH TEXT`, `exists PATH`, or `asked PATH`: whether a watch that looks there is asked to stop. At the end
//!   stands what each of the paths holds then.
//! - `system CALL ..`: the same calls on the files of the system.
//! - `sink NUMBERS TEXT ..`: writes to a sink in memory, of which these fail, and then what it holds.
//! - `stopper NUMBERS JOB ..`: requests to a stopper in memory, of which these fail, each for attempt 7 of a job, and then their jobs.
//! - `hand FATES RUN ..`: runs of attempts of job 1 on a hand in memory, and how many there were. A fate is `ATTEMPT=NAME`, with
//!   `:NUMBER` behind `killed` and `status`; a run is `ATTEMPT=TASK`. A task is its product behind one byte more.
//! - `lying COUNT RUN ..`: runs on a hand that cuts so many bytes off each product. `local RUN ..`: runs on a hand of the product.
//! - `child PROGRAM SCRIPT`: the script is written to the file `step`, and a hand runs the program as attempt 1 of job 1, on the task
//!   `task`. `stop JOB ATTEMPT`: the attempt is asked to stop.
//!
//! It is no part of the product.
#![tactic(auto)]

mod files;
mod given;
mod hands;
mod requests;
mod system;

use check_lines::{Words, next_case, unknown_line};
use std::alloc::Global;
use std::io;
use std::io::{BufReader, BufWriter, Write};
use std::process::Processes;
use std::sync::Wait;
use std::thread::Threads;

// Answers the calls of a line on objects in memory.
fn answer_in_memory<R: Threads + Wait + Sync, W: Write>(
    rt: &R,
    alloc: Global,
    kind: &str,
    words: &mut Words<'_>,
    out: &mut W,
) -> io::Result<()> {
    match kind {
        "files" => files::answer_files(alloc, words, out),
        "sink" => requests::answer_sink(alloc, words, out),
        "stopper" => requests::answer_stopper(alloc, words, out),
        "hand" => hands::answer_hand(rt, alloc, words, out),
        "lying" => hands::answer_lying(rt, alloc, words, out),
        "local" => hands::answer_local(rt, alloc, words, out),
        _ => Err(unknown_line()),
    }
}

// Answers the calls of a line.
fn answer_calls<R: Threads + Wait + Sync + Processes + std::rt::Files + Copy, W: Write>(
    rt: &R,
    alloc: Global,
    kind: &str,
    words: &mut Words<'_>,
    out: &mut W,
) -> io::Result<()> {
    match kind {
        "system" => system::answer_system(rt, alloc, words, out),
        "child" => system::answer_child(rt, alloc, words, out),
        "stop" => system::answer_stop(rt, alloc, words, out),
        _ => answer_in_memory(rt, alloc, kind, words, out),
    }
}

// Answers a line.
fn answer<R: Threads + Wait + Sync + Processes + std::rt::Files + Copy, W: Write>(
    rt: &R,
    alloc: Global,
    line: &[u8],
    out: &mut W,
) -> io::Result<()> {
    let mut words = Words::new(line)?;
    let kind = words.next()?;
    out.write_all(kind.as_bytes())?;
    answer_calls(rt, alloc, kind, &mut words, out)?;
    out.write_all(b"\n")
}

fn main(rt: HostRuntime) -> io::Result<()> {
    let alloc = rt.alloc();
    let mut lines = BufReader::new(alloc, rt.reader())?;
    let mut out = BufWriter::new(alloc, io::writer(&rt))?;
    for _ in 0..u64::MAX {
        let Some(line) = next_case(alloc, &mut lines, &mut out)? else {
            break;
        };
        answer(&rt, alloc, line.as_slice(), &mut out)?;
    }
    out.flush()
}
