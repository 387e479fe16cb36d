// Files, children and stop requests, as the system has them.

use crate::files::answer_all;
use crate::given::{put_answer, put_done};
use crate::hands::Unwrapping;
use check_lines::{Words, unescaped};
use os_objects::{OsFiles, OsStopper, ProcHand};
use outside::{Files, Hand, HandFault, Stopper};
use std::alloc::Global;
use std::io;
use std::io::Write;
use std::process::Processes;
use std::sync::Wait;
use std::thread::Threads;

/// Calls on the files of the system.
pub(crate) fn answer_system<R: std::rt::Files, W: Write>(
    rt: &R,
    alloc: Global,
    words: &mut Words<'_>,
    out: &mut W,
) -> io::Result<()> {
    answer_all(alloc, &mut OsFiles::new(rt), words, out)
}

/// Asks an attempt to stop.
pub(crate) fn answer_stop<R: std::rt::Files, W: Write>(
    rt: &R,
    alloc: Global,
    words: &mut Words<'_>,
    out: &mut W,
) -> io::Result<()> {
    let job = words.number()?;
    let attempt = words.number()?;
    put_done(out, &OsStopper::new(rt).stop(alloc, job, attempt))
}

// What a hand that starts the program answers to attempt 1 of job 1.
fn run_child<R: Threads + Wait + Sync + Processes + std::rt::Files + Copy>(
    rt: &R,
    alloc: Global,
    program: String,
) -> Result<Vec<u8>, HandFault> {
    let mut hand = ProcHand::new(*rt, program);
    Hand::<Unwrapping>::run(&mut hand, rt, alloc, 1, 1, b"task")
}

// Writes the script to its file.
fn put_script<R: std::rt::Files, W: Write>(
    rt: &R,
    alloc: Global,
    script: &str,
    out: &mut W,
) -> io::Result<()> {
    let bytes = unescaped(alloc, script)?;
    put_done(
        out,
        &OsFiles::new(rt).write(alloc, "step", bytes.as_slice()),
    )
}

/// Starts a program, over a script `step` that stands where it runs.
pub(crate) fn answer_child<R: Threads + Wait + Sync + Processes + std::rt::Files + Copy, W: Write>(
    rt: &R,
    alloc: Global,
    words: &mut Words<'_>,
    out: &mut W,
) -> io::Result<()> {
    let program = words.next()?;
    put_script(rt, alloc, words.rest(), out)?;
    let program = String::from_str(alloc, program)?;
    put_answer(out, &run_child(rt, alloc, program))
}
