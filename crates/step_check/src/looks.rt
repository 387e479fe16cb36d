// How often a step looks at its watch.

ghost use Rattle.std.specs.Prelude.{None};

use byte_frame::{FrameHead, put_frame};
use check_lines::{Words, bytes_of, out_of_memory};
use outside::{Watch, WorkFault};
use std::alloc::Global;
use std::io;
use std::io::Write;
use std::thread::Threads;
use step_task::run_step;

// A watch that counts how often it is asked, and sees a stop at one of these looks.
#[derive(Drop)]
struct CountingWatch {
    looks: u64,
    stop: u64,
}

impl Watch for CountingWatch {
    ghost seen = { λ w. w.looks };

    ghost there = { λ _. None };

    ghost held = { λ _. None };

    ghost place = { λ _. None };

    fn asked(&mut self) -> bool {
        if self.looks == u64::MAX {
            return false;
        }
        self.looks += 1;
        self.looks == self.stop
    }
}

// What a step came to.
fn word_of(done: Result<Vec<u8>, WorkFault>) -> io::Result<&'static str> {
    match done {
        Ok(_) => Ok("done"),
        Err(WorkFault::BadTask) => Ok("BadTask"),
        Err(WorkFault::Stopped) => Ok("Stopped"),
        Err(WorkFault::Memory) => Err(out_of_memory()),
    }
}

// Does the step of a task, and writes how often it looked and what it came to.
fn answer_task<R: Threads + Sync, W: Write>(
    rt: &R,
    alloc: Global,
    stop: u32,
    task: &[u8],
    out: &mut W,
) -> io::Result<()> {
    let mut watch = CountingWatch {
        looks: 0,
        stop: u64::from(stop),
    };
    let word = word_of(run_step(rt, alloc, task, &mut watch))?;
    writeln!(out, "{} looks, {word}", watch.looks)
}

/// Answers a line `looks`: a number and the file of a task. The watch sees a stop at the look with the number, and none at 0.
pub(crate) fn answer_looks<R: Threads + Sync, W: Write>(
    rt: &R,
    alloc: Global,
    line: &[u8],
    out: &mut W,
) -> io::Result<()> {
    let mut words = Words::new(line)?;
    let stop = words.number()?;
    let task = bytes_of(alloc, words.next()?.as_bytes())?;
    answer_task(rt, alloc, stop, task.as_slice(), out)
}

// The bytes of three words, those of the second so many times; the third may be left out.
fn repeated(alloc: Global, count: u32, words: &mut Words<'_>) -> io::Result<Vec<u8>> {
    let mut body = bytes_of(alloc, words.next()?.as_bytes())?;
    let row = bytes_of(alloc, words.next()?.as_bytes())?;
    for _ in 0..count {
        body.extend_from_slice(row.as_slice())?;
    }
    let rest = bytes_of(alloc, words.rest().as_bytes())?;
    body.extend_from_slice(rest.as_slice())?;
    Ok(body)
}

/// Answers a line `many`: the number of a look as in a line `looks`, how many rows there are, what stands in front of them, a row, and
/// what stands behind them. The task is the frame of this body.
pub(crate) fn answer_many<R: Threads + Sync, W: Write>(
    rt: &R,
    alloc: Global,
    line: &[u8],
    out: &mut W,
) -> io::Result<()> {
    let mut words = Words::new(line)?;
    let stop = words.number()?;
    let count = words.number()?;
    let body = repeated(alloc, count, &mut words)?;
    let head = FrameHead {
        version: 1,
        task: [0; 32],
    };
    let task = put_frame(alloc, &head, body.as_slice())?;
    answer_task(rt, alloc, stop, task.as_slice(), out)
}
