// Calls on one job, with its state, its attempt and its steps done after each.

use crate::calls::put;
use check_lines::{Words, unknown_line};
use job_machine::{Job, JobKind};
use std::io;
use std::io::Write;

// Claims the next step, where the job waits for a claim.
fn claim<W: Write>(job: &mut Job, out: &mut W) -> io::Result<()> {
    if !job.claimable() || job.attempt == u32::MAX {
        return Err(unknown_line());
    }
    job.claim();
    out.write_all(b"; claimed")
}

// The end of an attempt.
fn answer_end<W: Write>(job: &mut Job, call: &str, attempt: u32, out: &mut W) -> io::Result<()> {
    match call {
        "ok" => put(out, &job.step_ok(attempt)),
        "failed" => put(out, &job.step_failed(attempt)),
        _ => Err(unknown_line()),
    }
}

fn answer_call<W: Write>(job: &mut Job, words: &mut Words<'_>, out: &mut W) -> io::Result<()> {
    match words.next()? {
        "claim" => claim(job, out),
        "pause" => put(out, &job.pause()),
        "resume" => put(out, &job.resume()),
        "discard" => put(out, &job.discard()),
        call => answer_end(job, call, words.number()?, out),
    }
}

/// A BUILD of so many steps, and calls on it.
pub fn answer_job<W: Write>(words: &mut Words<'_>, out: &mut W) -> io::Result<()> {
    let steps = words.number()?;
    if steps == 0 {
        return Err(unknown_line());
    }
    let mut job = Job::new(1, JobKind::Build, steps);
    for _ in 0..u64::MAX {
        if words.is_empty() {
            break;
        }
        answer_call(&mut job, words, out)?;
        write!(out, " {} {} {}", job.state, job.attempt, job.done)?;
    }
    Ok(())
}
