// What is listed of the jobs of a board.

ghost use Rattle.std.specs.Prelude.{◌≡◌, ◌<◌, ◌^◌, IfOk, count_by, length, map};
ghost use Rattle.run_history.specs.World.{count_in};
ghost use Rattle.run_state.specs.States.{submitted_of};
ghost use Rattle.job_board.specs.Ledger.{rows_seen};
ghost use Rattle.run_transcript.specs.Entries.{job_line, is_discarded, is_finished, is_in_error, is_stopped, tally_of};

use job_board::BoardJob;
use job_machine::JobState;
use script_text::{JobLine, Tally};
use std::alloc::{AllocError, Global};

// Whether a job is FINISHED.
fn is_finished(state: JobState) -> bool
    ensures { result ≡ is_finished state }
{
    match state {
        JobState::Finished => true,
        _ => false,
    }
}

// Whether a job is in ERROR.
fn is_in_error(state: JobState) -> bool
    ensures { result ≡ is_in_error state }
{
    match state {
        JobState::Error => true,
        _ => false,
    }
}

// Whether a job is STOPPED.
fn is_stopped(state: JobState) -> bool
    ensures { result ≡ is_stopped state }
{
    match state {
        JobState::Stopped => true,
        _ => false,
    }
}

// Whether a job is DISCARDED.
fn is_discarded(state: JobState) -> bool
    ensures { result ≡ is_discarded state }
{
    match state {
        JobState::Discarded => true,
        _ => false,
    }
}

// How many jobs are FINISHED.
fn finished_in(jobs: &[BoardJob]) -> u32
    requires { length jobs.now < 2 ^ 32 }
    ensures { result ≡ count_by (λ entry. is_finished entry.job.state) jobs.now }
{
    jobs.iter()
        .filter(|entry| is_finished(entry.job.state))
        .count() as u32
}

// How many jobs are in ERROR.
fn in_error_in(jobs: &[BoardJob]) -> u32
    requires { length jobs.now < 2 ^ 32 }
    ensures { result ≡ count_by (λ entry. is_in_error entry.job.state) jobs.now }
{
    jobs.iter()
        .filter(|entry| is_in_error(entry.job.state))
        .count() as u32
}

// How many jobs are STOPPED.
fn stopped_in(jobs: &[BoardJob]) -> u32
    requires { length jobs.now < 2 ^ 32 }
    ensures { result ≡ count_by (λ entry. is_stopped entry.job.state) jobs.now }
{
    jobs.iter()
        .filter(|entry| is_stopped(entry.job.state))
        .count() as u32
}

// How many jobs are DISCARDED.
fn discarded_in(jobs: &[BoardJob]) -> u32
    requires { length jobs.now < 2 ^ 32 }
    ensures { result ≡ count_by (λ entry. is_discarded entry.job.state) jobs.now }
{
    jobs.iter()
        .filter(|entry| is_discarded(entry.job.state))
        .count() as u32
}

/// How many jobs rest in each state.
pub fn tally_of(jobs: &[BoardJob]) -> Tally
    requires { length jobs.now < 2 ^ 32 }
    ensures { result ≡ tally_of (map (submitted_of rows_seen) jobs.now) }
{
    Tally {
        finished: finished_in(jobs),
        error: in_error_in(jobs),
        stopped: stopped_in(jobs),
        discarded: discarded_in(jobs),
    }
}

// The line of a job.
fn job_line(entry: &BoardJob) -> JobLine
    ensures { result ≡ job_line (submitted_of rows_seen entry.now) }
{
    JobLine {
        id: entry.job.id,
        kind: entry.job.kind,
        range: entry.range,
        state: entry.job.state,
        done: entry.job.done,
        steps: entry.job.steps,
    }
}

/// The lines of the jobs by number.
pub fn job_lines(alloc: Global, jobs: &[BoardJob]) -> Result<Vec<JobLine>, AllocError>
    ensures { IfOk result (λ lines. lines.items ≡ map job_line (map (submitted_of rows_seen) jobs.now)) }
{
    let mut lines = Vec::new(alloc);
    for entry in jobs {
        lines.push(job_line(entry))?;
    }
    Ok(lines)
}
