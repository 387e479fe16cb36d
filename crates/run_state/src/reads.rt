// What is asked of a state.

ghost use Rattle.std.specs.Prelude.{◌≡◌, ◌+◌, ◌<◌, ◌↔◌, ℕ, true, not, Some, None, IfSome, length};
ghost use Rattle.std.specs.List.{list_any};
ghost use Rattle.job_machine.specs.Job.{is_current};
ghost use Rattle.run_history.specs.Histories.{MayNote, is_settled};
ghost use Rattle.run_history.specs.World.{World, is_under_way};
ghost use Rattle.run_state.specs.States.{IsStateOf, entry_at};
ghost use Rattle.run_state.specs.Orders.{is_current_at, is_last_at, is_under_way_at};

use crate::parts::{JobEntry, RunState};
use crate::ready::ReadyHandle;
use crate::table::TableHandle;
use job_machine::{Job, JobState};
use run_history::Noted;

/// The place of a job among the jobs; `None` exactly where no such job is.
pub fn place_of_job<T, P>(jobs: &[JobEntry<T, P>], job: u32) -> Option<usize>
    ensures none { result ≡ None → entry_at jobs.now job ≡ None }
    ensures some { IfSome result (λ place. (place + 1 ≡ job) × (place < length jobs.now)) }
{
    if job == 0 || job as usize > jobs.len() {
        return None;
    }
    Some(job as usize - 1)
}

// The end of this attempt counts.
fn counts(job: &Job, attempt: u32) -> bool
    ensures { result ≡ is_current job.now attempt }
{
    match job.state {
        JobState::Running => job.in_flight && job.attempt == attempt,
        JobState::Pending
        | JobState::Error
        | JobState::Stopped
        | JobState::Discarded
        | JobState::Finished => false,
    }
}

/// Whether the end of this attempt of the job counts.
pub fn is_current<T, P>(jobs: &[JobEntry<T, P>], job: u32, attempt: u32) -> bool
    ensures { result ≡ is_current_at (entry_at jobs.now job) attempt }
{
    let Some(place) = place_of_job(jobs, job) else {
        return false;
    };
    let entry = &jobs[place];
    counts(&entry.job, attempt)
}

/// Whether the next step of the job is its last.
pub fn is_last_step<T, P>(jobs: &[JobEntry<T, P>], job: u32) -> bool
    ensures { result ≡ is_last_at (entry_at jobs.now job) }
{
    let Some(place) = place_of_job(jobs, job) else {
        return false;
    };
    let entry = &jobs[place];
    entry.job.steps - entry.job.done == 1
}

fn under_way(job: &Job) -> bool
    ensures { result ≡ is_under_way job.now.state }
{
    match job.state {
        JobState::Pending | JobState::Running => true,
        JobState::Error | JobState::Stopped | JobState::Discarded | JobState::Finished => false,
    }
}

// Whether no such job is PENDING or RUNNING.
fn rests<T, P>(jobs: &[JobEntry<T, P>], job: u32) -> bool
    ensures { result ≡ not (is_under_way_at (entry_at jobs.now job)) }
{
    let Some(place) = place_of_job(jobs, job) else {
        return true;
    };
    let entry = &jobs[place];
    !under_way(&entry.job)
}

// Whether some job is PENDING or RUNNING.
fn any_under_way<T, P>(jobs: &[JobEntry<T, P>]) -> bool
    ensures { result ≡ list_any (λ entry. is_under_way entry.job.state) jobs.now }
{
    jobs.iter().any(|entry| under_way(&entry.job))
}

/// Whether what a command waits for is there.
pub fn may_note<T: TableHandle, P: Drop, R: ReadyHandle, Q: Drop>(
    state: &RunState<T, P, R, Q>,
    noted: &Noted,
) -> bool
    ensures { (w : World Q) → IsStateOf T.rows R.ready_set w state.now → (result ≡ true) ↔ MayNote w noted.now }
{
    match noted {
        Noted::AwaitJob(job) => rests(&state.jobs, *job),
        Noted::AwaitJobs => !any_under_way(&state.jobs),
        Noted::AwaitQueries => state.waiting.is_empty() && state.asked.is_empty(),
        Noted::Other => true,
    }
}

/// Whether the queue is empty, nothing is in flight, and no query waits.
pub fn is_settled<T: TableHandle, P: Drop, R: ReadyHandle, Q: Drop>(
    state: &RunState<T, P, R, Q>,
) -> bool
    ensures { (w : World Q) → IsStateOf T.rows R.ready_set w state.now → result ≡ is_settled w }
{
    if !state.queue.is_empty() {
        return false;
    }
    if !state.steps.is_empty() {
        return false;
    }
    if !state.waiting.is_empty() {
        return false;
    }
    state.asked.is_empty()
}
