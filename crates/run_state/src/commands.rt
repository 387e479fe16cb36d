// The start of a run, and what commands do.

ghost use Rattle.std.specs.Prelude.{◌≡◌, ◌+◌, ◌<◌, ◌≤◌, ◌^◌, ℕ, [], ◌∷◌, ◌++◌, Some, IfOk, IfSome, OnOk, OnErr, length, slice_get, map, option_map, true, false};
ghost use Rattle.range_list.specs.Ranges.{Interval};
ghost use Rattle.run_history.specs.Commands.Command.{Drop as DropRange, Load, Steer};
ghost use Rattle.run_history.specs.Steps.{accepted, by_verdict, submitted};
ghost use Rattle.run_history.specs.Verdicts.{steer_refusal};
ghost use Rattle.run_history.specs.World.{World, job_of, nothing_loaded, start};
ghost use Rattle.run_state.specs.States.{IsStateOf, entry_at};
ghost use Rattle.run_state.specs.Numbered.{after_drop};
ghost use Rattle.run_state.specs.Orders.{IsQueued, KeepsData, MovesJob, products_of};
ghost use Rattle.run_state.specs.Answers.{products_left, products_steered, refusal_of, refused_by, steer_answer, steered_job, told, without_stop};
ghost use Rattle.job_machine.specs.Job.{next};
ghost use Rattle.run_history.specs.Verdicts.{act_of};
ghost use Rattle.run_history.specs.Steps.{steered_queue};
ghost use Rattle.job_list.specs.JobList.{has, without};

use crate::parts::{Controlled, JobEntry, RunState};
use crate::reads::place_of_job;
use crate::ready::ReadyHandle;
use crate::table::TableHandle;
use job_list::JobList;
use job_machine::{Job, JobKind, JobRefusal, JobState};
use range_list::Range;
use run_history::{Control, Refused};
use std::alloc::{AllocError, Global};

fn no_tables<T: TableHandle>(alloc: Global, tables: usize) -> Result<Vec<Option<T>>, AllocError>
    ensures { IfOk result (λ none. map (option_map T.rows) none.items ≡ nothing_loaded tables) }
{
    let mut none = Vec::new(alloc);
    for _table in 0..tables {
        none.push(None)?;
    }
    Ok(none)
}

/// The state before the first turn, of a cube with so many tables, which starts with a ready set of version 0.
pub fn new_state<T: TableHandle, P: Drop, R: ReadyHandle, Q: Drop>(
    alloc: Global,
    workers: u32,
    tables: usize,
    ready: R,
) -> Result<RunState<T, P, R, Q>, AllocError>
    requires { (R.ready_set ready).version ≡ 0 }
    ensures state { IfOk result (λ state. IsStateOf T.rows R.ready_set (start workers tables (R.ready_set ready).segments) state) }
    ensures products { IfOk result (λ state. products_of state ≡ []) }
    ensures ready { IfOk result (λ state. state.ready ≡ ready) }
{
    let loaded = no_tables(alloc, tables)?;
    let mut queue = JobList::new(alloc);
    queue.reserve(1)?;
    Ok(RunState {
        workers,
        line: 0,
        loaded,
        jobs: Vec::new(alloc),
        queue,
        steps: Vec::new(alloc),
        ready,
        waiting: Vec::new(alloc),
        asked: Vec::new(alloc),
        sessions: Vec::new(alloc),
        accepted: 0,
    })
}

/// The command of this line took effect, and is refused or changes nothing else. It takes no memory.
pub fn set_line<T: TableHandle, P: Drop, R: ReadyHandle, Q: Drop>(
    state: &mut RunState<T, P, R, Q>,
    line: u32,
)
    requires { state.old.line < line }
    ensures state { (w : World Q) → IsStateOf T.rows R.ready_set w state.old → IsStateOf T.rows R.ready_set (record w { line = line }) state.new }
    ensures kept { KeepsData state.old state.new }
{
    state.line = line;
}

/// Loads a table. It takes no memory.
pub fn load<T: TableHandle, P: Drop, R: ReadyHandle, Q: Drop>(
    state: &mut RunState<T, P, R, Q>,
    line: u32,
    table: usize,
    rows: T,
)
    requires above { state.old.line < line }
    requires there { table < length state.old.loaded.items }
    ensures state { (w : World Q) → IsStateOf T.rows R.ready_set w state.old → IsStateOf T.rows R.ready_set (accepted 0 (record w { line = line }) (Load table (T.rows rows))) state.new }
    ensures kept { KeepsData state.old state.new }
{
    state.line = line;
    state.loaded[table] = Some(rows);
}

/// Adds a job, last in the queue, and answers its number. Where no memory is found nothing is recorded.
pub fn submit<T: TableHandle, P: Drop, R: ReadyHandle, Q: Drop>(
    state: &mut RunState<T, P, R, Q>,
    alloc: Global,
    line: u32,
    kind: JobKind,
    steps: u32,
    range: Range,
) -> Result<u32, AllocError>
    requires above { state.old.line < line }
    requires queued { IsQueued state.old }
    requires steps { 0 < steps }
    requires few { length state.old.jobs.items + 2 < 2 ^ 32 }
    ensures number { IfOk result (λ number. number ≡ length state.old.jobs.items + 1) }
    ensures state { OnOk result ((w : World Q) → IsStateOf T.rows R.ready_set w state.old → IsStateOf T.rows R.ready_set (submitted (record w { line = line }) kind steps range) state.new) }
    ensures products { OnOk result (products_of state.new ≡ products_of state.old ++ [] ∷ []) }
    ensures ready { state.new.ready ≡ state.old.ready }
    ensures err { OnErr result ((w : World Q) → IsStateOf T.rows R.ready_set w state.old → IsStateOf T.rows R.ready_set w state.new) }
    ensures err_products { OnErr result (products_of state.new ≡ products_of state.old) }
{
    let number = state.jobs.len() as u32 + 1;
    state.queue.reserve(number + 1)?;
    let entry = JobEntry {
        job: Job::new(number, kind, steps),
        range,
        tables: None,
        products: Vec::new(alloc),
    };
    state.jobs.push(entry)?;
    state.line = line;
    state.queue.push_back(number);
    Ok(number)
}

/// A segment is dropped: the next ready set, which has it no longer, comes. It takes no memory.
pub fn drop_ready<T: TableHandle, P: Drop, R: ReadyHandle, Q: Drop>(
    state: &mut RunState<T, P, R, Q>,
    line: u32,
    next: R,
)
    requires { state.old.line < line }
    ensures state { (w : World Q) (range : Interval) → IsStateOf T.rows R.ready_set w state.old → R.ready_set next ≡ after_drop range (R.ready_set state.old.ready)
        → IsStateOf T.rows R.ready_set (accepted 0 (record w { line = line }) (DropRange range)) state.new }
    ensures products { products_of state.new ≡ products_of state.old }
    ensures ready { state.new.ready ≡ next }
{
    state.line = line;
    state.ready = next;
}

fn refused(refusal: JobRefusal) -> Refused
    ensures { result ≡ refused_by refusal }
{
    match refusal {
        JobRefusal::JobEnded(state) => Refused::JobEnded(state),
        JobRefusal::WrongState(state) => Refused::WrongState(state),
    }
}

// A job's answer, with the state that it is in.
fn told(answer: Result<Option<u32>, JobRefusal>, state: JobState) -> Result<Controlled, Refused>
    ensures { result ≡ told answer state }
{
    match answer {
        Ok(stop) => Ok(Controlled { state, stop }),
        Err(refusal) => Err(refused(refusal)),
    }
}

// A resume stops no attempt.
fn without_stop(answer: Result<(), JobRefusal>) -> Result<Option<u32>, JobRefusal>
    ensures { result ≡ without_stop answer }
{
    match answer {
        Ok(()) => Ok(None),
        Err(refusal) => Err(refusal),
    }
}

// What a command makes of one job.
fn steer_job(job: &mut Job, control: Control) -> Result<Controlled, Refused>
    ensures answer { result ≡ steered_job control job.old }
    ensures job { job.new ≡ next (act_of control) job.old }
{
    let answer = match control {
        Control::Pause => job.pause(),
        Control::Resume => without_stop(job.resume()),
        Control::Discard => job.discard(),
    };
    told(answer, job.state)
}

// The products of a job that is DISCARDED are kept no longer.
fn let_go<P: Drop>(products: &mut Vec<P>, control: Control, answer: &Result<Controlled, Refused>)
    ensures { products.new.items ≡ products_left control (refusal_of answer.now) products.old.items }
{
    if answer.is_err() {
        return;
    }
    match control {
        Control::Discard => products.clear(),
        Control::Pause | Control::Resume => {}
    }
}

fn steer_at<T, P: Drop>(
    jobs: &mut Vec<JobEntry<T, P>>,
    place: usize,
    control: Control,
) -> Result<Controlled, Refused>
    requires { place < length jobs.old.items }
    ensures answer { IfSome (slice_get jobs.old.items place) (λ entry. result ≡ steered_job control entry.job) }
    ensures job { MovesJob jobs.old.items jobs.new.items place (next (act_of control)) (products_left control (refusal_of result)) }
{
    let entry = &mut jobs[place];
    let answer = steer_job(&mut entry.job, control);
    let_go(&mut entry.products, control, &answer);
    answer
}

// Takes a job out of the queue, where it is there.
fn take_out(queue: &mut JobList, job: u32)
    ensures items { queue.new.items ≡ without job queue.old.items }
    ensures capacity { queue.new.capacity ≡ queue.old.capacity }
{
    if queue.contains(job) {
        queue.unlink(job);
    }
}

// The queue after a job was steered.
fn requeue(queue: &mut JobList, control: Control, job: u32)
    requires place { job < queue.old.capacity }
    requires resumed { control ≡ Control.Resume → has queue.old.items job ≡ false }
    ensures items { queue.new.items ≡ steered_queue control job queue.old.items }
    ensures capacity { queue.new.capacity ≡ queue.old.capacity }
{
    match control {
        Control::Resume => queue.push_back(job),
        Control::Pause => take_out(queue, job),
        Control::Discard => take_out(queue, job),
    }
}

/// Pauses, resumes or discards a job, or refuses to. Of a job that is discarded no product is kept. It takes no memory.
pub fn control_job<T: TableHandle, P: Drop, R: ReadyHandle, Q: Drop>(
    state: &mut RunState<T, P, R, Q>,
    line: u32,
    control: Control,
    job: u32,
) -> Result<Controlled, Refused>
    requires above { state.old.line < line }
    requires queued { IsQueued state.old }
    ensures answer { (w : World Q) → IsStateOf T.rows R.ready_set w state.old → result ≡ steer_answer control job (job_of w job) }
    ensures state { (w : World Q) → IsStateOf T.rows R.ready_set w state.old → IsStateOf T.rows R.ready_set (by_verdict (steer_refusal control job (job_of w job)) 0 (record w { line = line }) (Steer control job)) state.new }
    ensures products { products_of state.new ≡ products_steered control (refusal_of result) job (products_of state.old) }
    ensures ready { state.new.ready ≡ state.old.ready }
{
    state.line = line;
    let Some(place) = place_of_job(&state.jobs, job) else {
        return Err(Refused::NoSuchJob(job));
    };
    let answer = steer_at(&mut state.jobs, place, control);
    if answer.is_ok() {
        requeue(&mut state.queue, control, job);
    }
    answer
}
