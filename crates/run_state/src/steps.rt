// Claims, and the ends of steps.

ghost use Rattle.std.specs.Prelude.{◌≡◌, ◌+◌, ◌-◌, ◌<◌, ◌^◌, ℕ, true, false, [], ◌∷◌, ◌++◌, Some, IfOk, OnOk, OnErr, All, map, option_map, length, slice_get, slice_set, unwrap_or, IfSome, ◌==◌, ◌&&◌, position};
ghost use Rattle.job_machine.specs.Job.{after_end, ended_failed, is_claimable};
ghost use Rattle.run_history.specs.Histories.{IsNextAttempt};
ghost use Rattle.run_history.specs.Steps.{claimed, step_ended, without_claim};
ghost use Rattle.run_history.specs.World.{Submitted, World, job_of};
ghost use Rattle.run_history.specs.declared.event.Outcome.{Outcome};
ghost use Rattle.run_history.specs.declared.event.Outcome.TheVariants.{Done};
ghost use Rattle.run_state.specs.Answers.{is_failure};
ghost use Rattle.run_state.specs.Numbered.{after_swap, segment_of};
ghost use Rattle.run_state.specs.Orders.{ChangesJob, ClaimsJob, EndsJob, SameJobs, IsQueued, KeepsData, is_current_at, is_last_at, products_of};
ghost use Rattle.run_state.specs.States.{IsStateOf, claim_of, entry_at, rows_in_force, snapshot_of};

use crate::parts::{Claim, JobEntry, RunState};
use crate::ready::ReadyHandle;
use crate::room::put;
use crate::table::TableHandle;
use std::alloc::{AllocError, Global};

// A copy of a handle, where there is one.
fn copy_of<T: TableHandle>(table: &Option<T>) -> Result<Option<T>, AllocError>
    ensures { IfOk result (λ copied. option_map T.rows copied ≡ option_map T.rows table.now) }
{
    match table {
        None => Ok(None),
        Some(table) => {
            let copied = table.copy()?;
            Ok(Some(copied))
        }
    }
}

/// Other handles of the same tables.
pub fn copied_tables<T: TableHandle>(
    alloc: Global,
    tables: &[Option<T>],
) -> Result<Vec<Option<T>>, AllocError>
    ensures { IfOk result (λ copied. map (option_map T.rows) copied.items ≡ map (option_map T.rows) tables.now) }
{
    let mut copied = Vec::new(alloc);
    for table in tables {
        let copy = copy_of(table)?;
        copied.push(copy)?;
    }
    Ok(copied)
}

// The tables of a job's first claim: those in force, where it is this claim.
fn first_tables<T: TableHandle>(
    alloc: Global,
    tables: &mut Option<Vec<Option<T>>>,
    loaded: &[Option<T>],
) -> Result<(), AllocError>
    ensures ok { OnOk result (snapshot_of T.rows tables.new ≡ Some (unwrap_or (snapshot_of T.rows tables.old) (rows_in_force T.rows loaded.now))) }
    ensures err { OnErr result (tables.new ≡ tables.old) }
{
    if tables.is_none() {
        let snapshot = copied_tables(alloc, loaded)?;
        *tables = Some(snapshot);
    }
    Ok(())
}

// Claims the job at a place, and answers its attempt.
fn claim_at<T: TableHandle, P>(
    jobs: &mut Vec<JobEntry<T, P>>,
    alloc: Global,
    place: usize,
    loaded: &[Option<T>],
) -> Result<u32, AllocError>
    requires place { place < length jobs.old.items }
    requires claimable { IfSome (slice_get jobs.old.items place) (λ entry. is_claimable entry.job ≡ true) }
    requires attempt { IfSome (slice_get jobs.old.items place) (λ entry. entry.job.attempt + 1 < 2 ^ 32) }
    ensures attempt { IfOk result (λ attempt. IfSome (slice_get jobs.old.items place) (λ entry. attempt ≡ entry.job.attempt + 1)) }
    ensures job { OnOk result (ClaimsJob T.rows jobs.old.items jobs.new.items place (rows_in_force T.rows loaded.now)) }
    ensures err { OnErr result (jobs.new.items ≡ jobs.old.items) }
{
    let entry = &mut jobs[place];
    first_tables(alloc, &mut entry.tables, loaded)?;
    entry.job.claim();
    Ok(entry.job.attempt)
}

/// Claims the first job of the queue, and answers the attempt. Where no memory is found nothing is recorded.
pub fn claim<T: TableHandle, P: Drop, R: ReadyHandle, Q: Drop>(
    state: &mut RunState<T, P, R, Q>,
    alloc: Global,
    job: u32,
) -> Result<u32, AllocError>
    requires queued { IsQueued state.old }
    requires first { slice_get state.old.queue.items 0 ≡ Some job }
    requires attempts { All (λ entry. entry.job.attempt + 1 < 2 ^ 32) state.old.jobs.items }
    ensures attempt { IfOk result (λ attempt. (w : World Q) → IsStateOf T.rows R.ready_set w state.old → IsNextAttempt (job_of w job) attempt) }
    ensures state { IfOk result (λ attempt. (w : World Q) → IsStateOf T.rows R.ready_set w state.old → IsStateOf T.rows R.ready_set (claimed w job attempt (job_of w job)) state.new) }
    ensures kept { KeepsData state.old state.new }
    ensures err { OnErr result ((w : World Q) → IsStateOf T.rows R.ready_set w state.old → IsStateOf T.rows R.ready_set w state.new) }
{
    state.steps.reserve(1)?;
    let place = job as usize - 1;
    let attempt = claim_at(&mut state.jobs, alloc, place, &state.loaded)?;
    state.queue.pop_front();
    put(&mut state.steps, Claim { job, attempt });
    Ok(attempt)
}

// The place of the first claim of this attempt.
fn place_of_claim(steps: &[Claim], job: u32, attempt: u32) -> Option<usize>
    ensures { result ≡ position (λ claim. (claim.job == job) && (claim.attempt == attempt)) steps.now }
{
    steps
        .iter()
        .position(|claim| claim.job == job && claim.attempt == attempt)
}

// Takes out the first claim of this attempt.
fn remove_claim(steps: &mut Vec<Claim>, job: u32, attempt: u32)
    ensures { map claim_of steps.new.items ≡ without_claim job attempt (map claim_of steps.old.items) }
{
    if let Some(place) = place_of_claim(steps, job, attempt) {
        steps.remove(place);
    }
}

/// The end of an attempt that doesn't count. It takes no memory.
pub fn end_stale<T: TableHandle, P: Drop, R: ReadyHandle, Q: Drop>(
    state: &mut RunState<T, P, R, Q>,
    job: u32,
    attempt: u32,
)
    requires { is_current_at (entry_at state.old.jobs.items job) attempt ≡ false }
    ensures state { (w : World Q) (outcome : Outcome) → IsStateOf T.rows R.ready_set w state.old → IsStateOf T.rows R.ready_set (step_ended (record w { steps = without_claim job attempt w.steps }) job attempt outcome (job_of w job)) state.new }
    ensures kept { KeepsData state.old state.new }
{
    remove_claim(&mut state.steps, job, attempt);
}

fn fail_at<T, P>(jobs: &mut Vec<JobEntry<T, P>>, place: usize, attempt: u32)
    requires { place < length jobs.old.items }
    ensures { ChangesJob jobs.old.items jobs.new.items place (λ job. after_end (ended_failed job attempt) job) }
{
    let entry = &mut jobs[place];
    entry.job.step_failed(attempt);
}

/// The end of an attempt that counts and fails. It takes no memory.
pub fn end_failed<T: TableHandle, P: Drop, R: ReadyHandle, Q: Drop>(
    state: &mut RunState<T, P, R, Q>,
    job: u32,
    attempt: u32,
)
    requires { is_current_at (entry_at state.old.jobs.items job) attempt ≡ true }
    ensures state { (w : World Q) (outcome : Outcome) → is_failure outcome ≡ true → IsStateOf T.rows R.ready_set w state.old → IsStateOf T.rows R.ready_set (step_ended (record w { steps = without_claim job attempt w.steps }) job attempt outcome (job_of w job)) state.new }
    ensures kept { KeepsData state.old state.new }
{
    let place = job as usize - 1;
    fail_at(&mut state.jobs, place, attempt);
    remove_claim(&mut state.steps, job, attempt);
}

// Keeps a product, and answers whether memory was found for it.
fn keep_product<P: Drop>(products: &mut Vec<P>, product: P) -> Result<(), AllocError>
    ensures ok { OnOk result (products.new.items ≡ products.old.items ++ product ∷ []) }
    ensures err { OnErr result (products.new.items ≡ products.old.items) }
{
    products.push(product)?;
    Ok(())
}

fn advance_at<T: Drop, P: Drop>(
    jobs: &mut Vec<JobEntry<T, P>>,
    place: usize,
    attempt: u32,
    product: P,
) -> Result<(), AllocError>
    requires { place < length jobs.old.items }
    ensures ok { OnOk result (EndsJob jobs.old.items jobs.new.items place attempt (λ products. products ++ product ∷ [])) }
    ensures err { OnErr result (SameJobs jobs.old.items jobs.new.items) }
{
    let entry = &mut jobs[place];
    keep_product(&mut entry.products, product)?;
    entry.job.step_ok(attempt);
    Ok(())
}

/// The success of a step that isn't the last: its product is kept. Where no memory is found nothing is recorded.
pub fn end_advanced<T: TableHandle, P: Drop, R: ReadyHandle, Q: Drop>(
    state: &mut RunState<T, P, R, Q>,
    job: u32,
    attempt: u32,
    product: P,
) -> Result<(), AllocError>
    requires queued { IsQueued state.old }
    requires current { is_current_at (entry_at state.old.jobs.items job) attempt ≡ true }
    requires more { is_last_at (entry_at state.old.jobs.items job) ≡ false }
    ensures state { OnOk result ((w : World Q) → IsStateOf T.rows R.ready_set w state.old → IsStateOf T.rows R.ready_set (step_ended (record w { steps = without_claim job attempt w.steps }) job attempt Done (job_of w job)) state.new) }
    ensures products { OnOk result (products_of state.new ≡ slice_set (products_of state.old) (job - 1) (unwrap_or (slice_get (products_of state.old) (job - 1)) [] ++ product ∷ [])) }
    ensures ready { state.new.ready ≡ state.old.ready }
    ensures err { OnErr result ((w : World Q) → IsStateOf T.rows R.ready_set w state.old → IsStateOf T.rows R.ready_set w state.new) }
    ensures err_products { OnErr result (products_of state.new ≡ products_of state.old) }
{
    let place = job as usize - 1;
    advance_at(&mut state.jobs, place, attempt, product)?;
    state.queue.push_back(job);
    remove_claim(&mut state.steps, job, attempt);
    Ok(())
}

// The products of a job that is FINISHED are kept no longer.
fn finish_at<T, P: Drop>(jobs: &mut Vec<JobEntry<T, P>>, place: usize, attempt: u32)
    requires { place < length jobs.old.items }
    ensures { EndsJob jobs.old.items jobs.new.items place attempt (λ products. []) }
{
    let entry = &mut jobs[place];
    entry.products.clear();
    entry.job.step_ok(attempt);
}

/// The success of a last step: the next ready set comes, with the job's segment in place of those inside its range. It takes no memory.
pub fn end_finished<T: TableHandle, P: Drop, R: ReadyHandle, Q: Drop>(
    state: &mut RunState<T, P, R, Q>,
    job: u32,
    attempt: u32,
    next: R,
)
    requires current { is_current_at (entry_at state.old.jobs.items job) attempt ≡ true }
    requires last { is_last_at (entry_at state.old.jobs.items job) ≡ true }
    requires swapped { (w : World Q) → IsStateOf T.rows R.ready_set w state.old → (s : Submitted) → job_of w job ≡ Some s → R.ready_set next ≡ after_swap (segment_of w job s) (R.ready_set state.old.ready) }
    ensures state { (w : World Q) → IsStateOf T.rows R.ready_set w state.old → IsStateOf T.rows R.ready_set (step_ended (record w { steps = without_claim job attempt w.steps }) job attempt Done (job_of w job)) state.new }
    ensures products { products_of state.new ≡ slice_set (products_of state.old) (job - 1) [] }
    ensures ready { state.new.ready ≡ next }
{
    let place = job as usize - 1;
    finish_at(&mut state.jobs, place, attempt);
    state.ready = next;
    remove_claim(&mut state.steps, job, attempt);
}
