// The ends of steps.

ghost use Rattle.std.specs.Prelude.{◌≡◌, ◌+◌, ◌-◌, ◌<◌, ◌^◌, [], true, false, None, Some, Ok, IfErr, IfOk, MatchResult, OnErr, OnOk, length, slice_set, unwrap_or};
ghost use Rattle.byte_frame.specs.Exact.{IsBytes};
ghost use Rattle.fixed_cube.specs.Products.{IfDamaged};
ghost use Rattle.fixed_cube.specs.Tasks.{product_in};
ghost use Rattle.range_list.specs.Ranges.{IsFree};
ghost use Rattle.run_history.specs.Cubes.{Snapshot};
ghost use Rattle.run_history.specs.Invariants.{ranges_of};
ghost use Rattle.run_history.specs.World.{Submitted, World, job_of};
ghost use Rattle.run_history.specs.declared.event.Outcome.TheVariants.{Done};
ghost use Rattle.plain_answer.specs.declared.ask.Ask.{Ask as Query};
ghost use Rattle.run_state.specs.Answers.{is_failure};
ghost use Rattle.run_state.specs.Numbered.{after_swap, segment_of};
ghost use Rattle.run_state.specs.Orders.{KeepsData, is_current_at, is_last_at, products_of};
ghost use Rattle.run_state.specs.States.{entry_at, rows_in_force, snapshot_of};
ghost use Rattle.fixed_state.specs.Ends.{IsJudged, IsOutcomeOf, IsProductOf, ended_at, kept_of, outcome_of, products_after, stale_outcome, world_ended};
ghost use Rattle.fixed_state.specs.Kept.{AreKept, IsFixedState};
ghost use Rattle.fixed_state.specs.Ready.{IsPlaced, rows_seen};
ghost use Rattle.fixed_state.specs.States.{StandsFor, cells_of, segment_at};
ghost use Rattle.fixed_state.specs.Tasks.{task_kept};

use crate::FixedState;
use crate::cells::SharedCells;
use crate::product::KeptProduct;
use crate::ready::{FixedReady, KeptSegment};
use crate::table::SharedTable;
use fixed_cube::{FixedCells, FixedProduct, ProductFault, next_task, read_product};
use outside::{HandFault, Honest};
use run_history::Outcome;
use run_state::{
    JobEntry, copied_tables, end_advanced, end_failed, end_finished, end_stale, is_current,
    is_last_step,
};
use std::alloc::{AllocError, Global};

/// What is recorded of a hand's fault.
pub fn outcome_of(fault: HandFault) -> Outcome
    ensures { result ≡ outcome_of fault }
{
    match fault {
        HandFault::Memory => Outcome::Memory,
        HandFault::NotStarted => Outcome::NotStarted,
        HandFault::Ended(status) => Outcome::Ended(status),
        HandFault::Killed => Outcome::Killed,
        HandFault::NoFile => Outcome::NoFile,
    }
}

fn stale_outcome(answer: &Result<Vec<u8>, HandFault>) -> Outcome
    ensures { result ≡ stale_outcome answer.now }
{
    match answer {
        Ok(_) => Outcome::Done,
        Err(fault) => outcome_of(*fault),
    }
}

// The product that bytes are of the next step, of which these products are kept. Of a first task its first byte says what its products are.
fn read_next(
    alloc: Global,
    kept: &[KeptProduct],
    bytes: &[u8],
) -> Result<FixedProduct, ProductFault>
    requires { length kept.now < 255 }
    ensures bytes { IsBytes bytes.now }
    ensures product { (snapshot : Snapshot) → MatchResult result (λ product. product_in (task_kept snapshot kept.now) bytes.now ≡ Some product) (λ fault. IfDamaged fault (product_in (task_kept snapshot kept.now) bytes.now ≡ None)) }
{
    let done = kept.len();
    if done == 0 {
        return read_product(alloc, &[1], bytes);
    }
    let product = &kept[done - 1];
    match next_task(alloc, done as u8, product.bytes()) {
        Ok(task) => read_product(alloc, &task, bytes),
        Err(_) => Err(ProductFault::Memory),
    }
}

// Other handles of the tables of a job's first claim.
fn tables_of(
    alloc: Global,
    tables: &Option<Vec<Option<SharedTable>>>,
) -> Result<Vec<Option<SharedTable>>, AllocError>
    ensures { IfOk result (λ copied. rows_in_force rows_seen copied.items ≡ unwrap_or (snapshot_of rows_seen tables.now) []) }
{
    match tables {
        Some(tables) => copied_tables(alloc, tables),
        None => Ok(Vec::new(alloc)),
    }
}

// The ready set with the segment that a job makes.
fn next_ready(
    alloc: Global,
    ready: &FixedReady,
    entry: &JobEntry<SharedTable, KeptProduct>,
    job: u32,
    cells: FixedCells,
) -> Result<FixedReady, AllocError>
    requires free { IsFree (ranges_of ready.now.set.segments) entry.now.range }
    requires version { ready.now.set.version + 1 < 2 ^ 32 }
    ensures set { IfOk result (λ next. next.set ≡ after_swap (segment_at entry.now job) ready.now.set) }
    ensures placed { IfOk result (λ next. IsPlaced (segment_at entry.now job) ready.now.set.segments next.set.segments cells ready.now.cells next.cells) }
{
    let tables = tables_of(alloc, &entry.tables)?;
    let cells = SharedCells::new(alloc, cells)?;
    let segment = KeptSegment {
        range: entry.range,
        job,
        tables,
        cells,
    };
    ready.with(alloc, segment)
}

// The success of a last step.
fn keep_cells<H: Honest>(
    state: &mut FixedState,
    alloc: Global,
    job: u32,
    attempt: u32,
    cells: FixedCells,
) -> Result<(), AllocError>
    requires fixed_state { IsFixedState H.honest state.old }
    requires current { is_current_at (entry_at state.old.jobs.items job) attempt ≡ true }
    requires last { is_last_at (entry_at state.old.jobs.items job) ≡ true }
    requires version { state.old.ready.set.version + 1 < 2 ^ 32 }
    ensures state { OnOk result ((w : World Query) → StandsFor w state.old → StandsFor (world_ended w job attempt Done) state.new) }
    ensures products { OnOk result (products_of state.new ≡ slice_set (products_of state.old) (job - 1) []) }
    ensures cells { OnOk result ((w : World Query) → StandsFor w state.old → (s : Submitted) → job_of w job ≡ Some s → IsPlaced (segment_of w job s) w.ready (world_ended w job attempt Done).ready cells (cells_of state.old) (cells_of state.new)) }
    ensures err { OnErr result ((w : World Query) → StandsFor w state.old → StandsFor w state.new) }
    ensures err_kept { OnErr result (KeepsData state.old state.new) }
{
    let place = job as usize - 1;
    let entry = &state.jobs[place];
    match next_ready(alloc, &state.ready, entry, job, cells) {
        Ok(next) => {
            end_finished(state, job, attempt, next);
            Ok(())
        }
        Err(e) => Err(e),
    }
}

// A product that was read is kept.
fn keep<H: Honest>(
    state: &mut FixedState,
    alloc: Global,
    job: u32,
    attempt: u32,
    bytes: Vec<u8>,
    product: FixedProduct,
) -> Result<(), AllocError>
    requires fixed_state { IsFixedState H.honest state.old }
    requires current { is_current_at (entry_at state.old.jobs.items job) attempt ≡ true }
    requires version { state.old.ready.set.version + 1 < 2 ^ 32 }
    requires product { (snapshot : Snapshot) → product_in (task_kept snapshot (kept_of (products_of state.old) job)) bytes.items ≡ Some product }
    requires bytes { IsBytes bytes.items }
    ensures state { OnOk result ((w : World Query) → StandsFor w state.old → StandsFor (world_ended w job attempt Done) state.new) }
    ensures kept { OnOk result ((w : World Query) → StandsFor w state.old → AreKept H.honest w (products_of state.old) (cells_of state.old) → (H.honest → IsProductOf w (job_of w job) attempt (Ok bytes)) → AreKept H.honest (world_ended w job attempt Done) (products_of state.new) (cells_of state.new)) }
    ensures products { OnOk result (products_of state.new ≡ products_after (ended_at (entry_at state.old.jobs.items job) attempt Done) job (Ok bytes) (products_of state.old)) }
    ensures err { OnErr result ((w : World Query) → StandsFor w state.old → StandsFor w state.new) }
    ensures err_kept { OnErr result (KeepsData state.old state.new) }
{
    if !is_last_step(&state.jobs, job) {
        return end_advanced(state, job, attempt, KeptProduct::of(bytes));
    }
    match product {
        FixedProduct::Cells(cells) => keep_cells::<H>(state, alloc, job, attempt, cells),
        FixedProduct::Rows(_) => unreachable!(),
    }
}

// The product of a step, as a hand gave it, is kept; or why it isn't.
fn take_product<H: Honest>(
    state: &mut FixedState,
    alloc: Global,
    job: u32,
    attempt: u32,
    bytes: Vec<u8>,
) -> Result<(), Outcome>
    requires fixed_state { IsFixedState H.honest state.old }
    requires current { is_current_at (entry_at state.old.jobs.items job) attempt ≡ true }
    requires version { state.old.ready.set.version + 1 < 2 ^ 32 }
    ensures state { OnOk result ((w : World Query) → StandsFor w state.old → StandsFor (world_ended w job attempt Done) state.new) }
    ensures kept { OnOk result ((w : World Query) → StandsFor w state.old → AreKept H.honest w (products_of state.old) (cells_of state.old) → (H.honest → IsProductOf w (job_of w job) attempt (Ok bytes)) → AreKept H.honest (world_ended w job attempt Done) (products_of state.new) (cells_of state.new)) }
    ensures products { OnOk result (products_of state.new ≡ products_after (ended_at (entry_at state.old.jobs.items job) attempt Done) job (Ok bytes) (products_of state.old)) }
    ensures ok { OnOk result ((snapshot : Snapshot) → IsJudged (task_kept snapshot (kept_of (products_of state.old) job)) bytes.items Done) }
    ensures err { OnErr result ((w : World Query) → StandsFor w state.old → StandsFor w state.new) }
    ensures err_kept { OnErr result (KeepsData state.old state.new) }
    ensures failure { IfErr result (λ outcome. is_failure outcome ≡ true) }
    ensures why { IfErr result (λ outcome. (snapshot : Snapshot) → IsJudged (task_kept snapshot (kept_of (products_of state.old) job)) bytes.items outcome) }
{
    let place = job as usize - 1;
    let entry = &state.jobs[place];
    let product = match read_next(alloc, &entry.products, &bytes) {
        Ok(product) => product,
        Err(ProductFault::Damaged) => return Err(Outcome::Damaged),
        Err(ProductFault::Memory) => return Err(Outcome::Memory),
    };
    match keep::<H>(state, alloc, job, attempt, bytes, product) {
        Ok(()) => Ok(()),
        Err(_) => Err(Outcome::Memory),
    }
}

// What a hand's answer to an attempt that counts comes to.
fn take_answer<H: Honest>(
    state: &mut FixedState,
    alloc: Global,
    job: u32,
    attempt: u32,
    answer: Result<Vec<u8>, HandFault>,
) -> Outcome
    requires fixed_state { IsFixedState H.honest state.old }
    requires current { is_current_at (entry_at state.old.jobs.items job) attempt ≡ true }
    requires version { state.old.ready.set.version + 1 < 2 ^ 32 }
    ensures state { (w : World Query) → StandsFor w state.old → StandsFor (world_ended w job attempt result) state.new }
    ensures kept { (w : World Query) → StandsFor w state.old → AreKept H.honest w (products_of state.old) (cells_of state.old) → (H.honest → IsProductOf w (job_of w job) attempt answer) → AreKept H.honest (world_ended w job attempt result) (products_of state.new) (cells_of state.new) }
    ensures outcome { (snapshot : Snapshot) → IsOutcomeOf (task_kept snapshot (kept_of (products_of state.old) job)) answer result }
    ensures products { products_of state.new ≡ products_after (ended_at (entry_at state.old.jobs.items job) attempt result) job answer (products_of state.old) }
{
    let bytes = match answer {
        Ok(bytes) => bytes,
        Err(fault) => {
            end_failed(state, job, attempt);
            return outcome_of(fault);
        }
    };
    match take_product::<H>(state, alloc, job, attempt, bytes) {
        Ok(()) => Outcome::Done,
        Err(outcome) => {
            end_failed(state, job, attempt);
            outcome
        }
    }
}

/// The end of an attempt that was claimed, and what is recorded of it. An end that doesn't count is recorded as what the hand gave, and
/// reads no product; it takes no memory. One that counts is recorded as the hand's fault, or as Damaged exactly where the bytes are no
/// product of the task of the job's next step, or as Done; Memory may stand in place of Damaged and Done, and the step then fails.
pub fn end_step<H: Honest>(
    state: &mut FixedState,
    alloc: Global,
    job: u32,
    attempt: u32,
    answer: Result<Vec<u8>, HandFault>,
) -> Outcome
    requires fixed_state { IsFixedState H.honest state.old }
    requires version { state.old.ready.set.version + 1 < 2 ^ 32 }
    ensures state { (w : World Query) → StandsFor w state.old → StandsFor (world_ended w job attempt result) state.new }
    ensures kept { (w : World Query) → StandsFor w state.old → AreKept H.honest w (products_of state.old) (cells_of state.old) → (H.honest → IsProductOf w (job_of w job) attempt answer) → AreKept H.honest (world_ended w job attempt result) (products_of state.new) (cells_of state.new) }
    ensures stale { is_current_at (entry_at state.old.jobs.items job) attempt ≡ false → result ≡ stale_outcome answer }
    ensures outcome { is_current_at (entry_at state.old.jobs.items job) attempt ≡ true → (snapshot : Snapshot) → IsOutcomeOf (task_kept snapshot (kept_of (products_of state.old) job)) answer result }
    ensures products { products_of state.new ≡ products_after (ended_at (entry_at state.old.jobs.items job) attempt result) job answer (products_of state.old) }
{
    if is_current(&state.jobs, job, attempt) {
        return take_answer::<H>(state, alloc, job, attempt, answer);
    }
    end_stale(state, job, attempt);
    stale_outcome(&answer)
}
