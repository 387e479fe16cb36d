// Commands on the board, each with its block.

ghost use Rattle.std.specs.Prelude.{◌≡◌, ◌<◌, ◌++◌, ◌∷◌, [], ℕ, List, All, IfNone, IfOk, IfSome, OnErr, OnOk, Some, None, false, map, option_map};
ghost use Rattle.std.specs.Arc.{arc_value};
ghost use Rattle.job_board.specs.Ledger.{FitsTable, cube};
ghost use Rattle.job_board.specs.BoardModel.{IsAdded, now};
ghost use Rattle.job_machine.specs.declared.state.JobKind.TheVariants.{Build};
ghost use Rattle.run_history.specs.Commands.{Command as command};
ghost use Rattle.run_history.specs.Commands.Turn.{Takes};
ghost use Rattle.run_history.specs.Histories.{MayNote};
ghost use Rattle.run_history.specs.declared.command.Noted.TheVariants.{Other};
ghost use Rattle.run_inputs.specs.Inputs.{HasFittingRows};
ghost use Rattle.run_transcript.specs.Entries.{entry_of};
ghost use Rattle.run_transcript.specs.Entries.Entry.{Told};
ghost use Rattle.run_transcript.specs.Served.{command_of};
ghost use Rattle.script_text.specs.declared.verb.Verb.{Verb};
ghost use Rattle.script_text.specs.declared.verb.Verb.TheVariants as verb;
ghost use Rattle.coordinator.specs.Coordinator.{AreNotInFlight, IsServedLine, awaited, is_query, load_of};
ghost use Rattle.coordinator.specs.Served.{rows_at, served};

use crate::listing::{job_lines, tally_of};
use crate::loads::{SharedLoad, load_at};
use cube_val::{Items, NameText, Table};
use job_board::{Board, BoardRefusal, SmallWork};
use job_machine::JobKind;
use outside::{Hand, Stopper};
use range_list::Range;
use run_history::{Control, Noted, Refused};
use script_text::{Block, Line, Verb};
use std::alloc::{AllocError, Global};
use std::sync::Arc;

/// What a line waits for before it is taken.
pub fn awaited(verb: &Verb) -> Noted
    ensures { result ≡ awaited verb.now }
{
    match verb {
        Verb::AwaitJob(job) => Noted::AwaitJob(*job),
        Verb::AwaitJobs => Noted::AwaitJobs,
        Verb::AwaitQueries => Noted::AwaitQueries,
        _ => Noted::Other,
    }
}

/// The session of a query.
pub fn session_of(said: &Verb) -> Option<u32>
    ensures some { IfSome result (λ session. (text : List ℕ) × (said.now ≡ verb.Query session text)) }
    ensures none { IfNone result (is_query said.now ≡ false) }
{
    match said {
        Verb::Query(session, _) => Some(*session),
        Verb::Descriptor(_) => None,
        Verb::Load(_, _) => None,
        Verb::Build(_) => None,
        Verb::Refresh(_) => None,
        Verb::Merge(_) => None,
        Verb::Drop(_) => None,
        Verb::Pause(_) => None,
        Verb::Resume(_) => None,
        Verb::Discard(_) => None,
        Verb::AwaitJob(_) => None,
        Verb::AwaitJobs => None,
        Verb::AwaitQueries => None,
        Verb::Jobs => None,
        Verb::Segments => None,
    }
}

// The block of the descriptor.
fn cube_block(alloc: Global) -> Result<Block, AllocError>
    ensures { IfOk result (λ block. block ≡ served.shown) }
{
    Ok(Block::Cube {
        name: NameText::new(alloc, b"FIXED")?,
        dimensions: 2,
        measures: 1,
        cuboids: 1,
    })
}

// A load of F.
fn load<H: Hand<SmallWork> + Drop>(
    alloc: Global,
    board: &mut Board<H>,
    line: u32,
    rows: &Arc<Table>,
) -> Result<Block, AllocError>
    requires room { 0 < board.old.room }
    requires above { (now board.old).line < line }
    requires fits { FitsTable (arc_value rows.now) }
    ensures added { OnOk result (IsAdded board.old (Takes line (command.Load 0 (arc_value rows.now))) board.new) }
    ensures block { IfOk result (λ block. (said : Verb) → entry_of served (now board.old) line (Some said) (command.Load 0 (arc_value rows.now)) ≡ Told line block) }
    ensures err { OnErr result (board.new ≡ board.old) }
{
    let table = NameText::new(alloc, b"F")?;
    let count = rows.len() as u32;
    board.load(line, 0, rows.clone()?)?;
    Ok(Block::Loaded { table, rows: count })
}

// A BUILD.
fn build<H: Hand<SmallWork> + Drop>(
    board: &mut Board<H>,
    line: u32,
    range: Range,
) -> Result<Block, AllocError>
    requires room { 0 < board.old.room }
    requires above { (now board.old).line < line }
    ensures added { OnOk result (IsAdded board.old (Takes line (command.Submit Build range)) board.new) }
    ensures block { IfOk result (λ block. (said : Verb) → entry_of served (now board.old) line (Some said) (command.Submit Build range) ≡ Told line block) }
    ensures err { OnErr result (board.new ≡ board.old) }
{
    match board.submit(line, range) {
        Ok(id) => Ok(Block::Job {
            id,
            kind: JobKind::Build,
            range,
        }),
        Err(BoardRefusal::Refused(refused)) => Ok(Block::Refused(refused)),
        Err(BoardRefusal::Memory) => Err(AllocError),
    }
}

// A command on one job. Where it stops an attempt in flight, that attempt is asked to stop; whether it was changes nothing. With one worker
// no attempt is in flight where a command is taken, and so none is asked.
fn control_job<H: Hand<SmallWork> + Drop, P: Stopper>(
    alloc: Global,
    board: &mut Board<H>,
    stopper: &mut P,
    line: u32,
    control: Control,
    job: u32,
) -> Block
    requires room { 0 < board.old.room }
    requires above { (now board.old).line < line }
    requires not_in_flight { AreNotInFlight (now board.old).jobs }
    ensures added { IsAdded board.old (Takes line (command.Steer control job)) board.new }
    ensures block { (said : Verb) → entry_of served (now board.old) line (Some said) (command.Steer control job) ≡ Told line result }
    ensures stopper { stopper.new ≡ stopper.old }
{
    match board.control(line, control, job) {
        Ok(controlled) => {
            if let Some(attempt) = controlled.stop {
                let _ = stopper.stop(alloc, job, attempt);
            }
            Block::State {
                id: job,
                state: controlled.state,
            }
        }
        Err(refused) => Block::Refused(refused),
    }
}

// Where a job stands, once it is awaited.
fn await_job<H: Hand<SmallWork> + Drop>(board: &mut Board<H>, line: u32, job: u32) -> Block
    requires room { 0 < board.old.room }
    requires above { (now board.old).line < line }
    requires may { MayNote (now board.old) (Noted.AwaitJob job) }
    ensures added { IsAdded board.old (Takes line (command.Note (Noted.AwaitJob job))) board.new }
    ensures block { (said : Verb) → entry_of served (now board.old) line (Some said) (command.Note (Noted.AwaitJob job)) ≡ Told line result }
{
    let block = match board.job(job) {
        Some(entry) => Block::State {
            id: job,
            state: entry.state,
        },
        None => Block::Refused(Refused::NoSuchJob(job)),
    };
    board.note(line, Noted::AwaitJob(job));
    block
}

// How many jobs rest in each state, once all of them rest.
fn await_jobs<H: Hand<SmallWork> + Drop>(board: &mut Board<H>, line: u32) -> Block
    requires room { 0 < board.old.room }
    requires above { (now board.old).line < line }
    requires may { MayNote (now board.old) Noted.AwaitJobs }
    ensures added { IsAdded board.old (Takes line (command.Note Noted.AwaitJobs)) board.new }
    ensures block { (said : Verb) → entry_of served (now board.old) line (Some said) (command.Note Noted.AwaitJobs) ≡ Told line result }
{
    let tally = tally_of(board.jobs());
    board.note(line, Noted::AwaitJobs);
    Block::JobsAtRest(tally)
}

// How many queries were accepted, once each has its end.
fn await_queries<H: Hand<SmallWork> + Drop>(board: &mut Board<H>, line: u32) -> Block
    requires room { 0 < board.old.room }
    requires above { (now board.old).line < line }
    requires may { MayNote (now board.old) Noted.AwaitQueries }
    ensures added { IsAdded board.old (Takes line (command.Note Noted.AwaitQueries)) board.new }
    ensures block { (said : Verb) → entry_of served (now board.old) line (Some said) (command.Note Noted.AwaitQueries) ≡ Told line result }
{
    let accepted = board.accepted();
    board.note(line, Noted::AwaitQueries);
    Block::QueriesAtRest(accepted)
}

// The jobs.
fn list_jobs<H: Hand<SmallWork> + Drop>(
    alloc: Global,
    board: &mut Board<H>,
    line: u32,
) -> Result<Block, AllocError>
    requires room { 0 < board.old.room }
    requires above { (now board.old).line < line }
    ensures added { OnOk result (IsAdded board.old (Takes line (command.Note Other)) board.new) }
    ensures block { IfOk result (λ block. entry_of served (now board.old) line (Some verb.Jobs) (command.Note Other) ≡ Told line block) }
    ensures err { OnErr result (board.new ≡ board.old) }
{
    let lines = job_lines(alloc, board.jobs())?;
    board.note(line, Noted::Other);
    Ok(Block::Jobs(Items::of(lines)))
}

// The cube.
fn show_cube<H: Hand<SmallWork> + Drop>(
    alloc: Global,
    board: &mut Board<H>,
    line: u32,
) -> Result<Block, AllocError>
    requires room { 0 < board.old.room }
    requires above { (now board.old).line < line }
    ensures added { OnOk result (IsAdded board.old (Takes line (command.Note Other)) board.new) }
    ensures block { IfOk result (λ block. block ≡ served.shown) }
    ensures err { OnErr result (board.new ≡ board.old) }
{
    let block = cube_block(alloc)?;
    board.note(line, Noted::Other);
    Ok(block)
}

/// Takes the command of a line that asks for no query: its block, or want of memory.
pub fn take_command<H: Hand<SmallWork> + Drop, P: Stopper>(
    alloc: Global,
    loads: &[SharedLoad],
    board: &mut Board<H>,
    stopper: &mut P,
    line: &Line,
) -> Result<Block, AllocError>
    requires room { 0 < board.old.room }
    requires above { (now board.old).line < line.now.number }
    requires may { MayNote (now board.old) (awaited line.now.verb) }
    requires served { IsServedLine (map load_of loads.now) line.now }
    requires fit { All HasFittingRows (map load_of loads.now) }
    requires no_query { is_query line.now.verb ≡ false }
    requires not_in_flight { AreNotInFlight (now board.old).jobs }
    ensures added { OnOk result (IsAdded board.old (Takes line.now.number (command_of served (rows_at (map load_of loads.now) line.now.number) line.now.verb)) board.new) }
    ensures block { IfOk result (λ block. entry_of served (now board.old) line.now.number (Some line.now.verb) (command_of served (rows_at (map load_of loads.now) line.now.number) line.now.verb) ≡ Told line.now.number block) }
    ensures stopper { stopper.new ≡ stopper.old }
    ensures err { OnErr result (board.new ≡ board.old) }
{
    let number = line.number;
    match &line.verb {
        Verb::Descriptor(_) => show_cube(alloc, board, number),
        Verb::Load(_, _) => match load_at(loads, number) {
            Some(found) => load(alloc, board, number, &found.rows),
            None => unreachable!(),
        },
        Verb::Build(range) => build(board, number, *range),
        Verb::Pause(job) => Ok(control_job(alloc, board, stopper, number, Control::Pause, *job)),
        Verb::Resume(job) => Ok(control_job(alloc, board, stopper, number, Control::Resume, *job)),
        Verb::Discard(job) => Ok(control_job(
            alloc,
            board,
            stopper,
            number,
            Control::Discard,
            *job,
        )),
        Verb::AwaitJob(job) => Ok(await_job(board, number, *job)),
        Verb::AwaitJobs => Ok(await_jobs(board, number)),
        Verb::AwaitQueries => Ok(await_queries(board, number)),
        Verb::Jobs => list_jobs(alloc, board, number),
        Verb::Query(_, _) => unreachable!(),
        Verb::Refresh(_) => unreachable!(),
        Verb::Merge(_) => unreachable!(),
        Verb::Drop(_) => unreachable!(),
        Verb::Segments => unreachable!(),
    }
}
