// One turn of the coordinator.

ghost use denote.Param.Send.{IsSync};
ghost use Rattle.std.specs.Prelude.{◌≡◌, ◌≤◌, ◌<◌, ◌∷◌, [], ℕ, All, IfOk, IsErrOf, List, Ok, OnErr, OnOk, Option, Some, false, length, map, slice_get, true};
ghost use Rattle.std.specs.Io.KnownBytes.{append_known};
ghost use Rattle.job_board.specs.BoardModel.{now, turns};
ghost use Rattle.outside.specs.Counts.{Rose};
ghost use Rattle.outside.specs.Written.{AppendsPart};
ghost use Rattle.run_history.specs.Histories.{MayNote};
ghost use Rattle.run_inputs.specs.Inputs.{HasFittingRows};
ghost use Rattle.script_text.specs.Blocks.{block_text};
ghost use Rattle.script_text.specs.declared.verb.Line.{Line};
ghost use Rattle.coordinator.specs.Coordinator.{AreGiven, HasWritten, HasWrittenPart, IsCounted, IsFront, IsIdle, IsServedLine, IsSound, HasNoNextTurn, awaited, inputs_in, load_of};
ghost use Rattle.coordinator.specs.ExecutedLines.{HasExecuted, HasExecutedPart};
ghost use Rattle.coordinator.specs.HandAgreement.{AgreesWithHand};

use crate::commands::{awaited, session_of, take_command};
use crate::fault::RunFault;
use crate::loads::SharedLoad;
use crate::query::answer_query;
use crate::steps::run_step;
use job_board::{Board, SmallWork};
use outside::{Hand, Sink, SinkFault, Stopper};
use script_text::{Block, Line, Script, put_block};
use std::alloc::{AllocError, Global};
use std::sync::Wait;
use std::thread::Threads;

/// The coordinator of a run: the script with how many of its commands were taken, the rows of its loads, the board, and the one hand.
/// Between two turns nothing is in flight and no query waits.
#[derive(Drop)]
pub struct Coordinator<H: Hand<SmallWork> + Drop> {
    pub script: Script,
    pub loads: Vec<SharedLoad>,
    pub taken: usize,
    pub board: Board<H>,
    pub hand: H,
}

// Takes the command of a line: its block, or want of memory.
fn take_line<H: Hand<SmallWork> + Drop, P: Stopper>(
    alloc: Global,
    loads: &[SharedLoad],
    board: &mut Board<H>,
    stopper: &mut P,
    line: &Line,
) -> Result<Block, AllocError>
    requires above { (now board.old).line < line.now.number }
    requires idle { IsIdle (now board.old) }
    requires may { MayNote (now board.old) (awaited line.now.verb) }
    requires served { IsServedLine (map load_of loads.now) line.now }
    requires fit { All HasFittingRows (map load_of loads.now) }
    ensures ok { IfOk result (λ block. HasExecuted H.honest (map load_of loads.now) board.old line.now block board.new) }
    ensures err { OnErr result (HasExecutedPart board.old line.now board.new) }
    ensures stopper { stopper.new ≡ stopper.old }
{
    match session_of(&line.verb) {
        Some(session) => answer_query(alloc, board, line.number, session),
        None => {
            board.reserve_turn()?;
            take_command(alloc, loads, board, stopper, line)
        }
    }
}

/// Writes a text, or says why it is not written.
pub fn put<S: Sink>(sink: &mut S, text: &[u8]) -> Result<(), RunFault>
    ensures ok { OnOk result (S.written sink.new ≡ append_known (S.written sink.old) text.now) }
    ensures part { OnErr result (AppendsPart (S.written sink.old) (S.written sink.new) text.now) }
    ensures failed { IsErrOf result RunFault.Write → Rose (S.faults sink.old) (S.faults sink.new) }
    ensures faults { S.faults sink.old ≤ S.faults sink.new }
{
    match sink.write(text) {
        Ok(()) => Ok(()),
        Err(SinkFault::Failed) => Err(RunFault::Write),
        Err(SinkFault::Memory) => Err(RunFault::Memory),
    }
}

// Writes the block of a line, or says why it is not written.
fn write_block<S: Sink>(
    alloc: Global,
    sink: &mut S,
    line: u32,
    block: &Block,
) -> Result<(), RunFault>
    ensures ok { OnOk result (S.written sink.new ≡ append_known (S.written sink.old) (block_text line block.now)) }
    ensures part { OnErr result (AppendsPart (S.written sink.old) (S.written sink.new) (block_text line block.now)) }
    ensures failed { IsErrOf result RunFault.Write → Rose (S.faults sink.old) (S.faults sink.new) }
    ensures faults { S.faults sink.old ≤ S.faults sink.new }
{
    let mut text = Vec::new(alloc);
    put_block(alloc, &mut text, line, block)?;
    put(sink, text.as_slice())
}

// Takes the next command, and writes its block.
fn take_next<H: Hand<SmallWork> + Drop, P: Stopper, S: Sink>(
    alloc: Global,
    coordinator: &mut Coordinator<H>,
    stopper: &mut P,
    sink: &mut S,
) -> Result<(), RunFault>
    requires given { AreGiven coordinator.old.script (map load_of coordinator.old.loads.items) }
    requires sound { IsSound (inputs_in coordinator.old.script (map load_of coordinator.old.loads.items)) coordinator.old.board coordinator.old.taken }
    requires next { coordinator.old.taken < length coordinator.old.script }
    requires may { (line : Line) → slice_get coordinator.old.script coordinator.old.taken ≡ Some line → MayNote (now coordinator.old.board) (awaited line.verb) }
    ensures script { coordinator.new.script ≡ coordinator.old.script }
    ensures loads { coordinator.new.loads ≡ coordinator.old.loads }
    ensures front { IsFront (inputs_in coordinator.old.script (map load_of coordinator.old.loads.items)) coordinator.new.board }
    ensures sound { OnOk result (IsSound (inputs_in coordinator.old.script (map load_of coordinator.old.loads.items)) coordinator.new.board coordinator.new.taken) }
    ensures written { OnOk result ((before : Option (List ℕ)) → HasWritten H.honest coordinator.old.script coordinator.old.board before (S.written sink.old) → HasWritten H.honest coordinator.old.script coordinator.new.board before (S.written sink.new)) }
    ensures part { OnErr result ((before : Option (List ℕ)) → HasWritten H.honest coordinator.old.script coordinator.old.board before (S.written sink.old) → HasWrittenPart H.honest coordinator.old.script coordinator.new.board before (S.written sink.new)) }
    ensures counted { (base : List H) → IsCounted H.runs H.faults base (coordinator.old.hand ∷ []) coordinator.old.board → IsCounted H.runs H.faults base (coordinator.new.hand ∷ []) coordinator.new.board }
    ensures agrees { (base : H) → AgreesWithHand H.honest H.fails H.calls base coordinator.old.hand coordinator.old.board → AgreesWithHand H.honest H.fails H.calls base coordinator.new.hand coordinator.new.board }
    ensures stopper { stopper.new ≡ stopper.old }
    ensures quiet { turns coordinator.new.board ≡ [] → (turns coordinator.old.board ≡ []) × (S.written sink.new ≡ S.written sink.old) }
    ensures failed { IsErrOf result RunFault.Write → Rose (S.faults sink.old) (S.faults sink.new) }
    ensures faults { S.faults sink.old ≤ S.faults sink.new }
{
    let line = &coordinator.script.lines()[coordinator.taken];
    let block = take_line(
        alloc,
        &coordinator.loads,
        &mut coordinator.board,
        stopper,
        line,
    )?;
    coordinator.taken += 1;
    write_block(alloc, sink, line.number, &block)
}

// Whether the next command may be taken.
fn has_next<H: Hand<SmallWork> + Drop>(coordinator: &Coordinator<H>) -> bool
    ensures next { result ≡ true → coordinator.now.taken < length coordinator.now.script }
    ensures none { result ≡ false → (line : Line) → slice_get coordinator.now.script coordinator.now.taken ≡ Some line → MayNote (now coordinator.now.board) (awaited line.verb) → ⊥ }
    ensures may { result ≡ true → (line : Line) → slice_get coordinator.now.script coordinator.now.taken ≡ Some line → MayNote (now coordinator.now.board) (awaited line.verb) }
{
    let lines = coordinator.script.lines();
    if coordinator.taken >= lines.len() {
        return false;
    }
    coordinator
        .board
        .may_take(&awaited(&lines[coordinator.taken].verb))
}

/// One turn, if there is one: the next command, where what it waits for is there, or else a step of a job.
pub fn advance<R: Threads + Wait + Sync, H: Hand<SmallWork> + Drop, P: Stopper, S: Sink>(
    rt: &R,
    alloc: Global,
    coordinator: &mut Coordinator<H>,
    stopper: &mut P,
    sink: &mut S,
) -> Result<bool, RunFault>
    requires sync { IsSync R.row }
    requires given { AreGiven coordinator.old.script (map load_of coordinator.old.loads.items) }
    requires sound { IsSound (inputs_in coordinator.old.script (map load_of coordinator.old.loads.items)) coordinator.old.board coordinator.old.taken }
    ensures script { coordinator.new.script ≡ coordinator.old.script }
    ensures loads { coordinator.new.loads ≡ coordinator.old.loads }
    ensures front { IsFront (inputs_in coordinator.old.script (map load_of coordinator.old.loads.items)) coordinator.new.board }
    ensures sound { OnOk result (IsSound (inputs_in coordinator.old.script (map load_of coordinator.old.loads.items)) coordinator.new.board coordinator.new.taken) }
    ensures no_next_turn { result ≡ Ok false → HasNoNextTurn coordinator.new.script coordinator.new.taken (now coordinator.new.board) }
    ensures written { OnOk result ((before : Option (List ℕ)) → HasWritten H.honest coordinator.old.script coordinator.old.board before (S.written sink.old) → HasWritten H.honest coordinator.old.script coordinator.new.board before (S.written sink.new)) }
    ensures part { OnErr result ((before : Option (List ℕ)) → HasWritten H.honest coordinator.old.script coordinator.old.board before (S.written sink.old) → HasWrittenPart H.honest coordinator.old.script coordinator.new.board before (S.written sink.new)) }
    ensures counted { (base : List H) → IsCounted H.runs H.faults base (coordinator.old.hand ∷ []) coordinator.old.board → IsCounted H.runs H.faults base (coordinator.new.hand ∷ []) coordinator.new.board }
    ensures agrees { (base : H) → AgreesWithHand H.honest H.fails H.calls base coordinator.old.hand coordinator.old.board → AgreesWithHand H.honest H.fails H.calls base coordinator.new.hand coordinator.new.board }
    ensures stopper { stopper.new ≡ stopper.old }
    ensures quiet { turns coordinator.new.board ≡ [] → (turns coordinator.old.board ≡ []) × (S.written sink.new ≡ S.written sink.old) }
    ensures failed { IsErrOf result RunFault.Write → Rose (S.faults sink.old) (S.faults sink.new) }
    ensures faults { S.faults sink.old ≤ S.faults sink.new }
{
    if has_next(coordinator) {
        take_next(alloc, coordinator, stopper, sink)?;
        return Ok(true);
    }
    let is_stepped = run_step(rt, alloc, &mut coordinator.board, &mut coordinator.hand)?;
    Ok(is_stepped)
}
