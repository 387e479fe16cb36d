// A run, from its script to its history.

ghost use denote.Param.Send.{IsSync};
ghost use Rattle.std.specs.Prelude.{◌≡◌, ◌≢◌, ◌≤◌, ◌∷◌, ◌++◌, [], ℕ, All, IfErr, IfOk, IsErrOf, List, OnErr, OnOk, Option, Some, length, map, option_map, true};
ghost use Rattle.std.specs.Io.KnownBytes.{append_known};
ghost use Rattle.job_board.specs.Ledger.{cube};
ghost use Rattle.job_board.specs.BoardModel.{now, turns};
ghost use Rattle.outside.specs.Counts.{Rose};
ghost use Rattle.outside.specs.Hands.{Call, Fail};
ghost use Rattle.outside.specs.Rises.{Risen};
ghost use Rattle.outside.specs.Written.{AppendsPart};
ghost use Rattle.run_history.specs.Commands.{event_of};
ghost use Rattle.run_transcript.specs.Entries.{tally_of};
ghost use Rattle.run_transcript.specs.Runs.{turns_of};
ghost use Rattle.run_transcript.specs.Transcripts.{transcript};
ghost use Rattle.script_text.specs.Blocks.{end_text};
ghost use Rattle.coordinator.specs.Coordinator.{AreGiven, HasWritten, IsCounted, IsFront, IsSound, HasNoNextTurn, inputs_in, is_done, load_of};
ghost use Rattle.coordinator.specs.Runs.{AreTrusted, IsRunOver, status_of};
ghost use Rattle.step_outcomes.specs.Ends.{fault_ends, run_ends};
ghost use Rattle.coordinator.specs.Served.{inputs_of, served};
ghost use Rattle.coordinator.specs.Stops.{AsksAmong, stops_of};
ghost use Rattle.coordinator.specs.HandAgreement.{AgreesWithHand};
ghost use Rattle.step_outcomes.specs.Calls.{AreCallsOf};
ghost use Rattle.step_outcomes.specs.Ends.{IsUndamaged};
ghost use Rattle.step_outcomes.specs.Faults.{IsEndBy, StandsAmong};

use crate::fault::RunFault;
use crate::listing::tally_of;
use crate::loads::shared_loads;
use crate::turns::{Coordinator, advance, put};
use job_board::{Board, SmallWork};
use outside::{Hand, Sink, Stopper};
use run_history::Event;
use run_inputs::FixedInputs;
use script_text::put_end;
use std::alloc::Global;
use std::sync::Wait;
use std::thread::Threads;

/// What a run of a script leaves: whether it came to its end, its history, and the hand.
#[derive(Drop)]
pub struct ScriptRun<H> {
    pub ended: Result<(), RunFault>,
    pub history: Vec<Event>,
    pub hand: H,
}

// The coordinator before the first turn, or the hand alone where memory is wanting.
fn coordinator_of<H: Hand<SmallWork> + Drop>(
    alloc: Global,
    inputs: FixedInputs,
    hand: H,
) -> Result<Coordinator<H>, H>
    ensures script { IfOk result (λ coordinator. coordinator.script ≡ inputs.script) }
    ensures loads { IfOk result (λ coordinator. map load_of coordinator.loads.items ≡ inputs.tables) }
    ensures board { IfOk result (λ coordinator. coordinator.board ≡ record { workers = 1; log = []; room = 0; products = [] }) }
    ensures taken { IfOk result (λ coordinator. coordinator.taken ≡ 0) }
    ensures hand { IfOk result (λ coordinator. coordinator.hand ≡ hand) }
    ensures back { IfErr result (λ back. back ≡ hand) }
{
    let FixedInputs { script, tables } = inputs;
    let Ok(loads) = shared_loads(alloc, tables.into_vec()) else {
        return Err(hand);
    };
    let Ok(board) = Board::new(alloc, 1) else {
        return Err(hand);
    };
    Ok(Coordinator {
        script,
        loads,
        taken: 0,
        board,
        hand,
    })
}

// Writes the end line, once nothing may come next.
fn end<H: Hand<SmallWork> + Drop, S: Sink>(
    alloc: Global,
    coordinator: &Coordinator<H>,
    sink: &mut S,
) -> Result<(), RunFault>
    requires sound { IsSound (inputs_in coordinator.now.script (map load_of coordinator.now.loads.items)) coordinator.now.board coordinator.now.taken }
    requires no_next_turn { HasNoNextTurn coordinator.now.script coordinator.now.taken (now coordinator.now.board) }
    ensures done { is_done coordinator.now.script coordinator.now.taken (now coordinator.now.board) ≡ true }
    ensures written { OnOk result (S.written sink.new ≡ append_known (S.written sink.old) (end_text (tally_of (now coordinator.now.board).jobs) (length (now coordinator.now.board).ready))) }
    ensures part { OnErr result (AppendsPart (S.written sink.old) (S.written sink.new) (end_text (tally_of (now coordinator.now.board).jobs) (length (now coordinator.now.board).ready))) }
    ensures failed { IsErrOf result RunFault.Write → Rose (S.faults sink.old) (S.faults sink.new) }
    ensures faults { S.faults sink.old ≤ S.faults sink.new }
{
    let tally = tally_of(coordinator.board.jobs());
    let segments = coordinator.board.ready().len() as u32;
    let mut text = Vec::new(alloc);
    put_end(alloc, &mut text, &tally, segments)?;
    put(sink, text.as_slice())
}

// One turn after another, each with the block that it lets be written, and the end line.
fn drive<R: Threads + Wait + Sync, H: Hand<SmallWork> + Drop, P: Stopper, S: Sink>(
    rt: &R,
    alloc: Global,
    coordinator: &mut Coordinator<H>,
    stopper: &mut P,
    sink: &mut S,
) -> Result<(), RunFault>
    requires sync { IsSync R.row }
    requires given { AreGiven coordinator.old.script (map load_of coordinator.old.loads.items) }
    requires sound { IsSound (inputs_in coordinator.old.script (map load_of coordinator.old.loads.items)) coordinator.old.board coordinator.old.taken }
    ensures script { coordinator.new.script ≡ coordinator.old.script }
    ensures loads { coordinator.new.loads ≡ coordinator.old.loads }
    ensures front { IsFront (inputs_in coordinator.old.script (map load_of coordinator.old.loads.items)) coordinator.new.board }
    ensures sound { OnOk result (IsSound (inputs_in coordinator.old.script (map load_of coordinator.old.loads.items)) coordinator.new.board coordinator.new.taken) }
    ensures done { OnOk result (is_done coordinator.old.script coordinator.new.taken (now coordinator.new.board) ≡ true) }
    ensures written { OnOk result ((before : Option (List ℕ)) → HasWritten H.honest coordinator.old.script coordinator.old.board before (S.written sink.old)
        → AreTrusted H.honest coordinator.new.board.workers (turns coordinator.new.board)
        → S.written sink.new ≡ append_known before (transcript served (inputs_in coordinator.old.script (map load_of coordinator.old.loads.items)) (map event_of (turns coordinator.new.board)))) }
    ensures part { OnErr result ((before : Option (List ℕ)) → HasWritten H.honest coordinator.old.script coordinator.old.board before (S.written sink.old)
        → AreTrusted H.honest coordinator.new.board.workers (turns coordinator.new.board)
        → AppendsPart before (S.written sink.new) (transcript served (inputs_in coordinator.old.script (map load_of coordinator.old.loads.items)) (map event_of (turns coordinator.new.board)))) }
    ensures counted { (base : List H) → IsCounted H.runs H.faults base (coordinator.old.hand ∷ []) coordinator.old.board → IsCounted H.runs H.faults base (coordinator.new.hand ∷ []) coordinator.new.board }
    ensures agrees { (base : H) → AgreesWithHand H.honest H.fails H.calls base coordinator.old.hand coordinator.old.board → AgreesWithHand H.honest H.fails H.calls base coordinator.new.hand coordinator.new.board }
    ensures stopper { stopper.new ≡ stopper.old }
    ensures quiet { coordinator.old.script ≢ [] → turns coordinator.old.board ≡ [] → turns coordinator.new.board ≡ [] → S.written sink.new ≡ S.written sink.old }
    ensures failed { IsErrOf result RunFault.Write → Rose (S.faults sink.old) (S.faults sink.new) }
    ensures faults { S.faults sink.old ≤ S.faults sink.new }
{
    for _ in rt.forever() {
        match advance(rt, alloc, coordinator, stopper, sink) {
            Err(fault) => return Err(fault),
            Ok(true) => {}
            Ok(false) => return end(alloc, coordinator, sink),
        }
    }
    unreachable!()
}

/// Runs a script on a board: takes its commands one after another, each as soon as what it waits for is there, runs the steps of
/// its jobs on the one hand, and writes the transcript as it becomes known. Want of memory and a write that fails end the run at once.
pub fn run_script<R: Threads + Wait + Sync, H: Hand<SmallWork> + Drop, P: Stopper, S: Sink>(
    rt: &R,
    alloc: Global,
    inputs: FixedInputs,
    hand: H,
    stopper: &mut P,
    sink: &mut S,
) -> ScriptRun<H>
    requires sync { IsSync R.row }
    requires given { AreGiven inputs.script inputs.tables }
    ensures ran { IsRunOver H.honest (inputs_of 1 inputs) result.history.items (status_of result.ended) (S.written sink.old) (S.written sink.new) }

    // The hand's counts cover the ends of steps.
    ensures runs { Risen H.runs (hand ∷ []) (result.hand ∷ []) (run_ends result.history.items) }
    ensures faults { Risen H.faults (hand ∷ []) (result.hand ∷ []) (fault_ends result.history.items) }

    // The faults that attempts meet, where the hand tells them: each end of a step is by the first one of its attempt, or by none.
    ensures fails { (told : List Fail) → H.fails hand ≡ Some told → All (IsEndBy told) result.history.items }
    ensures fails_stand { (told : List Fail) → H.fails hand ≡ Some told → All (StandsAmong told) result.history.items }
    ensures fails_same { H.fails result.hand ≡ H.fails hand }

    // The hand's calls, where it tells them: the new ones are those of the ends of steps.
    ensures calls { (calls : List Call) × (H.calls result.hand ≡ option_map (λ before. before ++ calls) (H.calls hand)) × AreCallsOf cube H.honest 1 (turns_of served (inputs_of 1 inputs) result.history.items) calls }

    // Where the hand is honest no product is Damaged.
    ensures undamaged { H.honest → All IsUndamaged result.history.items }

    // The stopper's count covers the attempts that commands found in flight, and its new requests are among these.
    ensures asks { Risen P.asks (stopper.old ∷ []) (stopper.new ∷ []) (length (stops_of served (inputs_of 1 inputs) result.history.items)) }
    ensures requests { AsksAmong (stops_of served (inputs_of 1 inputs) result.history.items) (P.requests stopper.old) (P.requests stopper.new) }

    // Without an event nothing was written.
    ensures quiet { inputs.script ≢ [] → result.history.items ≡ [] → S.written sink.new ≡ S.written sink.old }

    ensures failed { IsErrOf result.ended RunFault.Write → Rose (S.faults sink.old) (S.faults sink.new) }
    ensures sink_faults { S.faults sink.old ≤ S.faults sink.new }
{
    match coordinator_of(alloc, inputs, hand) {
        Err(hand) => ScriptRun {
            ended: Err(RunFault::Memory),
            history: Vec::new(alloc),
            hand,
        },
        Ok(mut coordinator) => {
            let ended = drive(rt, alloc, &mut coordinator, stopper, sink);
            let Coordinator { board, hand, .. } = coordinator;
            ScriptRun {
                ended,
                history: board.into_history(),
                hand,
            }
        }
    }
}
