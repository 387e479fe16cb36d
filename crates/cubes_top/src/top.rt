// The top call.

ghost use Rattle.std.specs.Prelude.{◌≡◌, ◌≢◌, ◌⊎◌, ◌∷◌, [], ℕ, All, List, Ok, Result, length};
ghost use Rattle.coordinator.specs.Coordinator.{AreGiven};
ghost use Rattle.coordinator.specs.Runs.{IsRunOver, status_of};
ghost use Rattle.step_outcomes.specs.Ends.{fault_ends, run_ends};
ghost use Rattle.coordinator.specs.Served.{inputs_of};
ghost use Rattle.coordinator.specs.Stops.{AsksAmong};
ghost use Rattle.step_outcomes.specs.Ends.{IsUndamaged};
ghost use Rattle.step_outcomes.specs.Faults.{IsEndBy, StandsAmong};
ghost use Rattle.cubes_plain.specs.Steps.{IsStepRun, files_at, sink_at};
ghost use Rattle.cubes_plain.specs.Words.{IsNoStep, IsStep};
ghost use Rattle.fault_lines.specs.Lines.{bad_words_line};
ghost use Rattle.outside.specs.Counts.{Rose};
ghost use Rattle.outside.specs.Hands.{Fail};
ghost use Rattle.outside.specs.Rises.{AllTell, AllTellThat, Risen, TellSame, entries_of};
ghost use Rattle.run_inputs.specs.Laws.{TellsOutcomeAt};
ghost use Rattle.run_inputs.specs.declared.fault.InputFault.{InputFault};
ghost use Rattle.run_inputs.specs.declared.inputs.FixedInputs.{FixedInputs};
ghost use Rattle.step_task.specs.Steps.{IsTask, made_of};
ghost use Rattle.cubes_top.specs.Outcomes.{EndsAs, IsRun};
ghost use Rattle.cubes_top.specs.Outside.{HasNoFault, seen};
ghost use Rattle.cubes_top.specs.Plain.{HasLine, IsPlain};
ghost use Rattle.cubes_top.specs.Ties.{HaveCalled, stops_over};
ghost use Rattle.cubes_top.specs.Words.{AreBadWords, IsNoRun, IsRunOf};

use crate::words::script_path;
use coordinator::{RunFault, ScriptRun, run_script};
use cubes_plain::run_plain;
use fault_lines::status::{BAD_WORDS, DONE, MEMORY, READ_FAULT, WRITE_FAULT};
use job_board::SmallWork;
use outside::{Files, Hand, Sink, Stopper};
use run_history::Event;
use run_inputs::{FixedInputs, read_inputs, refuse_inputs};
use std::alloc::Global;
use std::sync::Wait;
use std::thread::Threads;
use step_task::CubeWork;

/// What a run leaves: its status, one of `fault_lines::status`, its history, and the hands.
#[derive(Drop)]
pub struct Ran<H> {
    pub status: u8,
    pub history: Vec<Event>,
    pub hands: Vec<H>,
}

// A status without a run.
fn without_run<H: Drop>(alloc: Global, status: u8, hands: Vec<H>) -> Ran<H>
    ensures status { result.status ≡ status }
    ensures none { result.history.items ≡ [] }
    ensures hands { result.hands.items ≡ hands.items }
{
    Ran {
        status,
        history: Vec::new(alloc),
        hands,
    }
}

// The status of a run that came to its end, or ended before.
fn status_of(ended: Result<(), RunFault>) -> u8
    ensures { result ≡ status_of ended }
{
    match ended {
        Ok(()) => DONE,
        Err(RunFault::Memory) => MEMORY,
        Err(RunFault::Write) => WRITE_FAULT,
    }
}

// Runs a script over the one hand, which is given back.
fn run_over<R: Threads + Wait + Sync, H: Hand<SmallWork> + Drop, P: Stopper, S: Sink>(
    rt: &R,
    alloc: Global,
    inputs: FixedInputs,
    mut hands: Vec<H>,
    stopper: &mut P,
    sink: &mut S,
) -> Ran<H>
    requires one { length hands.items ≡ 1 }
    requires given { AreGiven inputs.script inputs.tables }
    ensures ran { IsRunOver H.honest (inputs_of 1 inputs) result.history.items result.status (S.written sink.old) (S.written sink.new) }
    ensures runs { Risen H.runs hands.items result.hands.items (run_ends result.history.items) }
    ensures faults { Risen H.faults hands.items result.hands.items (fault_ends result.history.items) }
    ensures fails { (told : List Fail) → AllTellThat H.fails told hands.items → All (IsEndBy told) result.history.items }
    ensures fails_stand { AllTell H.fails hands.items → All (StandsAmong (entries_of H.fails hands.items)) result.history.items }
    ensures fails_same { TellSame H.fails hands.items result.hands.items }
    ensures calls { HaveCalled H.calls H.honest inputs result.history.items hands.items result.hands.items }
    ensures undamaged { H.honest → All IsUndamaged result.history.items }
    ensures asks { Risen P.asks (stopper.old ∷ []) (stopper.new ∷ []) (length (stops_over inputs result.history.items)) }
    ensures requests { AsksAmong (stops_over inputs result.history.items) (P.requests stopper.old) (P.requests stopper.new) }
    ensures quiet { inputs.script ≢ [] → result.history.items ≡ [] → S.written sink.new ≡ S.written sink.old }
    ensures back { length result.hands.items ≡ 1 }
    ensures status { (result.status ≡ DONE) ⊎ (result.status ≡ MEMORY) ⊎ (result.status ≡ WRITE_FAULT) }
    ensures failed { result.status ≡ WRITE_FAULT → Rose (S.faults sink.old) (S.faults sink.new) }
{
    let Some(hand) = hands.pop() else {
        unreachable!()
    };
    let ScriptRun {
        ended,
        history,
        hand,
    } = run_script(rt, alloc, inputs, hand, stopper, sink);
    let Ok(()) = hands.push(hand) else {
        unreachable!()
    };
    Ran {
        status: status_of(ended),
        history,
        hands,
    }
}

// Runs the script at a path.
fn run_at<R: Threads + Wait + Sync, F: Files, H: Hand<SmallWork> + Drop, P: Stopper, S: Sink>(
    rt: &R,
    alloc: Global,
    path: &str,
    files: &mut F,
    hands: Vec<H>,
    stopper: &mut P,
    sink: &mut S,
) -> Ran<H>
    requires { length hands.items ≡ 1 }
    ensures ran { IsRun H.honest (seen (F.contents files.old) (F.faults files.old) (F.faults files.new) (S.faults sink.old) (S.faults sink.new) (S.written sink.old) (S.written sink.new)) path.now result.history.items result.status }
    ensures told { (outcome : Result FixedInputs InputFault) → TellsOutcomeAt (F.contents files.old) path.now outcome → EndsAs outcome result.status }
    ensures good_words { result.status ≢ BAD_WORDS }
    ensures read_fault { result.status ≡ READ_FAULT → Rose (F.faults files.old) (F.faults files.new) }
    ensures write_fault { result.status ≡ WRITE_FAULT → Rose (S.faults sink.old) (S.faults sink.new) }
    ensures back { length result.hands.items ≡ 1 }
    ensures same { (result.status ≡ DONE) ⊎ (result.status ≡ MEMORY) ⊎ (result.status ≡ WRITE_FAULT) ⊎ (result.hands.items ≡ hands.items) }
    ensures runs { Risen H.runs hands.items result.hands.items (run_ends result.history.items) }
    ensures faults { Risen H.faults hands.items result.hands.items (fault_ends result.history.items) }
    ensures fails { (told : List Fail) → AllTellThat H.fails told hands.items → All (IsEndBy told) result.history.items }
    ensures fails_stand { AllTell H.fails hands.items → All (StandsAmong (entries_of H.fails hands.items)) result.history.items }
    ensures fails_same { TellSame H.fails hands.items result.hands.items }
    ensures calls { (given : FixedInputs) → TellsOutcomeAt (F.contents files.old) path.now (Ok given)
        → HaveCalled H.calls H.honest given result.history.items hands.items result.hands.items }
    ensures undamaged { H.honest → All IsUndamaged result.history.items }
    ensures asks { (given : FixedInputs) → TellsOutcomeAt (F.contents files.old) path.now (Ok given)
        → Risen P.asks (stopper.old ∷ []) (stopper.new ∷ []) (length (stops_over given result.history.items)) }
    ensures requests { (given : FixedInputs) → TellsOutcomeAt (F.contents files.old) path.now (Ok given)
        → AsksAmong (stops_over given result.history.items) (P.requests stopper.old) (P.requests stopper.new) }
    ensures quiet { result.status ≡ MEMORY → result.history.items ≡ [] → S.written sink.new ≡ S.written sink.old }
    ensures contents { F.contents files.new ≡ F.contents files.old }
    ensures write_faults { F.write_faults files.new ≡ F.write_faults files.old }
{
    match read_inputs(alloc, files, path) {
        Ok(inputs) => run_over(rt, alloc, inputs, hands, stopper, sink),
        Err(refusal) => {
            let status = refuse_inputs(alloc, sink, refusal);
            without_run(alloc, status, hands)
        }
    }
}

/// Runs the words, and says the status. `run PATH` reads the script at the path and the files that it loads, runs its jobs on the one hand and
/// answers its queries, one piece of work after another, and writes the transcript as it becomes known; every other command is that of
/// `run_plain`. All files are read before the first event. Where it has no output it writes one fault line. Want of memory is free: its status
/// may stand in place of every other one. The hands are given back.
pub fn run<
    R: Threads + Wait + Sync,
    F: Files,
    H: Hand<SmallWork> + Send + Sync + Drop + 'static,
    P: Stopper,
    S: Sink,
>(
    rt: &R,
    alloc: Global,
    words: &[String],
    files: &mut F,
    hands: Vec<H>,
    stopper: &mut P,
    sink: &mut S,
) -> Ran<H>
    requires { length hands.items ≡ 1 }

    // A run: over the inputs that the files give, or refused with the one fault line of what they give instead.
    ensures ran { (path : List ℕ) → IsRunOf words.now path → IsRun H.honest (seen (F.contents files.old) (F.faults files.old) (F.faults files.new) (S.faults sink.old) (S.faults sink.new) (S.written sink.old) (S.written sink.new)) path result.history.items result.status }
    ensures told { (path : List ℕ) (outcome : Result FixedInputs InputFault) → IsRunOf words.now path
        → TellsOutcomeAt (F.contents files.old) path outcome → EndsAs outcome result.status }

    // Complete: a run over inputs that the files give is done where nothing outside fails.
    ensures complete { (path : List ℕ) (inputs : FixedInputs) → IsRunOf words.now path → TellsOutcomeAt (F.contents files.old) path (Ok inputs)
        → HasNoFault (seen (F.contents files.old) (F.faults files.old) (F.faults files.new) (S.faults sink.old) (S.faults sink.new) (S.written sink.old) (S.written sink.new))
        → (result.status ≡ DONE) ⊎ (result.status ≡ MEMORY) }

    // Words that are no run: what `run_plain` says of them, and no event.
    ensures plain { IsNoRun words.now → IsNoStep words.now → IsPlain words.now (seen (F.contents files.old) (F.faults files.old) (F.faults files.new) (S.faults sink.old) (S.faults sink.new) (S.written sink.old) (S.written sink.new)) result.status }
    ensures no_event { IsNoRun words.now → result.history.items ≡ [] }

    // The word `step`: how it ends over a task of a cube, and the paths that the words say.
    ensures step { (task product stop : List ℕ) → IsStep words.now task product stop → IsStepRun IsTask made_of
        (files_at (F.contents files.old) (F.faults files.old) (F.write_faults files.old) (F.seen files.old))
        (files_at (F.contents files.new) (F.faults files.new) (F.write_faults files.new) (F.seen files.new))
        (sink_at (S.written sink.old) (S.faults sink.old)) (sink_at (S.written sink.new) (S.faults sink.new)) task product stop result.status }

    // Bad words: exactly where the words are no command that one hand serves. More workers than hands are such words.
    ensures bad_words { result.status ≡ BAD_WORDS → AreBadWords words.now }
    ensures no_command { AreBadWords words.now → (result.status ≡ BAD_WORDS) ⊎ (result.status ≡ MEMORY) }
    ensures bad_words_line { result.status ≡ BAD_WORDS → HasLine (seen (F.contents files.old) (F.faults files.old) (F.faults files.new) (S.faults sink.old) (S.faults sink.new) (S.written sink.old) (S.written sink.new)) bad_words_line }

    // The causes of faults.
    ensures read_fault { result.status ≡ READ_FAULT → Rose (F.faults files.old) (F.faults files.new) }
    ensures write_fault { IsNoStep words.now → result.status ≡ WRITE_FAULT → Rose (S.faults sink.old) (S.faults sink.new) }

    // The hands are given back, and their counts cover the ends of steps. Without a run, and where it is refused, none was called.
    ensures back { length result.hands.items ≡ 1 }
    ensures same { (result.status ≡ DONE) ⊎ (result.status ≡ MEMORY) ⊎ (result.status ≡ WRITE_FAULT) ⊎ (result.hands.items ≡ hands.items) }
    ensures same_plain { IsNoRun words.now → result.hands.items ≡ hands.items }
    ensures runs { Risen H.runs hands.items result.hands.items (run_ends result.history.items) }
    ensures faults { Risen H.faults hands.items result.hands.items (fault_ends result.history.items) }

    // The faults that attempts meet. Where all hands tell the same, each end of a step is by the first one of its attempt, or by none; where
    // each hand tells some, an end with a hand's fault has it among them. No run changes them.
    ensures fails { (told : List Fail) → AllTellThat H.fails told hands.items → All (IsEndBy told) result.history.items }
    ensures fails_stand { AllTell H.fails hands.items → All (StandsAmong (entries_of H.fails hands.items)) result.history.items }
    ensures fails_same { TellSame H.fails hands.items result.hands.items }

    // The hands' calls, where they tell them: the new ones are those of the ends of steps, and where hands are honest, each has the task of
    // its step. No product of an honest hand is Damaged.
    ensures calls { (path : List ℕ) (given : FixedInputs) → IsRunOf words.now path → TellsOutcomeAt (F.contents files.old) path (Ok given)
        → HaveCalled H.calls H.honest given result.history.items hands.items result.hands.items }
    ensures undamaged { H.honest → All IsUndamaged result.history.items }

    // The stopper's count covers the attempts that commands found in flight, and its new requests are among these. Without a run it is as it
    // was.
    ensures asks { (path : List ℕ) (given : FixedInputs) → IsRunOf words.now path → TellsOutcomeAt (F.contents files.old) path (Ok given)
        → Risen P.asks (stopper.old ∷ []) (stopper.new ∷ []) (length (stops_over given result.history.items)) }
    ensures requests { (path : List ℕ) (given : FixedInputs) → IsRunOf words.now path → TellsOutcomeAt (F.contents files.old) path (Ok given)
        → AsksAmong (stops_over given result.history.items) (P.requests stopper.old) (P.requests stopper.new) }
    ensures stopper_same { IsNoRun words.now → stopper.new ≡ stopper.old }

    // Want of memory before the first event leaves nothing written.
    ensures quiet { result.status ≡ MEMORY → result.history.items ≡ [] → S.written sink.new ≡ S.written sink.old }

    // With every word but `step` the files stay as they were, and no write of a file failed.
    ensures contents { IsNoStep words.now → F.contents files.new ≡ F.contents files.old }
    ensures write_faults { IsNoStep words.now → F.write_faults files.new ≡ F.write_faults files.old }
{
    match script_path(alloc, words) {
        Ok(Some(path)) => run_at(rt, alloc, path.as_str(), files, hands, stopper, sink),
        Ok(None) => {
            let status = run_plain::<CubeWork, R, F, S>(rt, alloc, words, files, sink);
            without_run(alloc, status, hands)
        }
        Err(_) => without_run(alloc, MEMORY, hands),
    }
}
