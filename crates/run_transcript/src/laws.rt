// What holds of the transcripts of all histories.

ghost use Rattle.std.specs.Prelude.{◌≡◌, ◌≤◌, ◌++◌, ◌∷◌, ◌==◌, [], ℕ, true, None, Some, List, find, length, slice_index_or};
ghost use Rattle.run_history.specs.Commands.{Command, Turn};
ghost use Rattle.run_history.specs.Commands.Turn.{Claims, QueryEnds, QueryTakes, StepEnds, Takes};
ghost use Rattle.run_history.specs.Histories as histories;
ghost use Rattle.run_history.specs.Histories.{Allowed, is_settled};
ghost use Rattle.run_history.specs.Invariants.{HasSteps, IsStart};
ghost use Rattle.run_history.specs.Steps.{step};
ghost use Rattle.run_history.specs.Verdicts.{verdict};
ghost use Rattle.run_history.specs.World.{Asked, World, number, set_at};
ghost use Rattle.run_history.specs.declared.event.Event.{Event};
ghost use Rattle.run_history.specs.declared.event.Outcome.{Outcome};
ghost use Rattle.run_history.specs.declared.event.QueryOut.{QueryOut};
ghost use Rattle.run_history.specs.declared.refused.Refused.{Refused};
ghost use Rattle.run_history.specs.declared.refused.Refused.TheVariants as refused;
ghost use Rattle.script_text.specs.Blocks.{block_text};
ghost use Rattle.script_text.specs.declared.block.Block.{Block};
ghost use Rattle.script_text.specs.declared.block.Block.TheVariants as block;
ghost use Rattle.script_text.specs.declared.verb.Line.{Line};
ghost use Rattle.run_transcript.specs.Entries.{Entry, accepted_entry, answer_block, entries_after, entries_along, filled, told_text};
ghost use Rattle.run_transcript.specs.Entries.Entry.{Open, Told};
ghost use Rattle.run_transcript.specs.Opens.{AreTold};
ghost use Rattle.run_transcript.specs.Runs.{IsFresh, IsLegal, line_of, lines_in, lines_taken, turn_of, turns_of, world_of};
ghost use Rattle.run_transcript.specs.Served.{Inputs, Served, verb_at};
ghost use Rattle.run_transcript.specs.Transcripts.{entries_of, transcript};

/// One event more at the end of a history: its turns, its world and its entries, and that it stays legal and fresh.
pub fn one_event_more<Query>()
    ensures turns { (served : Served Query) (inputs : Inputs) (history : List Event) (event : Event)
        → turns_of served inputs (history ++ event ∷ []) ≡ turns_of served inputs history ++ turn_of served inputs event ∷ [] }
    ensures world { (served : Served Query) (inputs : Inputs) (history : List Event) (event : Event)
        → world_of served inputs (history ++ event ∷ []) ≡ step served.cube (world_of served inputs history) (turn_of served inputs event) }
    ensures entries { (served : Served Query) (inputs : Inputs) (history : List Event) (event : Event)
        → entries_of served inputs (history ++ event ∷ [])
        ≡ entries_after served inputs.script (world_of served inputs history) (entries_of served inputs history) (turn_of served inputs event) }
    ensures legal { (served : Served Query) (inputs : Inputs) (history : List Event) (event : Event) (later : List ℕ) → IsLegal served inputs history
        → lines_in inputs.script ≡ lines_taken history ++ (line_of event ++ later)
        → Allowed (world_of served inputs history) (turn_of served inputs event) → IsLegal served inputs (history ++ event ∷ []) }
    ensures fresh { (served : Served Query) (inputs : Inputs) (history : List Event) (event : Event) → IsFresh served inputs history
        → histories.IsFresh (world_of served inputs history) (turn_of served inputs event) → IsFresh served inputs (history ++ event ∷ []) }
{}

/// What is told stays told, over every list of turns: later texts begin with earlier ones.
pub fn told_stays_told<Query>()
    ensures along { (served : Served Query) (script : List Line) (w : World Query) (entries : List Entry) (turns : List (Turn Query))
        → (more : List ℕ) × (told_text (entries_along served script w entries turns) ≡ told_text entries ++ more) }
    ensures front { (served : Served Query) (inputs : Inputs) (history later : List Event)
        → (more : List ℕ) × (transcript served inputs (history ++ later) ≡ told_text (entries_of served inputs history) ++ more) }
{}

/// What each turn adds to the entries: a command its block, or an open place where a query was accepted; the end of a query its answer, in
/// its place; every other turn nothing.
pub fn each_turn_adds<Query>()
    ensures refused { (served : Served Query) (script : List Line) (w : World Query) (entries : List Entry) (line : ℕ) (command : Command Query) (refused : Refused)
        → verdict served.cube w command ≡ Some refused
        → entries_after served script w entries (Takes line command) ≡ entries ++ Told line (block.Refused refused) ∷ [] }
    ensures accepted { (served : Served Query) (script : List Line) (w : World Query) (entries : List Entry) (line : ℕ) (command : Command Query)
        → verdict served.cube w command ≡ None
        → entries_after served script w entries (Takes line command) ≡ entries ++ accepted_entry served w line (verb_at script line) command ∷ [] }
    ensures answered { (served : Served Query) (script : List Line) (w : World Query) (entries : List Entry) (line : ℕ) (out : QueryOut) (q : Asked Query)
        → find (λ other. other.waiting.line == line) w.asked ≡ Some q
        → entries_after served script w entries (QueryEnds line out) ≡ filled line (answer_block served w q out) entries }
    ensures claimed { (served : Served Query) (script : List Line) (w : World Query) (entries : List Entry) (job attempt : ℕ)
        → entries_after served script w entries (Claims job attempt) ≡ entries }
    ensures step_ended { (served : Served Query) (script : List Line) (w : World Query) (entries : List Entry) (job attempt : ℕ) (outcome : Outcome)
        → entries_after served script w entries (StepEnds job attempt outcome) ≡ entries }
    ensures query_taken { (served : Served Query) (script : List Line) (w : World Query) (entries : List Entry) (line : ℕ)
        → entries_after served script w entries (QueryTakes line) ≡ entries }
{}

/// How the told text grows: by a block where no place is open, by nothing behind an open place, and where the first open place is filled by
/// its block and what is told behind it.
pub fn more_is_told()
    ensures block { (entries : List Entry) (line : ℕ) (block : Block) → AreTold entries
        → told_text (entries ++ Told line block ∷ []) ≡ told_text entries ++ block_text line block }
    ensures open { (entries back : List Entry) (line : ℕ) → told_text (entries ++ Open line ∷ back) ≡ told_text entries }
    ensures filled { (front back : List Entry) (line : ℕ) (block : Block) → AreTold front
        → told_text (filled line block (front ++ Open line ∷ back))
        ≡ told_text front ++ (block_text line block ++ told_text (filled line block back)) }
{}

/// A history has one entry for each command that was taken, and where nothing waits and nothing is in flight no entry is open.
pub fn whole_histories_tell_all<Query>()
    ensures entries { (served : Served Query) (inputs : Inputs) (history : List Event)
        → length (entries_of served inputs history) ≡ length (lines_taken history) }
    ensures told { (served : Served Query) (inputs : Inputs) (history : List Event)
        → is_settled (world_of served inputs history) ≡ true → AreTold (entries_of served inputs history) }
{}

/// Where a run may start with its ready set, the ready set of a version is the same in every later world, so an answer is over the set that its version names in the whole history.
pub fn answered_sets_stay<Query>()
    ensures { (served : Served Query) (inputs : Inputs) (history later : List Event) → HasSteps served.cube → IsStart inputs.ready → IsLegal served inputs (history ++ later)
        → (version : ℕ) → version ≤ number (world_of served inputs history)
        → set_at (world_of served inputs (history ++ later)) version ≡ set_at (world_of served inputs history) version }
{}
