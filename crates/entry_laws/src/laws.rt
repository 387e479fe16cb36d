// What holds of the entries of transcripts.

ghost use Rattle.std.specs.Prelude.{◌≡◌, ℕ, List};
ghost use Rattle.entry_laws.specs.OpenEntries.{open_entries};
ghost use Rattle.flight_laws.specs.OpenLines.{open_count};
ghost use Rattle.run_history.specs.declared.event.Event.{Event};
ghost use Rattle.run_transcript.specs.Runs.{IsLegal, world_of};
ghost use Rattle.run_transcript.specs.Served.{Inputs, Served};
ghost use Rattle.run_transcript.specs.Transcripts.{entries_of};

/// Over every legal history each line has as many open entries as queries without their end: one at most.
pub fn asked_are_open<Query>()
    ensures { (served : Served Query) (inputs : Inputs) (history : List Event) → IsLegal served inputs history → (line : ℕ)
        → open_entries line (entries_of served inputs history) ≡ open_count line (world_of served inputs history).waiting (world_of served inputs history).asked }
{}
