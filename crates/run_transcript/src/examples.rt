// The transcript of a short run, computed from the definitions.

ghost use Rattle.std.specs.Prelude.{◌≡◌, ◌++◌, ◌∷◌, [], codes};
ghost use Rattle.run_history.specs.declared.event.Event.TheVariants.{QueryEnd};
ghost use Rattle.run_history.specs.declared.event.QueryOut.TheVariants.{Memory};
ghost use Rattle.run_transcript.specs.Entries.{told};
ghost use Rattle.run_transcript.specs.Examples.{answer, before_answer, first_blocks, history, inputs, served, text_of};
ghost use Rattle.run_transcript.specs.Runs.{IsFresh, IsWhole};
ghost use Rattle.run_transcript.specs.Transcripts.{entries_of, transcript};
ghost use Rattle.script_text.specs.declared.block.Block.TheVariants as block;

/// A build whose second step is killed, its resume, and a query over the segment: a whole and fresh history.
pub fn worked_history()
    ensures whole { IsWhole served inputs history }
    ensures fresh { IsFresh served inputs history }
{}

/// The blocks that are told before the end of the query, after it, and where the query finds no memory.
pub fn worked_blocks()
    ensures before { told (entries_of served inputs before_answer) ≡ first_blocks }
    ensures answered { told (entries_of served inputs history) ≡ first_blocks ++ (7, answer) ∷ [] }
    ensures no_memory { told (entries_of served inputs (before_answer ++ QueryEnd 7 Memory ∷ [])) ≡ first_blocks ++ (7, block.OutOfMemory) ∷ [] }
{}

/// The text that is told before the end of the query, and the whole transcript.
pub fn worked_transcript()
    ensures before { transcript served inputs before_answer ≡ codes "[1] cube FIXED: 2 dimensions, 1 measures, 1 cuboids\n[2] loaded F: 3 rows\n[3] job 1: BUILD 2012-01-01 2012-02-01\n[4] job 1: ERROR\n[5] job 1: PENDING\n[6] job 1: FINISHED\n" }
    ensures whole { transcript served inputs history ≡ codes "[1] cube FIXED: 2 dimensions, 1 measures, 1 cuboids\n[2] loaded F: 3 rows\n[3] job 1: BUILD 2012-01-01 2012-02-01\n[4] job 1: ERROR\n[5] job 1: PENDING\n[6] job 1: FINISHED\n[7] query: 2 rows\nD1,COUNT(*),SUM(M)\na,1,1\nb,1,2\nend: 1 finished, 0 in error, 0 stopped, 0 discarded; 1 segments\n" }
{}
