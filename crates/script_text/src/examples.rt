// The texts of small blocks, computed from their definitions.

ghost use Rattle.std.specs.Prelude.{◌≡◌, [], ◌∷◌, codes};
ghost use Rattle.job_machine.specs.declared.state.JobKind.TheVariants.{Build};
ghost use Rattle.job_machine.specs.declared.state.JobState.TheVariants.{Error, Finished, Running};
ghost use Rattle.query_faults.specs.declared.bind.BindKind.TheVariants.{NoColumn};
ghost use Rattle.query_faults.specs.declared.sql.SqlKind.TheVariants.{BadToken};
ghost use Rattle.run_history.specs.declared.refused.Refused.TheVariants as refusal;
ghost use Rattle.script_text.specs.Blocks.{block_text, end_text};
ghost use Rattle.script_text.specs.Examples.{four_jobs, refused, two_rows};
ghost use Rattle.script_text.specs.declared.block.Block.TheVariants as block;

/// Blocks of every kind, and the end line.
pub fn worked_blocks()
    ensures cube { block_text 1 (block.Cube (codes "FIXED") 2 1 1) ≡ codes "[1] cube FIXED: 2 dimensions, 1 measures, 1 cuboids\n" }
    ensures loaded { block_text 2 (block.Loaded (codes "F") 3) ≡ codes "[2] loaded F: 3 rows\n" }
    ensures state { block_text 4 (block.State 1 Error) ≡ codes "[4] job 1: ERROR\n" }
    ensures jobs_at_rest { block_text 5 (block.JobsAtRest four_jobs) ≡ codes "[5] jobs at rest: 1 finished, 2 in error, 0 stopped, 1 discarded\n" }
    ensures queries_at_rest { block_text 6 (block.QueriesAtRest 3) ≡ codes "[6] queries at rest: 3\n" }
    ensures jobs { block_text 7 (block.Jobs []) ≡ codes "[7] jobs: 0\njob,kind,start,end,state,done,steps\n" }
    ensures segments { block_text 8 (block.Segments []) ≡ codes "[8] segments: 0\nstart,end,job,cuboids\n" }
    ensures answer { block_text 10 two_rows ≡ codes "[10] query: 2 rows\nD1,COUNT(*),AVG(M)\n\"a,b\",1,-0.5000\n\\N,12,310.5100\n" }
    ensures out_of_memory { block_text 11 block.OutOfMemory ≡ codes "[11] query: out of memory\n" }
    ensures ends { end_text four_jobs 4 ≡ codes "end: 1 finished, 2 in error, 0 stopped, 1 discarded; 4 segments\n" }
{}

/// Refusals.
pub fn worked_refusals()
    ensures not_loaded { block_text 3 (refused (refusal.NotLoaded (codes "F"))) ≡ codes "[3] refused: NotLoaded F\n" }
    ensures full { block_text 3 (refused refusal.TooManySegments) ≡ codes "[3] refused: TooManySegments\n" }
    ensures overlaps_job { block_text 3 (refused (refusal.OverlapsJob 7)) ≡ codes "[3] refused: OverlapsJob 7\n" }
    ensures no_segment { block_text 3 (refused refusal.NoSuchSegment) ≡ codes "[3] refused: NoSuchSegment\n" }
    ensures off_bounds { block_text 3 (refused refusal.NotOnBounds) ≡ codes "[3] refused: NotOnBounds\n" }
    ensures one_segment { block_text 3 (refused refusal.OneSegment) ≡ codes "[3] refused: OneSegment\n" }
    ensures lookups { block_text 3 (refused (refusal.LookupsDiffer (codes "SELLERS"))) ≡ codes "[3] refused: LookupsDiffer SELLERS\n" }
    ensures no_job { block_text 3 (refused (refusal.NoSuchJob 9)) ≡ codes "[3] refused: NoSuchJob 9\n" }
    ensures ended { block_text 3 (refused (refusal.JobEnded Finished)) ≡ codes "[3] refused: JobEnded FINISHED\n" }
    ensures wrong_state { block_text 3 (refused (refusal.WrongState Running)) ≡ codes "[3] refused: WrongState RUNNING\n" }
    ensures no_table { block_text 3 (refused (refusal.NoSuchTable (codes "BUYERS"))) ≡ codes "[3] refused: NoSuchTable BUYERS\n" }
    ensures sql { block_text 3 (refused (refusal.Sql (record { place = 12; kind = BadToken }))) ≡ codes "[3] refused: Sql BadToken 12\n" }
    ensures bind { block_text 3 (refused (refusal.Bind (record { place = 7; kind = NoColumn }))) ≡ codes "[3] refused: Bind NoColumn 7\n" }
{}
