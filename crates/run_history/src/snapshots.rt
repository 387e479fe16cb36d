// What jobs and segments read, over every history.

ghost use Rattle.std.specs.Prelude.{◌≡◌, ◌≤◌, ◌+◌, ℕ, true, List, fold, length, Some};
ghost use Rattle.job_machine.specs.declared.state.JobKind.TheVariants.{Merge};
ghost use Rattle.run_history.specs.Commands.{Turn};
ghost use Rattle.run_history.specs.Commands.Turn.{StepEnds};
ghost use Rattle.run_history.specs.Cubes.{CubeSemantics};
ghost use Rattle.run_history.specs.Histories.{Along, Allowed, IsLegal};
ghost use Rattle.run_history.specs.Invariants.{HasSteps, IsSound};
ghost use Rattle.run_history.specs.Sets.{ReadySet, rows_of, snapshots_in};
ghost use Rattle.run_history.specs.Snapshots.{AreFromLoads, AreLoaded, tables_of};
ghost use Rattle.run_history.specs.Steps.{step, world};
ghost use Rattle.run_history.specs.World.{Submitted, World, finished_readings, is_live, job_of, parts_of, reading_jobs, reads_tables, set_at};
ghost use Rattle.run_history.specs.declared.event.Outcome.{Outcome};

/// The parts of a live MERGE stay, from its submission on and also while it is at rest.
pub fn parts_stay<Query, Answer>()
    ensures { (cube : CubeSemantics Query Answer) → HasSteps cube → (w : World Query) → IsSound cube w → (turns : List (Turn Query)) → Along cube Allowed w turns
        → (job : ℕ) (s t : Submitted) → job_of w job ≡ Some s → job_of (fold (step cube) w turns) job ≡ Some t → s.job.kind ≡ Merge
        → is_live t.job.state ≡ true → parts_of (fold (step cube) w turns) t ≡ parts_of w s }
{}

/// The segments of a set are made of no more snapshots than those of the set that the run started with and one for each BUILD and REFRESH
/// that is FINISHED, so no more than one for each that was accepted.
pub fn few_snapshots<Query, Answer>()
    ensures finished { (cube : CubeSemantics Query Answer) (workers : ℕ) (initial : ReadySet) (turns : List (Turn Query)) (version : ℕ)
        → snapshots_in (set_at (world cube workers initial turns) version) ≤ snapshots_in initial + finished_readings (world cube workers initial turns).jobs }
    ensures accepted { (cube : CubeSemantics Query Answer) (workers : ℕ) (initial : ReadySet) (turns : List (Turn Query)) (version : ℕ)
        → snapshots_in (set_at (world cube workers initial turns) version) ≤ snapshots_in initial + reading_jobs (world cube workers initial turns).jobs }
{}

/// Once a BUILD or a REFRESH was accepted, each table of the cube was loaded, and its snapshot has for each table the rows of a load of it:
/// those of its first claim, and before that those in force.
pub fn loaded_stays<Query, Answer>()
    ensures loaded { (cube : CubeSemantics Query Answer) (workers : ℕ) (initial : ReadySet) (turns : List (Turn Query)) (job : ℕ) (s : Submitted)
        → job_of (world cube workers initial turns) job ≡ Some s → reads_tables s.job.kind ≡ true → AreLoaded (world cube workers initial turns) }
    ensures tables { (cube : CubeSemantics Query Answer) (workers : ℕ) (initial : ReadySet) (turns : List (Turn Query)) (job : ℕ) (s : Submitted)
        → job_of (world cube workers initial turns) job ≡ Some s → reads_tables s.job.kind ≡ true
        → AreFromLoads turns (length cube.tables) (tables_of (world cube workers initial turns) s) }
{}

/// The end of a step of a MERGE leaves the joined rows of the ready set, also where the segments in its range are swapped for one.
pub fn merges_keep_rows<Query, Answer>()
    ensures { (cube : CubeSemantics Query Answer) (w : World Query) → IsSound cube w → (job attempt : ℕ) (outcome : Outcome) (s : Submitted) → job_of w job ≡ Some s
        → s.job.kind ≡ Merge → rows_of cube (step cube w (StepEnds job attempt outcome)).ready ≡ rows_of cube w.ready }
{}
