// What holds of all runs.

ghost use Rattle.cubes_top.specs.Rests.{WholeRunsRest};

/// After a whole run each job is FINISHED, or was paused or discarded last, or its last attempt ended and was not Done.
pub fn whole_runs_rest()
    ensures { WholeRunsRest }
{}
