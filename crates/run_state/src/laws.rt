// What legal histories give the calls on states.

ghost use Rattle.std.specs.Prelude.{◌≡◌, []};
ghost use Rattle.std.specs.Option.{option_or};
ghost use Rattle.job_machine.specs.declared.state.JobKind.TheVariants.{Merge};
ghost use Rattle.range_list.specs.Ranges.{Interval};
ghost use Rattle.run_history.specs.Commands.Command.{Submit};
ghost use Rattle.run_history.specs.Cubes.{CubeSemantics, Rows};
ghost use Rattle.run_history.specs.Invariants.{IsSound};
ghost use Rattle.run_history.specs.Verdicts.{lookups_differ, verdict};
ghost use Rattle.run_history.specs.World.{World};
ghost use Rattle.run_state.specs.Answers.{named};
ghost use Rattle.run_state.specs.Numbered.{NumberedSet};
ghost use Rattle.run_state.specs.Orders.{IsQueued};
ghost use Rattle.run_state.specs.States.{IsStateOf};
ghost use Rattle.run_state.specs.declared.parts.RunState.{RunState};

/// A state of a sound world, as every legal history leaves it, has in its queue exactly the jobs that wait for a claim.
pub fn sound_states<T, P, R, Query, Answer>()
    ensures { (cube : CubeSemantics Query Answer) (rows : T → Rows) (ready_set : R → NumberedSet) (w : World Query) (s : RunState T P R Query) → IsSound cube w → IsStateOf rows ready_set w s → IsQueued s }
{}

/// A MERGE is refused by its range and the jobs first, and by lookups that differ last.
pub fn merges_compare_lookups_last<Query, Answer>()
    ensures { (cube : CubeSemantics Query Answer) (w : World Query) (range : Interval)
        → verdict cube w (Submit Merge range) ≡ option_or (verdict (named []) w (Submit Merge range)) (lookups_differ cube range w) }
{}
