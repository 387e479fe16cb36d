// Histories of a small cube, computed from the definitions.

ghost use Rattle.std.specs.Prelude.{◌≡◌, true, [], ◌∷◌, ◌++◌, codes, map, option_map, Some, None};
ghost use Rattle.run_history.specs.Examples.{after_built, after_discarded, after_dropped, after_killed, after_merged, both_months, counting, discarded, february, january, killed, less_one, march, merged, paused, resumed, rows_seen, taken_late, three_months, two_rows, waiting, while_merging, with_gap, with_january};
ghost use Rattle.run_history.specs.Commands.{Command};
ghost use Rattle.run_history.specs.Commands.Command.{Drop, Load, Note, Steer, Submit};
ghost use Rattle.run_history.specs.Commands.Turn.{Claims, QueryEnds, Takes};
ghost use Rattle.run_history.specs.declared.command.Noted.TheVariants.{AwaitJob};
ghost use Rattle.run_history.specs.declared.event.QueryOut.TheVariants.{Answered};
ghost use Rattle.run_history.specs.Steps.{world};
ghost use Rattle.run_history.specs.Histories.{Along, Allowed, IsFresh, is_settled};
ghost use Rattle.run_history.specs.Sets.{rows_of, snapshots_in};
ghost use Rattle.run_history.specs.Snapshots.{loads_of, tables_of};
ghost use Rattle.run_history.specs.Verdicts.{verdict};
ghost use Rattle.run_history.specs.World.{busy, finished_readings, job_of, next_task, number, reading_jobs, set_at, start};
ghost use Rattle.job_machine.specs.declared.state.JobKind.TheVariants.{Build, Merge, Refresh};
ghost use Rattle.job_machine.specs.declared.state.JobState.TheVariants.{Discarded, Finished, Running};
ghost use Rattle.run_history.specs.declared.command.Control.TheVariants.{Discard, Pause, Resume};
ghost use Rattle.run_history.specs.declared.refused.Refused.TheVariants.{Hole, JobEnded, NoSuchJob, NoSuchSegment, NotLoaded, NotOnBounds, OneSegment, OverlapsJob, OverlapsSegment, WrongState};

/// A build whose second attempt is killed and that is resumed, with a query over its segment; and a job that is discarded
/// in flight.
pub fn worked_examples()
    ensures allowed { Along counting Allowed (start 1 1 []) killed }
    ensures fresh { Along counting IsFresh (start 1 1 []) killed }
    ensures settled { is_settled after_killed ≡ true }
    ensures finished { map (λ s. s.job.state) after_killed.jobs ≡ Finished ∷ [] }
    ensures attempts { map (λ s. s.job.attempt) after_killed.jobs ≡ 3 ∷ [] }
    ensures one_swap { number after_killed ≡ 1 }
    ensures rows { rows_seen ≡ two_rows }
    ensures discarded_allowed { Along counting Allowed (start 2 1 []) discarded }
    ensures discarded_state { map (λ s. s.job.state) after_discarded.jobs ≡ Discarded ∷ [] }
    ensures no_swap { number after_discarded ≡ 0 }
    ensures overlaps { verdict counting after_killed (Submit Build january) ≡ Some (OverlapsSegment january) }
    ensures one_segment { verdict counting after_killed (Submit Merge january) ≡ Some OneSegment }
    ensures ended { verdict counting after_killed (Steer Discard 1) ≡ Some (JobEnded Finished) }
    ensures no_job { verdict counting after_killed (Steer Pause 9) ≡ Some (NoSuchJob 9) }
    ensures built_again { verdict counting after_discarded (Submit Build january) ≡ None }
{}

/// Two builds whose segments are merged, and what is refused before, meanwhile and after.
pub fn worked_merge()
    ensures allowed { Along counting Allowed (start 2 1 []) merged }
    ensures built { map (λ s. s.range) after_built.ready ≡ january ∷ february ∷ [] }
    ensures by_jobs { map (λ s. s.job) after_built.ready ≡ 2 ∷ 1 ∷ [] }
    ensures merged { map (λ s. s.range) (set_at after_merged 3) ≡ both_months ∷ [] }
    ensures by_merge { map (λ s. s.job) (set_at after_merged 3) ≡ 3 ∷ [] }
    ensures rows { rows_of counting (set_at after_merged 3) ≡ two_rows ++ two_rows }
    ensures drop_adds { number after_merged ≡ 4 }
    ensures dropped { after_merged.ready ≡ [] }
    ensures queue { after_merged.queue ≡ 4 ∷ [] }
    ensures no_free_worker { busy while_merging ≡ 1 }
    ensures task { option_map (next_task counting while_merging) (job_of while_merging 3) ≡ Some (2 ∷ 1 ∷ []) }
    ensures one_segment { verdict counting after_built (Submit Merge january) ≡ Some OneSegment }
    ensures not_on_bounds { verdict counting after_built (Submit Merge three_months) ≡ Some NotOnBounds }
    ensures hole { verdict counting with_gap (Submit Merge three_months) ≡ Some (Hole 31) }
    ensures merge { verdict counting after_built (Submit Merge both_months) ≡ None }
    ensures refresh { verdict counting after_built (Submit Refresh january) ≡ None }
    ensures no_such_segment { verdict counting after_built (Submit Refresh both_months) ≡ Some NoSuchSegment }
    ensures first_overlap { verdict counting after_built (Submit Build both_months) ≡ Some (OverlapsSegment january) }
    ensures drop { verdict counting after_built (Drop january) ≡ None }
    ensures no_such_drop { verdict counting after_built (Drop march) ≡ Some NoSuchSegment }
    ensures overlaps_job { verdict counting while_merging (Drop january) ≡ Some (OverlapsJob 3) }
    ensures overlaps_merge { verdict counting while_merging (Submit Refresh february) ≡ Some (OverlapsJob 3) }
    ensures pause { verdict counting while_merging (Steer Pause 3) ≡ None }
    ensures wrong_state { verdict counting while_merging (Steer Resume 3) ≡ Some (WrongState Running) }
{}

/// The order of the queue, what may not come, and refusals before anything is loaded.
pub fn worked_queue()
    ensures in_order { (world counting 1 [] waiting).queue ≡ 1 ∷ 2 ∷ 3 ∷ [] }
    ensures paused { (world counting 1 [] paused).queue ≡ 1 ∷ 3 ∷ [] }
    ensures resumed_last { (world counting 1 [] resumed).queue ≡ 1 ∷ 3 ∷ 2 ∷ [] }
    ensures discarded { (world counting 1 [] less_one).queue ≡ 3 ∷ 2 ∷ [] }
    ensures only_the_first { Allowed (world counting 1 [] paused) (Claims 3 1) → ⊥ }
    ensures no_worker { Allowed (world counting 1 [] (waiting ++ Claims 1 1 ∷ [])) (Claims 2 1) → ⊥ }
    ensures await_running { Allowed while_merging (Takes 5 (Note (AwaitJob 3))) → ⊥ }
    ensures late { IsFresh taken_late (QueryEnds 3 (Answered 1)) }
    ensures too_old { IsFresh taken_late (QueryEnds 3 (Answered 0)) → ⊥ }
    ensures not_loaded { verdict counting (start 1 1 []) (Submit Build january) ≡ Some (NotLoaded (codes "F")) }
    ensures not_loaded_first { verdict counting (start 1 1 []) (Submit Refresh january) ≡ Some (NotLoaded (codes "F")) }
{}

/// A set that a run starts with, the snapshots of sets, and the loads that tables come from.
pub fn worked_snapshots()
    ensures first { set_at after_dropped 0 ≡ with_january }
    ensures second { set_at after_dropped 1 ≡ [] }
    ensures accepted { map (λ s. s.job.id) after_dropped.jobs ≡ 1 ∷ [] }
    ensures overlaps { verdict counting (world counting 1 with_january (Takes 1 (Load 0 two_rows) ∷ [])) (Submit Build january) ≡ Some (OverlapsSegment january) }
    ensures start_snapshots { snapshots_in with_january ≡ 1 }
    ensures merged_snapshots { snapshots_in (set_at after_merged 3) ≡ 2 }
    ensures readings { reading_jobs after_merged.jobs ≡ 3 }
    ensures finished { finished_readings after_merged.jobs ≡ 2 }
    ensures loads { loads_of 0 merged ≡ two_rows ∷ [] }
    ensures tables { option_map (tables_of after_merged) (job_of after_merged 4) ≡ Some (two_rows ∷ []) }
{}
