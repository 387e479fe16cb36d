// What holds over every legal history.

ghost use Rattle.std.specs.Prelude.{◌≡◌, ◌≤◌, ◌↔◌, ◌+◌, ◌==◌, ℕ, true, false, All, List, find, fold, length, Some};
ghost use Rattle.std.specs.List.{list_any};
ghost use Rattle.job_machine.specs.Job.{is_current};
ghost use Rattle.job_machine.specs.declared.state.JobKind.{JobKind};
ghost use Rattle.job_machine.specs.declared.state.JobKind.TheVariants.{Build, Merge, Refresh};
ghost use Rattle.job_machine.specs.declared.state.JobState.TheVariants.{Discarded};
ghost use Rattle.range_list.specs.Ranges.{Interval, IsApart};
ghost use Rattle.run_history.specs.Commands.{Command, Turn};
ghost use Rattle.run_history.specs.Commands.Command.{Ask, Load, Note, Steer, Submit};
ghost use Rattle.run_history.specs.Commands.Turn.{Claims, QueryEnds, QueryTakes, StepEnds, Takes};
ghost use Rattle.run_history.specs.Cubes.{CubeSemantics, Rows};
ghost use Rattle.run_history.specs.Histories.{Along, Allowed, HasFreshAnswers, IsFresh, IsLawful, IsLegal};
ghost use Rattle.run_history.specs.Invariants.{AreClaims, AreQueries, CanMerge, HasSteps, IsLeastOverlap, IsSound, IsStart, ranges_of};
ghost use Rattle.run_history.specs.Kept.{IsJobKept, IsKept, SameSets, ends_query};
ghost use Rattle.run_history.specs.Steps.{step, world};
ghost use Rattle.run_history.specs.Verdicts.{is_ready, most_segments, overlaps_job, too_many_segments, verdict};
ghost use Rattle.run_history.specs.World.{Asked, Submitted, World, is_live, job_of, live_builds, next_task, set_at};
ghost use Rattle.run_history.specs.declared.command.Control.{Control};
ghost use Rattle.run_history.specs.declared.command.Noted.{Noted};
ghost use Rattle.run_history.specs.declared.event.Outcome.{Outcome};
ghost use Rattle.run_history.specs.declared.event.QueryOut.{QueryOut};
ghost use Rattle.run_history.specs.declared.refused.Refused.{Refused};
ghost use Rattle.run_history.specs.declared.refused.Refused.TheVariants.{OverlapsJob, TooManySegments};
ghost use Rattle.run_history.specs.Sets.{ReadySet, is_inside, is_overlap};

/// The jobs, the queue and the ready sets keep their invariant over every legal history that starts with a set that is apart and has no
/// more segments than there may be, and so do the claims without their end.
pub fn sound_histories<Query, Answer>()
    ensures claims { (cube : CubeSemantics Query Answer) → HasSteps cube → (workers : ℕ) (initial : ReadySet) (turns : List (Turn Query)) → IsStart initial → IsLegal cube workers initial turns
        → AreClaims (world cube workers initial turns).jobs (world cube workers initial turns).steps }
    ensures sound { (cube : CubeSemantics Query Answer) → HasSteps cube → (workers : ℕ) (initial : ReadySet) (turns : List (Turn Query)) → IsStart initial
        → IsLegal cube workers initial turns → IsSound cube (world cube workers initial turns) }
{}

/// Every ready set of every legal history is apart.
pub fn sets_apart<Query, Answer>()
    ensures { (cube : CubeSemantics Query Answer) → HasSteps cube → (workers : ℕ) (initial : ReadySet) (turns : List (Turn Query)) → IsStart initial → IsLegal cube workers initial turns
        → (version : ℕ) → IsApart (ranges_of (set_at (world cube workers initial turns) version)) }
{}

/// The end of an attempt that isn't current, a command on a job, a claim, and every event of a job that is DISCARDED leave the
/// ready sets as they were, in every world, and so do submissions, loads and queries.
pub fn sets_stay<Query, Answer>()
    ensures stale { (cube : CubeSemantics Query Answer) (w : World Query) (job attempt : ℕ) (outcome : Outcome) (s : Submitted) → job_of w job ≡ Some s
        → is_current s.job attempt ≡ false → SameSets w (step cube w (StepEnds job attempt outcome)) }
    ensures discarded { (cube : CubeSemantics Query Answer) (w : World Query) (job attempt : ℕ) (outcome : Outcome) (s : Submitted) → job_of w job ≡ Some s
        → s.job.state ≡ Discarded → SameSets w (step cube w (StepEnds job attempt outcome)) }
    ensures steered { (cube : CubeSemantics Query Answer) (w : World Query) (line job : ℕ) (control : Control) → SameSets w (step cube w (Takes line (Steer control job))) }
    ensures claimed { (cube : CubeSemantics Query Answer) (w : World Query) (job attempt : ℕ) → SameSets w (step cube w (Claims job attempt)) }
    ensures submitted { (cube : CubeSemantics Query Answer) (w : World Query) (line : ℕ) (kind : JobKind) (range : Interval) → SameSets w (step cube w (Takes line (Submit kind range))) }
    ensures loaded { (cube : CubeSemantics Query Answer) (w : World Query) (line table : ℕ) (rows : Rows) → SameSets w (step cube w (Takes line (Load table rows))) }
    ensures asked { (cube : CubeSemantics Query Answer) (w : World Query) (line session : ℕ) (query : Query) → SameSets w (step cube w (Takes line (Ask session query))) }
    ensures noted { (cube : CubeSemantics Query Answer) (w : World Query) (line : ℕ) (noted : Noted) → SameSets w (step cube w (Takes line (Note noted))) }
    ensures taken { (cube : CubeSemantics Query Answer) (w : World Query) (line : ℕ) → SameSets w (step cube w (QueryTakes line)) }
    ensures answered { (cube : CubeSemantics Query Answer) (w : World Query) (line : ℕ) (out : QueryOut) → SameSets w (step cube w (QueryEnds line out)) }
{}

/// A command that is refused changes nothing but the line of the last command, in every world.
pub fn refused_changes_nothing<Query, Answer>()
    ensures { (cube : CubeSemantics Query Answer) (w : World Query) (line : ℕ) (command : Command Query) (refused : Refused) → verdict cube w command ≡ Some refused
        → step cube w (Takes line command) ≡ record w { line = line } }
{}

/// Over a world that a legal history reaches, further legal turns keep every job and every ready set, and while an attempt counts the
/// task of its job's next step stays; a query in flight stays until its end; and where answers are fresh the versions of a session's
/// last answers never fall.
pub fn turns_keep<Query, Answer>()
    ensures work { (cube : CubeSemantics Query Answer) → HasSteps cube → (w : World Query) → IsSound cube w → (turns : List (Turn Query))
        → Along cube Allowed w turns → IsKept w (fold (step cube) w turns) }
    ensures task { (cube : CubeSemantics Query Answer) (old new : World Query) (s t : Submitted) (attempt : ℕ) → IsJobKept old new s t → attempt ≤ s.job.attempt
        → is_current t.job attempt ≡ true → next_task cube new t ≡ next_task cube old s }
    ensures query { (cube : CubeSemantics Query Answer) (w : World Query) (turn : Turn Query) (line : ℕ) (q : Asked Query) → ends_query line turn ≡ false
        → find (λ other. other.waiting.line == line) w.asked ≡ Some q → find (λ other. other.waiting.line == line) (step cube w turn).asked ≡ Some q }
    ensures answers { (cube : CubeSemantics Query Answer) (w : World Query) (turn : Turn Query) → IsFresh w turn → (session : ℕ)
        → w.answered session ≤ (step cube w turn).answered session }
{}

/// Over every legal and fresh history no version is beyond the last one, and the version at which a query in flight was taken is lawful
/// at its end.
pub fn versions_are_lawful<Query, Answer>()
    ensures queries { (cube : CubeSemantics Query Answer) (workers : ℕ) (initial : ReadySet) (turns : List (Turn Query)) → IsLegal cube workers initial turns
        → HasFreshAnswers cube workers initial turns → AreQueries (world cube workers initial turns) }
    ensures at_take { (w : World Query) → AreQueries w → (line : ℕ) (q : Asked Query) → find (λ other. other.waiting.line == line) w.asked ≡ Some q
        → IsLawful w (Some q) q.at_take }
{}

/// In a world that a legal history reaches, TooManySegments comes exactly where ready segments and live BUILD jobs together are as many
/// as there may be, OverlapsJob carries the least number of a live job that overlaps, and what a live job's swap replaces lies inside its
/// range.
pub fn refusals_are_exact<Query, Answer>()
    ensures full { (cube : CubeSemantics Query Answer) (w : World Query) → IsSound cube w
        → (too_many_segments cube w ≡ Some TooManySegments) ↔ (length w.ready + live_builds w.jobs ≡ most_segments) }
    ensures least { (cube : CubeSemantics Query Answer) (w : World Query) → IsSound cube w → (range : Interval) (job : ℕ)
        → overlaps_job cube range w ≡ Some (OverlapsJob job) → IsLeastOverlap w range job }
    ensures swap { (cube : CubeSemantics Query Answer) (w : World Query) → IsSound cube w → (job : ℕ) (s : Submitted) → job_of w job ≡ Some s
        → is_live s.job.state ≡ true → All (λ other. is_overlap other.range s.range ≡ true → is_inside s.range other.range ≡ true) w.ready }
{}

/// In a world that a legal history reaches a live BUILD's range overlaps no ready segment, a live REFRESH's is that of one, and that of a
/// live MERGE is filled end to end by two at least, whose lookups don't differ.
pub fn live_jobs_are_in_place<Query, Answer>()
    ensures build { (cube : CubeSemantics Query Answer) (w : World Query) → IsSound cube w → (job : ℕ) (s : Submitted) → job_of w job ≡ Some s
        → is_live s.job.state ≡ true → s.job.kind ≡ Build → list_any (λ other. is_overlap other.range s.range) w.ready ≡ false }
    ensures refresh { (cube : CubeSemantics Query Answer) (w : World Query) → IsSound cube w → (job : ℕ) (s : Submitted) → job_of w job ≡ Some s
        → is_live s.job.state ≡ true → s.job.kind ≡ Refresh → is_ready s.range w.ready ≡ true }
    ensures merge { (cube : CubeSemantics Query Answer) (w : World Query) → IsSound cube w → (job : ℕ) (s : Submitted) → job_of w job ≡ Some s
        → is_live s.job.state ≡ true → s.job.kind ≡ Merge → CanMerge cube s.range w.ready }
{}
