ghost use Rattle.std.specs.Prelude.{◌≡◌, true, false, Ok, Err, Some, None};
ghost use Rattle.job_machine.specs.Job.{Act, next, new_job, is_claimable, ended_ok, ended_failed, after_end, attempt_in_flight, answer_to};
ghost use Rattle.job_machine.specs.Examples.{example};

use crate::state::{Ended, JobKind, JobRefusal, JobState};

/// The table, computed on one job of two steps that is paused once and meets three stale ends.
pub fn worked_examples()
    ensures submitted { new_job 1 JobKind.Build 2 ≡ example 0 0 false JobState.Pending }
    ensures claim { next Act.Claim (example 0 0 false JobState.Pending) ≡ example 0 1 true JobState.Running }
    ensures pause { next Act.Pause (example 0 1 true JobState.Running) ≡ example 0 1 false JobState.Stopped }
    ensures paused_attempt { answer_to Act.Pause (attempt_in_flight (example 0 1 true JobState.Running)) (example 0 1 true JobState.Running) ≡ Ok (Some 1) }
    ensures resume { next Act.Resume (example 0 1 false JobState.Stopped) ≡ example 0 1 false JobState.Pending }
    ensures second_claim { next Act.Claim (example 0 1 false JobState.Pending) ≡ example 0 2 true JobState.Running }
    ensures old_attempt { ended_ok (example 0 2 true JobState.Running) 1 ≡ Ended.Stale }
    ensures advanced { ended_ok (example 0 2 true JobState.Running) 2 ≡ Ended.Advanced }
    ensures one_done { after_end Ended.Advanced (example 0 2 true JobState.Running) ≡ example 1 2 false JobState.Running }
    ensures not_in_flight { ended_ok (example 1 2 false JobState.Running) 2 ≡ Ended.Stale }
    ensures third_claim { next Act.Claim (example 1 2 false JobState.Running) ≡ example 1 3 true JobState.Running }
    ensures finished { ended_ok (example 1 3 true JobState.Running) 3 ≡ Ended.Finished }
    ensures both_done { after_end Ended.Finished (example 1 3 true JobState.Running) ≡ example 2 3 false JobState.Finished }
    ensures late_failure { ended_failed (example 2 3 false JobState.Finished) 1 ≡ Ended.Stale }
    ensures ended { answer_to Act.Discard (attempt_in_flight (example 2 3 false JobState.Finished)) (example 2 3 false JobState.Finished) ≡ Err (JobRefusal.JobEnded JobState.Finished) }
    ensures wrong_state { answer_to Act.Pause (attempt_in_flight (example 0 1 false JobState.Error)) (example 0 1 false JobState.Error) ≡ Err (JobRefusal.WrongState JobState.Error) }
{}
