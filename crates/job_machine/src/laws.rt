ghost use Rattle.std.specs.Prelude.{◌≡◌};
ghost use Rattle.job_machine.specs.Job.{JobRecord, Act, next};

use crate::state::JobState;

/// No act changes a job that is FINISHED or DISCARDED.
pub fn ended_jobs_stay()
    ensures finished { (act : Act) (job : JobRecord) → job.state ≡ JobState.Finished → next act job ≡ job }
    ensures discarded { (act : Act) (job : JobRecord) → job.state ≡ JobState.Discarded → next act job ≡ job }
{}
