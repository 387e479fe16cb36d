ghost use Rattle.std.specs.Prelude.{◌≡◌, Some};
ghost use Rattle.std.specs.Fmt.{padded};
ghost use Rattle.job_machine.specs.Texts.{state_text, kind_text};

use std::fmt;

/// Where a job stands. A job is live in all states but `Discarded` and `Finished`, which it never leaves.
#[derive(Clone, Copy, Debug, PartialEq, Eq)]
pub enum JobState {
    /// It waits for its first claim, or for the first one after a resume.
    Pending,
    /// One of its steps is in flight, or it waits for a claim between two steps.
    Running,
    /// Its last step failed. A resume tries the step again.
    Error,
    /// It was paused.
    Stopped,
    /// It was given up.
    Discarded,
    /// All its steps are done.
    Finished,
}

impl JobState {
    /// The state's printed word, in capitals.
    pub fn as_str(&self) -> &'static str
        ensures { result.now ≡ state_text self.now }
    {
        match self {
            JobState::Pending => "PENDING",
            JobState::Running => "RUNNING",
            JobState::Error => "ERROR",
            JobState::Stopped => "STOPPED",
            JobState::Discarded => "DISCARDED",
            JobState::Finished => "FINISHED",
        }
    }
}

impl fmt::Display for JobState {
    ghost output = { λ state. Some (state_text state) };

    ghost styled_output = { λ state spec. Some (padded spec (state_text state)) };

    fn fmt<W: fmt::Write>(&self, f: &mut fmt::Formatter<W>) -> fmt::Result {
        f.pad(self.as_str())
    }
}

/// What a job does to the segments of its range.
#[derive(Clone, Copy, Debug, PartialEq, Eq)]
pub enum JobKind {
    /// Makes a segment of a range that has none.
    Build,
    /// Makes the segment of a range again, from the tables loaded now.
    Refresh,
    /// Makes one segment of the segments in a range.
    Merge,
}

impl JobKind {
    /// The kind's printed word, in capitals.
    pub fn as_str(&self) -> &'static str
        ensures { result.now ≡ kind_text self.now }
    {
        match self {
            JobKind::Build => "BUILD",
            JobKind::Refresh => "REFRESH",
            JobKind::Merge => "MERGE",
        }
    }
}

impl fmt::Display for JobKind {
    ghost output = { λ kind. Some (kind_text kind) };

    ghost styled_output = { λ kind spec. Some (padded spec (kind_text kind)) };

    fn fmt<W: fmt::Write>(&self, f: &mut fmt::Formatter<W>) -> fmt::Result {
        f.pad(self.as_str())
    }
}

/// What the end of a step is to its job.
#[derive(Clone, Copy, Debug, PartialEq, Eq)]
pub enum Ended {
    /// The attempt is an old one, or its job was paused or discarded since: the end has no effect.
    Stale,
    /// One step more is done, and others are left.
    Advanced,
    /// The last step is done.
    Finished,
    /// The step failed.
    Failed,
}

/// Why a pause, a resume or a discard was refused. The state in it is the job's.
#[derive(Clone, Copy, Debug, PartialEq, Eq)]
pub enum JobRefusal {
    /// The job is DISCARDED or FINISHED.
    JobEnded(JobState),
    /// The job is live, and in a state that the command has no use for.
    WrongState(JobState),
}
