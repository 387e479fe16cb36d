// The parts of commands.

/// A command on one job.
#[derive(Clone, Copy, Debug, PartialEq, Eq)]
pub enum Control {
    Pause,
    Resume,
    Discard,
}

/// A command that changes nothing.
#[derive(Clone, Copy, Debug, PartialEq, Eq)]
pub enum Noted {
    /// It waits until this job is neither PENDING nor RUNNING.
    AwaitJob(u32),
    /// It waits until no job is PENDING or RUNNING.
    AwaitJobs,
    /// It waits until each accepted query has its end.
    AwaitQueries,
    /// It waits for nothing.
    Other,
}
