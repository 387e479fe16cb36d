// The events of a run.

/// One turn of the coordinator on the job board. Commands and queries are named by their script line, steps by job and
/// attempt.
#[derive(Clone, Copy, Debug, PartialEq, Eq)]
pub enum Event {
    /// The command of this line took effect.
    Command(u32),
    /// A hand was given this job's next step, under this attempt.
    Claim(u32, u32),
    /// This attempt of this job ended.
    StepEnd(u32, u32, Outcome),
    /// The query of this line was given to a worker.
    QueryTake(u32),
    /// The query of this line was answered.
    QueryEnd(u32, QueryOut),
}

/// How an attempt ended.
#[derive(Clone, Copy, Debug, PartialEq, Eq)]
pub enum Outcome {
    /// Its product was taken.
    Done,
    /// Its child was not started.
    NotStarted,
    /// Its child ended with this status.
    Ended(u8),
    /// Its child was killed.
    Killed,
    /// Its child left no file that could be read.
    NoFile,
    /// The bytes of its file are no product of its task.
    Damaged,
    /// Memory was wanting.
    Memory,
}

/// How a query ended.
#[derive(Clone, Copy, Debug, PartialEq, Eq)]
pub enum QueryOut {
    /// With a table, over the ready set of this version.
    Answered(u32),
    /// Memory was wanting.
    Memory,
}
