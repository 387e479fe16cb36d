// What calls answer.

use fixed_state::ReadyCells;
use job_machine::Ended;
use run_history::{Outcome, Refused};

/// Why a command has no answer.
#[derive(Drop)]
pub enum BoardRefusal {
    /// The command was refused. It is recorded, and all else is as before.
    Refused(Refused),
    /// No memory was found. Nothing is recorded.
    Memory,
}

/// A claimed step: its job, the attempt, and the bytes of its task.
#[derive(Drop)]
pub struct Work {
    pub job: u32,
    pub attempt: u32,
    pub task: Vec<u8>,
}

/// A query that was taken: its line, its session, the version of the ready set over which it is to be answered, and the cells of the
/// segments of this set.
#[derive(Drop)]
pub struct QueryWork {
    pub line: u32,
    pub session: u32,
    pub version: u32,
    pub cells: ReadyCells,
}

/// The end of an attempt: what is recorded of it, and what it was to the job. A job that is Advanced has one step more done, and waits for
/// its next claim.
#[derive(Clone, Copy)]
pub struct StepEnd {
    pub outcome: Outcome,
    pub ended: Ended,
}
