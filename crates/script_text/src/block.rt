// What is written for the commands of a run.

use cube_val::{Items, NameText};
use job_machine::{JobKind, JobState};
use plain_answer::AnswerTable;
use range_list::Range;
use run_history::Refused;

/// How many jobs are in each of the states in which a job rests.
#[derive(Clone, Copy, Debug, PartialEq, Eq)]
pub struct Tally {
    pub finished: u32,
    pub error: u32,
    pub stopped: u32,
    pub discarded: u32,
}

/// One job of a listing.
#[derive(Clone, Copy, Debug, PartialEq, Eq)]
pub struct JobLine {
    pub id: u32,
    pub kind: JobKind,
    pub range: Range,
    pub state: JobState,
    /// How many of its steps are done.
    pub done: u32,
    pub steps: u32,
}

/// One ready segment of a listing.
#[derive(Clone, Copy, Debug, PartialEq, Eq)]
pub struct SegmentLine {
    pub range: Range,
    /// The job that made it.
    pub job: u32,
    pub cuboids: u32,
}

/// What is written for one command.
#[derive(Drop)]
pub enum Block {
    /// The cube that the descriptor describes. Its dimensions are its rowkey columns.
    Cube {
        name: NameText,
        dimensions: u32,
        measures: u32,
        cuboids: u32,
    },
    /// A table was loaded.
    Loaded {
        table: NameText,
        rows: u32,
    },
    /// A job was submitted.
    Job {
        id: u32,
        kind: JobKind,
        range: Range,
    },
    /// A segment was taken away.
    Dropped(Range),
    /// Where a job stands after a command on it.
    State {
        id: u32,
        state: JobState,
    },
    /// No job is PENDING or RUNNING.
    JobsAtRest(Tally),
    /// Each accepted query has its end, and there were so many.
    QueriesAtRest(u32),
    /// The jobs by number.
    Jobs(Items<JobLine>),
    /// The ready segments by start.
    Segments(Items<SegmentLine>),
    /// The answer to a query.
    Answer(AnswerTable),
    /// A query found no memory.
    OutOfMemory,
    /// The command was refused.
    Refused(Refused),
}
