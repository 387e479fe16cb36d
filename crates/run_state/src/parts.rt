// What a run keeps.

ghost use Rattle.std.specs.Prelude.{◌<◌, length, map};
ghost use Rattle.run_state.specs.Orderly.{AreListed, AreListed-prop, AreRising, AreRising-prop};

use job_list::JobList;
use job_machine::{Job, JobState};
use range_list::Range;

/// A job with what was kept of it.
#[derive(Drop)]
pub struct JobEntry<T, P> {
    pub job: Job,
    pub range: Range,
    /// The tables in force at the first claim, the fact table first and `None` where a table was not loaded; `None` before it.
    pub tables: Option<Vec<Option<T>>>,
    /// The products of the steps done, in their order, until the last step is done.
    pub products: Vec<P>,
}

/// A claim without its end.
#[derive(Clone, Copy)]
pub struct Claim {
    pub job: u32,
    pub attempt: u32,
}

/// A query that waits: its line, its session, and the version at its command.
#[derive(Drop)]
pub struct WaitingQuery<Q> {
    pub line: u32,
    pub session: u32,
    pub query: Q,
    pub at_command: u32,
}

/// A query in flight, with the version at its taking.
#[derive(Clone, Copy)]
pub struct QueryInFlight {
    pub line: u32,
    pub session: u32,
    pub at_command: u32,
    pub at_take: u32,
}

/// A session that a query was accepted of, with the version of its last answer; 0 before it.
#[derive(Clone, Copy)]
pub struct Session {
    pub session: u32,
    pub answered: u32,
}

/// What a command on a job did.
#[derive(Clone, Copy, Debug, PartialEq, Eq)]
pub struct Controlled {
    /// The job's state now.
    pub state: JobState,
    /// The attempt that was in flight, and whose end will have no effect.
    pub stop: Option<u32>,
}

/// The state of a run. Beside the world the queue has a place for every job, waiting queries rise by their lines up to that of the last
/// command, and the sessions of queries are listed.
#[derive(Drop)]
pub struct RunState<T, P, R, Q> {
    /// How many pieces of work may be in flight.
    pub workers: u32,
    /// The line of the last command.
    pub line: u32,
    /// The tables that were loaded last, the fact table first; `None` where none was.
    pub loaded: Vec<Option<T>>,
    /// The jobs, of which the first is job 1.
    pub jobs: Vec<JobEntry<T, P>>,
    /// The jobs that wait for a claim.
    pub queue: JobList,
    /// The claims without their end.
    pub steps: Vec<Claim>,
    /// The ready set.
    pub ready: R,
    /// The queries that wait, by rising lines.
    pub waiting: Vec<WaitingQuery<Q>>,
    /// The queries in flight.
    pub asked: Vec<QueryInFlight>,
    /// The sessions of the queries.
    pub sessions: Vec<Session>,
    /// How many queries were accepted.
    pub accepted: u32,
    ghost places: { length jobs.items < queue.capacity },
    ghost rising: { AreRising 0 line (map (λ q. q.line) waiting.items) } by { AreRising-prop 0 line (map (λ q. q.line) waiting.items) },
    ghost waiting_listed: { AreListed sessions.items (map (λ q. q.session) waiting.items) } by { AreListed-prop sessions.items (map (λ q. q.session) waiting.items) },
    ghost asked_listed: { AreListed sessions.items (map (λ q. q.session) asked.items) } by { AreListed-prop sessions.items (map (λ q. q.session) asked.items) },
}
