//! Jobs and their state table: what a claim, the end of a step, a pause, a resume and a discard make of a job.
//!
//! The crate stands at the bottom: it knows a job's numbers and its state, and nothing of ranges, tasks or queues. The job board
//! above keeps a list of these jobs. Contracts see a job as the record of its fields, and each call's contract is the table in
//! `specs/Job.antt`. No call takes memory, and a refusal or a stale end leaves the job as it was.
//!
//! Every job keeps that its steps done are fewer than its steps, or as many exactly where it is FINISHED, and that it is in
//! flight only where it is RUNNING.
#![tactic(auto)]

mod examples;
mod job;
mod laws;
mod state;

pub use examples::worked_examples;
pub use job::Job;
pub use laws::ended_jobs_stay;
pub use state::{Ended, JobKind, JobRefusal, JobState};
