//! The definitions of a run: events, the world that a history of them gives, verdicts on commands, and which histories are legal and
//! fresh. It stands below the job board, which holds the world of its history, and above the job table, the ranges of days and the
//! values of tables. What a cube is (its steps, tasks, products, rows and answers) is a parameter of the definitions, one record `CubeSemantics`.
//!
//! Over every legal history the invariant `IsSound` holds of jobs, queue and ready sets (`sound_histories`); the laws of one turn and of
//! histories are functions with empty bodies, in `histories`, and lemmas in `proofs/Laws.antt`, `proofs/Sound.antt` and `proofs/Kept.antt`.
#![tactic(auto)]

mod bounds;
mod command;
mod event;
mod examples;
mod histories;
mod refused;
mod snapshots;

pub use bounds::numbers_are_small;
pub use command::{Control, Noted};
pub use event::{Event, Outcome, QueryOut};
pub use examples::{worked_examples, worked_merge, worked_queue, worked_snapshots};
pub use histories::{
    live_jobs_are_in_place, refused_changes_nothing, sets_apart, sets_stay, sound_histories,
    turns_keep, versions_are_lawful,
};
pub use refused::Refused;
pub use snapshots::{few_snapshots, loaded_stays, merges_keep_rows, parts_stay};
