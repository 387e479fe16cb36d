//! The bookkeeping of a run: loaded tables, jobs, their queue, claims and queries in flight, the ready set with its version, sessions.
//!
//! It knows nothing of what a cube is. A loaded table, the product of a step, the ready set and a query are type parameters, so
//! that each cube brings its own. Contracts say which worlds a state stands for (`IsStateOf`), and of each call which turn it is: where
//! the state stood for a world, it stands for that world after the turn. A call that finds no memory leaves what the state stands for.
//!
//! Beside the world a state keeps that the queue has a place for every job, that waiting queries rise by their lines, and that each of
//! their sessions is listed: the invariant of its type. `IsQueued` is a fact of every world that a legal history reaches (`sound_states`),
//! and is asked for.
//!
//! - `parts`: what is kept. `table`: handles of loaded tables. `ready`: handles of ready sets, of which the next one is made by the caller.
//! - `commands`: the start, loads, submissions, drops, and commands on jobs. `verdicts`: what refuses them.
//! - `laws`: what legal histories give the calls.
//! - `steps`: claims and the ends of steps. `queries`: queries and their ends. `reads`: what is asked of a state.
#![tactic(auto)]

mod commands;
mod examples;
mod laws;
mod parts;
mod queries;
mod reads;
mod ready;
mod room;
mod steps;
mod table;
mod verdicts;

pub use commands::{control_job, drop_ready, load, new_state, set_line, submit};
pub use examples::worked_examples;
pub use laws::{merges_compare_lookups_last, sound_states};
pub use parts::{Claim, Controlled, JobEntry, QueryInFlight, RunState, Session, WaitingQuery};
pub use queries::{ask, end_query, next_query, take_query};
pub use reads::{is_current, is_last_step, is_settled, may_note, place_of_job};
pub use ready::ReadyHandle;
pub use steps::{claim, copied_tables, end_advanced, end_failed, end_finished, end_stale};
pub use table::TableHandle;
pub use verdicts::{build_refusal, drop_refusal, merge_refusal, refresh_refusal};
