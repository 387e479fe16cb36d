//! The job board over the fixed cube: the coordinator's state, with one call for each event, and the history that gives it.
//!
//! A [`Board`] stands above the bookkeeping of `run_state` and what `fixed_state` keeps of the cube, and below the coordinator. Contracts
//! see its [`Board`] as a `BoardModel`: the number of workers, the turns so far with their commands, the room that is reserved, and the products
//! that are kept of the steps done; `now` of it is the world of those turns. Each call adds exactly the one turn that it names, a
//! refused command too; the turns are always a legal history, and fresh ([`Board::history`]).
//!
//! Room for a turn is reserved before it (`reserve_turn`), so that `control`, `note`, `end_query` and the end of an attempt that doesn't
//! count take no memory. A board knows one kind of job, BUILD, and the one query of the fixed cube.
//!
//! What stands above speaks of the board's cube, its query and its hands' answers by the words of `specs/Ledger.antt`.
//!
//! The modules: `turn`: turns and the log of them; `board`: the board; `answers`: what its calls answer; `examples`: the definitions, computed.
#![tactic(auto)]

mod answers;
mod board;
mod examples;
mod turn;

pub use answers::{BoardRefusal, QueryWork, StepEnd, Work};
pub use board::Board;
pub use examples::worked_examples;
pub use fixed_cube::SmallWork;
use fixed_state::{KeptProduct, SharedTable};
use run_state::JobEntry;
pub use turn::BoardTurn;

/// A job of a board, with what is kept of it.
pub type BoardJob = JobEntry<SharedTable, KeptProduct>;
