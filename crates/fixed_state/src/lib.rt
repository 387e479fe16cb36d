//! What a run over the fixed cube keeps: the handles of loaded tables, the products of steps done and the ready set, as
//! the parameters of the bookkeeping of `run_state`; and what they have to do with the cube.
//!
//! At its boundary:
//!
//! - `specs/Kept.antt` says what is kept of a world (`AreKept`): a product for each step done of a live job, and the cells of each ready
//!   segment; where hands are honest they are those that the tasks ask for, and the base cuboids of the segments' rows.
//! - [`task_of_job`] makes the task of a job's next step from what is kept, and [`end_step`] takes a product or records why it isn't taken.
//! - [`kept_by_turns`]: what is kept belongs to the world after every other turn too.
//! - [`ReadyCells`] answers the one query over the cells of a ready set.
//!
//! The modules: `table`, `product`, `cells`, `ready`: what is kept; `tasks`: tasks; `ends`: ends of steps; `laws`: what is kept, turn by turn; `examples`:
//! the definitions, computed.
#![tactic(auto)]

mod cells;
mod ends;
mod examples;
mod laws;
mod product;
mod ready;
mod table;
mod tasks;

pub use cells::{ReadyCells, SharedCells, ready_cells};
pub use ends::{end_step, outcome_of};
pub use examples::worked_examples;
pub use laws::kept_by_turns;
use plain_answer::Ask;
pub use product::KeptProduct;
pub use ready::{FixedReady, KeptSegment};
use run_state::RunState;
pub use table::SharedTable;
pub use tasks::task_of_job;

/// The state of a run over the fixed cube.
pub type FixedState = RunState<SharedTable, KeptProduct, FixedReady, Ask>;
