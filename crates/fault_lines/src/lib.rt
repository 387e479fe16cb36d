//! How a command ends: its status, and on the sink its output or its one fault line.
//!
//! It stands on `outside`, through which commands read and write, and on `table_reader` for the faults of tables. The modules: `status`
//! (the exit statuses), `output` (what every command writes), `table` (the fault line of a table).
//!
//! The invariant at its boundary: a line is appended whole where no write failed, else a part from its front; want of memory appends
//! nothing. What a file at a path holds, as far as files tell it, is a definition in `specs/Files.antt`.
#![tactic(auto)]

mod output;
pub mod status;
mod table;

pub use output::{MOST_BYTES, finish, refuse, refuse_too_large, refuse_unread};
pub use table::refuse_table;
