//! What a run meets outside itself: the files that it reads and writes, the sink that its output goes to, the hands
//! that run its steps, the watch by which a step learns that it is to stop, and the stopper that asks it to.
//!
//! This crate stands at the bottom, on `thiserror` alone. Each trait says what a call may do to the outside, told or
//! not: an implementation that tells what it holds is held to that, and one that doesn't, as the files of the system,
//! is held to its counts. A fault is answered only where a count of faults rose, so whoever calls can tell a fault of
//! the outside from a fault of its own. The objects in memory tell all that they hold, and fail at will.
//!
//! At the boundary: counts never fall, and stand still at the greatest number of a `u64`; each constructor begins them
//! at 0. Want of memory is a fault of its own, free to stand in place of every other answer, and leaves the contents of
//! files, the output and the faults that a hand tells as they were.
#![tactic(auto)]

mod examples;
mod fate;
mod file_watch;
mod files;
mod hand;
mod lying_hand;
mod memory_files;
mod memory_hand;
mod memory_sink;
mod memory_stopper;
mod numbered_calls;
mod product;
mod sink;
mod stopper;
mod watch;
mod work;

pub use examples::worked_examples;
pub use fate::{Fate, Fated};
pub use file_watch::FileWatch;
pub use files::{Entry, FileFault, Files};
pub use hand::{Hand, HandFault, Honest};
pub use lying_hand::LyingHand;
pub use memory_files::MemoryFiles;
pub use memory_hand::MemoryHand;
pub use memory_sink::MemorySink;
pub use memory_stopper::MemoryStopper;
pub use sink::{Sink, SinkFault};
pub use stopper::{Request, StopFault, Stopper};
pub use watch::{NoWatch, Watch};
pub use work::{StepWork, WorkFault};
