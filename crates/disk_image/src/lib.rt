//! A file on a disk whose power may go at any time: what a read gives, and its crash images, the bytes that a loss of
//! power may leave.
//!
//! Until a sync, a write may leave any bytes in its range and past the file's old end, and a cut any length down to the
//! new one; a sync that answered Ok makes what a read gives durable. A disk also has the crash images since an earlier
//! time, those of each call in between too. A call fails only where the count of faults rose. This crate stands on
//! `outside`, whose counts it shares.
#![tactic(auto)]

mod disk;
mod examples;
mod fault;
mod memory_disk;
mod record;
mod replay;

pub use disk::Disk;
pub use examples::{worked_crashes, worked_examples};
pub use fault::DiskFault;
pub use memory_disk::MemoryDisk;
pub use record::Fill;
