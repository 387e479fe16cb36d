//! What a run meets outside itself, as the system has it: files, standard output, children that run steps, and the
//! files by which they are asked to stop.
//!
//! These are the objects that the traits of `outside` are for when a program runs; those in memory stand in `outside`.
//! They tell nothing of what they hold. So what is proved of them is that each call is safe and ends, unless it waits
//! for a child, that counts rise as the traits ask, and where the files of an attempt stand. What a file, a child or
//! standard output really holds isn't claimed.
//!
//! - `os_files`, `std_sink`: the files of the system and standard output. `file_disk`: one file as a disk whose power may go.
//! - `paths`: where the files of an attempt stand: its task, its product, and the file that asks it to stop. A hand and a
//!   stopper have them from here alone, so they agree.
//! - `child`: how a program is started on a step, and how it ended.
//! - `proc_hand`: a hand that starts a program for each step. `os_stopper`: who asks such a program to stop.
#![tactic(auto)]

mod child;
mod file_disk;
mod os_files;
mod os_stopper;
mod paths;
mod proc_hand;
mod std_sink;

pub use file_disk::FileDisk;
pub use os_files::OsFiles;
pub use os_stopper::OsStopper;
pub use paths::{product_path, stop_path, task_path};
pub use proc_hand::ProcHand;
pub use std_sink::StdSink;
