//! A hand that runs the steps of jobs in this process and keeps nothing of them but two counts.
//!
//! It stands on `outside` alone, whose hand in memory is for tests: that one keeps the task of each call, so it grows with every step. This
//! one is for a program. It is honest, meets no fate, and tells that no attempt meets a fault; it doesn't tell its calls, which it forgets.
//! At the boundary: its counts begin at 0 and stand still at the greatest number of a `u64`; bytes that are no task are answered with
//! Ended(9), as a child would end on them.
#![tactic(auto)]

mod local_hand;

pub use local_hand::LocalHand;
