//! A list of numbers without repeats that a number leaves in constant time wherever it stands: the queue of jobs that wait.
//!
//! The list is doubly linked by index inside its slots: each number below the capacity has a slot, which holds the numbers before
//! and after it where the number is in the list, and the list keeps its head and its tail. The crate stands at the bottom and
//! knows nothing of jobs. Contracts see the list and its capacity, and nothing of the links: that the links are the list is the
//! type's invariant (`specs/Links.antt`). After `reserve` no call takes memory.
#![tactic(auto)]

mod examples;
mod link;
mod list;

pub use examples::worked_examples;
pub use list::JobList;
