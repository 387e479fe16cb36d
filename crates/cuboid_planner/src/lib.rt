//! Which cuboids are worth building: a plan by counted rows, and a check that trusts no plan.
//!
//! Every cuboid can be made from the base, and a query can be answered from it; but the base may have as
//! many rows as the data. A plan chooses a few cuboids by what they save: with each choice the cuboids that
//! are within the chosen one cost no more than its rows. The greedy choice takes at each turn the cuboid
//! that saves the most rows, and of several such the least mask, until nothing is saved any more.
//!
//! The crate stands on `agg_group` and knows cuboids by their masks and numbers of rows alone. What a cost
//! and a benefit are stands in `specs/Costs`, which adds everything up anew; the code keeps one cost for
//! each cuboid and mends it with each choice.
//!
//! - `cuboid`: a cuboid with its number of rows, and a choice.
//! - `valid`: whether a plan can be made of some cuboids.
//! - `costs`: what the cuboids cost, kept and mended.
//! - `next`: the next choice.
//! - `plan`: the plan.
//! - `trace`: whether some choices are the first of the plan, without memory.
//! - `laws`: that there is one plan, and that it chooses no cuboid twice.
//! - `examples`: the definitions at a small cube.
#![tactic(auto)]

mod costs;
mod cuboid;
mod examples;
mod laws;
mod next;
mod plan;
mod trace;
mod valid;

pub use cuboid::{Pick, Size};
pub use examples::worked_examples;
pub use laws::laws_of_plans;
pub use plan::greedy;
pub use trace::check_trace;
pub use valid::are_sizes;
