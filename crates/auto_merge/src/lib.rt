//! Which segments to drop and which to merge: plans over the ranges of ready segments.
//!
//! A cube that is built day by day gets many small segments, and each query reads them all. A plan tidies
//! them up: ranges that are older than what is retained are dropped, and of the rest neighbours without a
//! hole are merged as soon as together they have the days of a threshold. The thresholds are numbers of
//! days, as 7 and 28 for weeks and four weeks; the greatest that some neighbours reach comes first, so that
//! a small merge never spoils a large one.
//!
//! The crate stands on `range_list` and knows segments by their ranges alone. What a plan is stands in
//! `specs/`: `Expiry` what is dropped, `Chances` which neighbours are worth one range, `Plans` the plan as
//! a whole, and `Turns` what its actions make of the ranges.
//!
//! - `action`: what a plan consists of.
//! - `expiry`: the ranges that are dropped.
//! - `chance`: the next ranges to be merged.
//! - `plan`: the plan.
//! - `laws`: that there is one plan, and that each of its actions can be taken at its turn.
//! - `examples`: the definitions at small lists.
#![tactic(auto)]

mod action;
mod chance;
mod examples;
mod expiry;
mod laws;
mod plan;

pub use action::Action;
pub use examples::worked_examples;
pub use laws::laws_of_plans;
pub use plan::plan_of;
