//! Half-open ranges of days, and lists of them that rise and have no day in common.
//!
//! The set of ready segments, the live jobs and the plans for merging are lists of this kind. Contracts
//! see a [`Range`] as an `Interval`, its start and its end by their day numbers, and a [`RangeList`] as the
//! list of its ranges. Both facts that the layers above rest on are the types' own: a range's start comes
//! before its end, and a list's ranges rise and no two overlap. Only `insert` takes memory.
//!
//! - `range`: one range.
//! - `list`: lists of ranges, by binary search.
//! - `cover`: how the ranges of a list cover another range.
//! - `examples`: the definitions at small lists.
#![tactic(auto)]

mod cover;
mod examples;
mod list;
mod range;

pub use calendar::Day;
pub use cover::Cover;
pub use examples::worked_examples;
pub use list::RangeList;
pub use range::Range;
