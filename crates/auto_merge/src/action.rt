//! What a plan consists of.

use range_list::Range;

/// One action of a plan.
#[derive(Clone, Copy, PartialEq, Eq, Debug)]
pub enum Action {
    /// The segment of this range is dropped.
    Drop(Range),
    /// The segments inside this range, which they fill without a hole, are merged into one.
    Merge(Range),
}
