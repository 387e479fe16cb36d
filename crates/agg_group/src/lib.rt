//! Aggregation groups: which cuboids a cube builds.
//!
//! A cube with n dimensions could keep 2^n - 1 cuboids. The designer's groups say which of them are
//! worth building: a group gives the non-empty sets of its included dimensions that have every
//! mandatory dimension, that with a member of a hierarchy have all earlier members, that have all
//! or none of each joint, and that have no more dimensions than its cap. The base, the set of all n
//! dimensions, is always built.
//!
//! The sets of a group are made from its units, never by a walk over all sets: a hierarchy is taken
//! up to some member, a joint as a whole, and each dimension without a rule for itself.
//!
//! The crate stands at the bottom: it knows dimensions by number alone. A `Mask` is a set of
//! dimensions below 64. A `Group` is free of every fault that `GroupFault` names, so nobody tests it
//! again. A list from `valid_masks` rises strictly and ends in the base.
#![tactic(auto)]

mod built;
mod examples;
mod fault;
mod group;
mod laws;
mod lists;
mod mask;
mod units;

pub use built::{MOST_CUBOIDS, MOST_DIMENSIONS, valid_masks};
pub use examples::worked_examples;
pub use fault::{GroupFault, MaskFault};
pub use group::{DimList, Group};
pub use laws::laws_of_built_masks;
pub use mask::Mask;
