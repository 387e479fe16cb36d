//! Cuboids with their numbers of rows, and choices.

use agg_group::Mask;

/// The most cuboids that a plan chooses from.
pub(crate) const MOST_CUBOIDS: usize = 4096;

/// A cuboid that could be built, and how many rows it would have.
#[derive(Clone, Copy, PartialEq, Eq, Debug)]
pub struct Size {
    pub mask: Mask,
    pub rows: u64,
}

/// A choice of a plan.
#[derive(Clone, Copy, PartialEq, Eq, Debug)]
pub struct Pick {
    /// The cuboid that is chosen.
    pub mask: Mask,
    /// How many rows it has.
    pub rows: u64,
    /// How many rows the choice saves, over all cuboids.
    pub benefit: u64,
    /// What all cuboids cost with this choice and those before it.
    pub total: u64,
}
