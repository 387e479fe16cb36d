// Why a group is refused, and why a cube's cuboids are.

use thiserror::Error;

/// Why `Group::new` refuses its lists.
#[derive(Clone, Copy, PartialEq, Eq, Debug, Error)]
pub enum GroupFault {
    /// The group includes no dimension.
    #[error("the group includes no dimension")]
    EmptyIncludes,
    /// A number stands twice in one list.
    #[error("a dimension stands twice in one list")]
    Repeat,
    /// A rule names a dimension that the group doesn't include.
    #[error("a rule names a dimension that the group does not include")]
    NotIncluded,
    /// A dimension stands in two rules.
    #[error("a dimension stands in two rules")]
    TwoRules,
    /// A hierarchy or a joint has fewer than two dimensions.
    #[error("a hierarchy or a joint has fewer than two dimensions")]
    Short,
    /// The cap isn't a number from 1 to the most dimensions of a cube.
    #[error("the cap is none of the numbers of dimensions that a cube may have")]
    BadCap,
    /// There is no memory for the group.
    #[error("out of memory")]
    Memory,
}

/// Why `valid_masks` refuses its groups.
#[derive(Clone, Copy, PartialEq, Eq, Debug, Error)]
pub enum MaskFault {
    /// More cuboids would be built than a cube may have.
    #[error("more than 4096 cuboids")]
    TooManyCuboids,
    /// There is no memory for the list.
    #[error("out of memory")]
    Memory,
}
