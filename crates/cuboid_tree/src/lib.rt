//! The tree of cuboids: each is computed from the smallest larger one.
//!
//! It stands on `agg_group`, whose `valid_masks` gives the lists that a tree is made of: masks that
//! rise strictly, of which the last, the base, has every dimension of each other. A `SpanTree` is seen
//! as that list. Parents, children and layers are places in it, as the definitions in `specs/` say; it
//! holds them as links from place to place, so that each is followed without a search.
#![tactic(auto)]

mod examples;
mod links;
mod nearest;
mod node;
mod tree;

pub use examples::worked_examples;
pub use tree::SpanTree;
