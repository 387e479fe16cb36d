// The links of cuboids.

/// Where a cuboid stands in the tree: the places of its parent, of its first child, of the next child of its parent and of
/// the next cuboid with as many dimensions.
#[derive(Clone, Copy, Debug)]
pub(crate) struct Node {
    pub(crate) parent: Option<usize>,
    pub(crate) first_child: Option<usize>,
    pub(crate) next_sibling: Option<usize>,
    pub(crate) next_in_layer: Option<usize>,
}

/// The nodes of a tree's cuboids by place, and the first place of each layer by its number of dimensions.
#[derive(Drop)]
pub(crate) struct Links {
    pub(crate) nodes: Vec<Node>,
    pub(crate) heads: Vec<Option<usize>>,
}
