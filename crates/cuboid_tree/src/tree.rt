// The tree.

ghost use Rattle.std.specs.Prelude.{◌≡◌, ◌↔◌, ℕ, ◌+◌, ◌<◌, length, slice_get, Some, None, IsSome, IsNone, IfSome, IfOk, Contains};
ghost use Rattle.cuboid_tree.specs.Tree.{SpansTree, parent_of, IsParent, children_of, layer_of};

use crate::links::links_of;
use crate::node::Node;
use agg_group::Mask;
use std::alloc::{AllocError, Global};
use std::marker::Model;

/// The masks of a cube's cuboids, the links between them, and the first place of each layer.
#[derive(Debug, Drop)]
pub struct SpanTree {
    masks: Vec<Mask>,
    nodes: Vec<Node>,
    heads: Vec<Option<usize>>,
}

impl Model for SpanTree {
    ghost use Rattle.std.specs.Prelude.{List};
    ghost use Rattle.agg_group.specs.declared.mask.Mask.{Mask};
    ghost use Rattle.cuboid_tree.specs.Links.{HasLinks};

    ghost Value = { List Mask };

    ghost view = { λ t. t.masks.items };

    ghost invariant = { λ t. HasLinks t.masks.items t.nodes.items t.heads.items };
}

impl SpanTree {
    /// The tree over these masks.
    pub fn build(alloc: Global, masks: &[Mask]) -> Result<SpanTree, AllocError>
        requires { SpansTree masks.now }
        ensures { IfOk result (λ t. t ≡ masks.now) }
    {
        let own = Vec::from_slice(alloc, masks)?;
        let links = links_of(alloc, masks)?;
        Ok(SpanTree {
            masks: own,
            nodes: links.nodes,
            heads: links.heads,
        })
    }

    /// The masks, by place.
    pub fn masks(&self) -> &[Mask]
        ensures value { result.now ≡ self.now }
        ensures spans { SpansTree self.now }
    {
        self.masks.as_slice()
    }

    /// The place of the parent: of the strict supersets the one with the fewest dimensions, and of
    /// several such the least mask. The base has none.
    pub fn parent(&self, i: usize) -> Option<usize>
        requires { i < length self.now }
        ensures value { result ≡ parent_of self.now i }
        ensures nearest { IfSome result (IsParent self.now i) }
        ensures base { IsNone result ↔ (i + 1 ≡ length self.now) }
    {
        self.nodes[i].parent
    }

    /// The place of the first child; None where the cuboid has no child.
    pub fn first_child(&self, i: usize) -> Option<usize>
        requires { i < length self.now }
        ensures { result ≡ slice_get (children_of self.now i) 0 }
    {
        self.nodes[i].first_child
    }

    /// The place of the next child of the same parent; None past the last one, and for the base.
    pub fn next_sibling(&self, i: usize) -> Option<usize>
        requires { i < length self.now }
        ensures next { (p k : ℕ) → slice_get (children_of self.now p) k ≡ Some i
            → result ≡ slice_get (children_of self.now p) (k + 1) }
        ensures base { i + 1 ≡ length self.now → result ≡ None }
    {
        self.nodes[i].next_sibling
    }

    /// The first place of a mask with this many dimensions; None where there is none.
    pub fn first_in_layer(&self, dims: u32) -> Option<usize>
        ensures { result ≡ slice_get (layer_of self.now dims) 0 }
    {
        if dims > 64 {
            return None;
        }
        self.heads[dims as usize]
    }

    /// The next place of a mask with as many dimensions; None past the last one.
    pub fn next_in_layer(&self, i: usize) -> Option<usize>
        requires { i < length self.now }
        ensures { (dims k : ℕ) → slice_get (layer_of self.now dims) k ≡ Some i
            → result ≡ slice_get (layer_of self.now dims) (k + 1) }
    {
        self.nodes[i].next_in_layer
    }

    /// The place of a mask; None where it is no mask of the tree.
    pub fn find(&self, m: Mask) -> Option<usize>
        ensures found { IfSome result (λ i. slice_get self.now i ≡ Some m) }
        ensures there { IsSome result ↔ Contains self.now m }
    {
        self.masks.binary_search(&m).ok()
    }

    /// The places of the masks with this many dimensions, rising.
    pub fn layer(&self, alloc: Global, dims: u32) -> Result<Vec<usize>, AllocError>
        ensures { IfOk result (λ v. v.items ≡ layer_of self.now dims) }
    {
        let mut layer = Vec::new(alloc);
        let mut next = self.first_in_layer(dims);
        while let Some(place) = next {
            layer.push(place)?;
            next = self.next_in_layer(place);
        }
        Ok(layer)
    }
}
