// The links of a tree, made from its last cuboid down: each superset of a mask stands behind it.

ghost use Rattle.std.specs.Prelude.{◌≡◌, ◌↔◌, ◌+◌, ◌<◌, ℕ, length, map, slice_set, IsNone, IfOk};
ghost use Rattle.cuboid_tree.specs.Links.{HasHeads, HasNodes, next_sibling_of, no_heads, no_links};
ghost use Rattle.cuboid_tree.specs.Tree.{SpansTree, parent_of, places};

use crate::nearest::{dimensions, nearest};
use crate::node::{Links, Node};
use agg_group::Mask;
use std::alloc::{AllocError, Global};

// No cuboid is linked, and none is a child.
fn no_nodes(alloc: Global, masks: &[Mask]) -> Result<Vec<Node>, AllocError>
    ensures { IfOk result (λ v. v.items ≡ map (λ _. no_links) (places masks.now)) }
{
    (0..masks.len())
        .map(|_| Node {
            parent: None,
            first_child: None,
            next_sibling: None,
            next_in_layer: None,
        })
        .collect(alloc)
}

// So many layers, none of which has a cuboid.
#[tactic(auto, unfolding(crate::specs::Links::no_heads))]
fn no_heads(alloc: Global, layers: usize) -> Result<Vec<Option<usize>>, AllocError>
    ensures { IfOk result (λ v. v.items ≡ no_heads layers) }
{
    (0..layers).map(|_| None).collect(alloc)
}

// The first child so far of a parent.
fn first_child_of(masks: &[Mask], i: usize, nodes: &[Node], parent: Option<usize>) -> Option<usize>
    requires parent { parent ≡ parent_of masks.now i }
    requires nodes { HasNodes masks.now (i + 1) (i + 1) nodes.now }
    ensures { result ≡ next_sibling_of masks.now i }
{
    match parent {
        Some(place) => nodes[place].first_child,
        None => None,
    }
}

fn put(nodes: &mut Vec<Node>, place: usize, node: Node)
    requires { place < length nodes.old.items }
    ensures { nodes.new.items ≡ slice_set nodes.old.items place node }
{
    nodes[place] = node;
}

// The cuboid at the place is its parent's first child.
fn add_child(masks: &[Mask], i: usize, parent: Option<usize>, nodes: &mut Vec<Node>)
    requires inside { i < length masks.now }
    requires parent { parent ≡ parent_of masks.now i }
    requires nodes { HasNodes masks.now i (i + 1) nodes.old.items }
    ensures { HasNodes masks.now i i nodes.new.items }
{
    let place = match parent {
        Some(place) => place,
        None => return,
    };
    let node = nodes[place];
    put(
        nodes,
        place,
        Node {
            first_child: Some(i),
            ..node
        },
    );
}

// Links the cuboid at a place to those behind it.
fn link(
    masks: &[Mask],
    i: usize,
    parent: Option<usize>,
    heads: &[Option<usize>],
    nodes: &mut Vec<Node>,
)
    requires inside { i < length masks.now }
    requires parent { parent ≡ parent_of masks.now i }
    requires heads { HasHeads masks.now (i + 1) heads.now }
    requires nodes { HasNodes masks.now (i + 1) (i + 1) nodes.old.items }
    ensures { HasNodes masks.now i (i + 1) nodes.new.items }
{
    let dims = dimensions(masks, i);
    let node = Node {
        parent,
        first_child: nodes[i].first_child,
        next_sibling: first_child_of(masks, i, nodes.as_slice(), parent),
        next_in_layer: heads[dims],
    };
    put(nodes, i, node);
}

// The cuboid at the place is the first of its layer.
fn add_to_layer(masks: &[Mask], i: usize, heads: &mut Vec<Option<usize>>)
    requires inside { i < length masks.now }
    requires heads { HasHeads masks.now (i + 1) heads.old.items }
    ensures { HasHeads masks.now i heads.new.items }
{
    let dims = dimensions(masks, i);
    heads[dims] = Some(i);
}

fn add(masks: &[Mask], i: usize, links: &mut Links)
    requires inside { i < length masks.now }
    requires spans { SpansTree masks.now }
    requires heads { HasHeads masks.now (i + 1) links.old.heads.items }
    requires nodes { HasNodes masks.now (i + 1) (i + 1) links.old.nodes.items }
    ensures heads { HasHeads masks.now i links.new.heads.items }
    ensures nodes { HasNodes masks.now i i links.new.nodes.items }
    ensures base { IsNone (parent_of masks.now i) ↔ (i + 1 ≡ length masks.now) }
{
    let parent = nearest(masks, i, links);
    link(masks, i, parent, links.heads.as_slice(), &mut links.nodes);
    add_child(masks, i, parent, &mut links.nodes);
    add_to_layer(masks, i, &mut links.heads);
}

/// The links of a tree over these masks.
pub(crate) fn links_of(alloc: Global, masks: &[Mask]) -> Result<Links, AllocError>
    requires { SpansTree masks.now }
    ensures nodes { IfOk result (λ l. HasNodes masks.now 0 0 l.nodes.items) }
    ensures heads { IfOk result (λ l. HasHeads masks.now 0 l.heads.items) }
    ensures base { IfOk result (λ _. (k : ℕ) → k < length masks.now → IsNone (parent_of masks.now k) ↔ (k + 1 ≡ length masks.now)) }
{
    let nodes = no_nodes(alloc, masks)?;
    let heads = no_heads(alloc, 65)?;
    let mut links = Links { nodes, heads };
    for i in (0..masks.len()).rev() {
        add(masks, i, &mut links);
    }
    Ok(links)
}
