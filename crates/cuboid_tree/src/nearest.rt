// The parents of cuboids, found layer by layer.

ghost use Rattle.std.specs.Prelude.{◌≡◌, ◌↔◌, ◌+◌, ◌^◌, ◌<◌, length, IsNone};
ghost use Rattle.agg_group.specs.Mask.{count_of, mask_at};
ghost use Rattle.cuboid_tree.specs.Links.{HasHeads, HasNodes, first_from, is_above_in};
ghost use Rattle.cuboid_tree.specs.Tree.{SpansTree, is_above, parent_of};

use crate::node::Links;
use agg_group::Mask;

fn is_above(masks: &[Mask], i: usize, place: usize) -> bool
    requires i { i < length masks.now }
    requires place { place < length masks.now }
    ensures test { result ≡ is_above masks.now i place }
    ensures fits { (mask_at masks.now i).0 < 2 ^ 64 }
{
    let differs = masks[i].0 != masks[place].0;
    masks[i].within(masks[place]) && differs
}

fn number_at(masks: &[Mask], i: usize) -> u64
    requires { i < length masks.now }
    ensures { result ≡ (mask_at masks.now i).0 }
{
    masks[i].0
}

/// How many dimensions the cuboid at a place has.
pub(crate) fn dimensions(masks: &[Mask], i: usize) -> usize
    requires { i < length masks.now }
    ensures count { result ≡ count_of (mask_at masks.now i) }
    ensures few { result < 65 }
    ensures fits { (mask_at masks.now i).0 < 2 ^ 64 }
{
    let mask = Mask(number_at(masks, i));
    mask.count() as usize
}

// The first cuboid behind the place, of those with so many dimensions, that has every dimension of the cuboid at the place.
fn first_above(masks: &[Mask], i: usize, dims: usize, links: &Links) -> Option<usize>
    requires inside { i < length masks.now }
    requires dims { dims < 65 }
    requires heads { HasHeads masks.now (i + 1) links.now.heads.items }
    requires nodes { HasNodes masks.now (i + 1) (i + 1) links.now.nodes.items }
    ensures { result ≡ first_from (is_above_in masks.now dims i) (i + 1) (length masks.now) }
{
    let mut next = links.heads[dims];
    while let Some(place) = next {
        if is_above(masks, i, place) {
            return Some(place);
        }
        next = links.nodes[place].next_in_layer;
    }
    None
}

/// The place of the parent of the cuboid at a place, where those behind it are linked: a parent has more dimensions than its
/// child and stands behind it, so the layers are gone through from the next one on, each no farther than to the first superset.
pub(crate) fn nearest(masks: &[Mask], i: usize, links: &Links) -> Option<usize>
    requires inside { i < length masks.now }
    requires spans { SpansTree masks.now }
    requires heads { HasHeads masks.now (i + 1) links.now.heads.items }
    requires nodes { HasNodes masks.now (i + 1) (i + 1) links.now.nodes.items }
    ensures value { result ≡ parent_of masks.now i }
    ensures base { IsNone result ↔ (i + 1 ≡ length masks.now) }
{
    let own = dimensions(masks, i);
    for dims in own + 1..65 {
        if let Some(place) = first_above(masks, i, dims, links) {
            return Some(place);
        }
    }
    None
}
