// The lines of cuboids.

ghost use Rattle.std.specs.Prelude.{◌≡◌, ◌<◌, ◌++◌, ◌∷◌, [], ℕ, IfOk, OnOk, length};
ghost use Rattle.std.specs.Fmt.{decimal};
ghost use Rattle.std.specs.Option.{ForSome};
ghost use Rattle.std.specs.String.{string_bytes};
ghost use Rattle.agg_group.specs.Mask.{count_of};
ghost use Rattle.cuboid_lines.specs.Lines.{cuboid_line, cuboids_text, number_text};
ghost use Rattle.cuboid_tree.specs.Tree.{SpansTree, parent_of};

use crate::names::add_columns;
use agg_group::Mask;
use cube_desc::{CubeDesc, CubeParts};
use cuboid_tree::SpanTree;
use std::alloc::{AllocError, Global};

// The number of the mask at the place, and nothing for no place.
fn number_text(alloc: Global, masks: &[Mask], place: Option<usize>) -> Result<String, AllocError>
    requires { ForSome place (λ p. p < length masks.now) }
    ensures { IfOk result (λ text. string_bytes text ≡ number_text masks.now place) }
{
    match place {
        None => Ok(String::new(alloc)),
        Some(p) => {
            let number = masks[p].0;
            number.to_string(alloc)
        }
    }
}

// The front of a line: the mask, how many dimensions it has, and its parent's mask.
fn front(alloc: Global, mask: Mask, parent: &str) -> Result<String, AllocError>
    ensures { IfOk result (λ text. string_bytes text ≡ decimal mask.0 ++ 44 ∷ (decimal (count_of mask) ++ 44 ∷ (parent.now ++ 44 ∷ []))) }
{
    let number = mask.0;
    let count = mask.count();
    format!(in alloc; "{number},{count},{parent},")
}

// The line of the cuboid at a place of the tree.
fn cuboid_line(
    alloc: Global,
    cube: &CubeParts,
    tree: &SpanTree,
    place: usize,
) -> Result<Vec<u8>, AllocError>
    requires tree { tree.now ≡ cube.now.masks }
    requires place { place < length cube.now.masks }
    ensures { IfOk result (λ line. line.items ≡ cuboid_line cube.now place) }
{
    let masks = cube.masks.as_slice();
    let mask = masks[place];
    let parent = number_text(alloc, masks, tree.parent(place))?;
    let front = front(alloc, mask, parent.as_str())?;
    let mut line = Vec::from_slice(alloc, front.as_bytes())?;
    add_columns(alloc, &mut line, cube, mask)?;
    line.push(b'\n')?;
    Ok(line)
}

/// The text of `cuboids` over the descriptor.
pub fn cuboids_text(alloc: Global, desc: &CubeDesc) -> Result<Vec<u8>, AllocError>
    ensures { IfOk result (λ text. text.items ≡ cuboids_text desc.now.cube) }
{
    let cube = desc.parts();
    let tree = SpanTree::build(alloc, cube.masks.as_slice())?;
    let mut text = Vec::from_slice(alloc, b"mask,dimensions,parent,columns\n".as_slice())?;
    for place in 0..cube.masks.len() {
        let line = cuboid_line(alloc, cube, &tree, place)?;
        text.extend_from_slice(line.as_slice())?;
    }
    Ok(text)
}
