// The blocks of commands, in their order.

ghost use Rattle.std.specs.Prelude.{◌≡◌, ◌+◌, ◌≤◌, [], IfOk, drop, length, position};
ghost use Rattle.known_blocks.specs.Known.{is_open_of, known_count, known_text, with_block};

use script_text::{Block, put_block};
use std::alloc::{AllocError, Global};

/// A command that was taken, with its block; or an accepted query without its end.
#[derive(Drop)]
pub struct Shown {
    pub line: u32,
    pub block: Option<Block>,
}

// The place of the first query of this line that has no block.
fn open_place(shown: &[Shown], line: u32) -> Option<usize>
    ensures { result ≡ position (λ entry. is_open_of line entry) shown.now }
{
    shown
        .iter()
        .position(|entry| entry.line == line && entry.block.is_none())
}

/// The block of an accepted query, in its place: the first one of this line that has none. It takes no memory, and changes nothing where there is
/// no such query.
pub fn fill(shown: &mut [Shown], line: u32, block: Block)
    ensures { shown.new ≡ with_block line block shown.old }
{
    if let Some(place) = open_place(shown, line) {
        shown[place].block = Some(block);
    }
}

/// The text of the blocks that are known from this place on, and the place of the first one that isn't.
pub fn known_from(
    alloc: Global,
    shown: &[Shown],
    from: usize,
) -> Result<(Vec<u8>, usize), AllocError>
    requires { from ≤ length shown.now }
    ensures text { IfOk result (λ known. known.0.items ≡ known_text (drop from shown.now)) }
    ensures place { IfOk result (λ known. known.1 ≡ from + known_count (drop from shown.now)) }
    ensures within { IfOk result (λ known. known.1 ≤ length shown.now) }
    ensures rest { IfOk result (λ known. known_text (drop known.1 shown.now) ≡ []) }
{
    let mut text = Vec::new(alloc);
    for place in from..shown.len() {
        let Some(block) = &shown[place].block else {
            return Ok((text, place));
        };
        put_block(alloc, &mut text, shown[place].line, block)?;
    }
    Ok((text, shown.len()))
}
