// Texts put together from pieces.

ghost use Rattle.std.specs.Prelude.{◌≡◌, ◌++◌, IfOk};
ghost use Rattle.std.specs.Fmt.{decimal};
ghost use Rattle.std.specs.List.{flat_map};

use std::alloc::{AllocError, Global};

/// The pieces, end to end.
pub fn joined(alloc: Global, pieces: &[&[u8]]) -> Result<Vec<u8>, AllocError>
    ensures { IfOk result (λ text. text.items ≡ flat_map (λ piece. piece.now) pieces.now) }
{
    let mut text = Vec::new(alloc);
    for piece in pieces {
        text.extend_from_slice(piece)?;
    }
    Ok(text)
}

/// Words, and then a text.
pub fn with_text(alloc: Global, words: &[u8], text: &[u8]) -> Result<Vec<u8>, AllocError>
    ensures { IfOk result (λ whole. whole.items ≡ words.now ++ text.now) }
{
    let mut whole = Vec::from_slice(alloc, words)?;
    whole.extend_from_slice(text)?;
    Ok(whole)
}

/// Words, and then a number.
pub fn with_number(alloc: Global, words: &[u8], number: u64) -> Result<Vec<u8>, AllocError>
    ensures { IfOk result (λ whole. whole.items ≡ words.now ++ decimal number) }
{
    let number = number.to_string(alloc)?;
    with_text(alloc, words, number.as_bytes())
}
