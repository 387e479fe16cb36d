// The text of a range.

ghost use Rattle.std.specs.Prelude.{◌≡◌, IfOk};
ghost use Rattle.script_text.specs.Blocks.{range_text};

use crate::text::joined;
use range_list::Range;
use std::alloc::{AllocError, Global};

/// The start and the end of a range.
pub fn range_text(alloc: Global, range: &Range) -> Result<Vec<u8>, AllocError>
    ensures { IfOk result (λ text. text.items ≡ range_text range.now) }
{
    let start = range.start().text();
    let end = range.end().text();
    joined(alloc, &[start.as_slice(), b" ".as_slice(), end.as_slice()])
}
