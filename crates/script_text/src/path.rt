// Paths that a script names.

ghost use Rattle.std.specs.Prelude.{◌≡◌, IfOk};
ghost use Rattle.std.specs.Str.{IsUtf8};

use std::alloc::{AllocError, Global};
use std::marker::Model;

/// A path as a script writes it, which is UTF-8. Contracts see its bytes.
#[derive(Debug, Drop)]
pub struct PathText {
    text: String,
}

impl Model for PathText {
    ghost use Rattle.std.specs.Prelude.{ℕ, List};
    ghost use Rattle.std.specs.String.{string_bytes};

    ghost Value = { List ℕ };

    ghost view = { λ path. string_bytes path.text };
}

impl PathText {
    /// The path of this text.
    pub fn new(alloc: Global, text: &str) -> Result<PathText, AllocError>
        ensures { IfOk result (λ path. path ≡ text.now) }
    {
        let text = String::from_str(alloc, text)?;
        Ok(PathText { text })
    }

    /// The text of the path.
    pub fn as_str(&self) -> &str
        ensures { result.now ≡ self.now }
    {
        self.text.as_str()
    }
}
