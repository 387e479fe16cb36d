// Handles of loaded tables.

ghost use Rattle.std.specs.Prelude.{◌≡◌, List, IfOk};
ghost use Rattle.cube_val.specs.declared.val.Val.{Val};

use std::alloc::AllocError;

/// A handle of a loaded table. A copy shows the same rows.
pub trait TableHandle: Drop {
    // The rows of the table.
    ghost rows: { Self → List (List Val) };

    /// Another handle of the same rows.
    fn copy(&self) -> Result<Self, AllocError>
        ensures { IfOk result (λ copied. rows copied ≡ rows self.now) };
}
