// The columns of rows.

use cube_val::ColType;

/// A column of rows, as far as its values are read and written.
#[derive(Clone, Copy, Debug, PartialEq, Eq)]
pub struct Column {
    /// The type of its values.
    pub ty: ColType,
    /// Whether no null may stand in it.
    pub no_null: bool,
}
