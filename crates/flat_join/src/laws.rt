// What holds of all tables.

ghost use Rattle.flat_join.specs.Laws.{ReadTablesFit};

/// The rows of a table file fit the form that it was read by: one value for each column, of its type, no null where none may
/// stand, and no key twice.
pub fn read_tables_fit()
    ensures { ReadTablesFit }
{}
