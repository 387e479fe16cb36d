// What holds of all files.

ghost use Rattle.table_reader.specs.Laws.{FilesHaveOneOutcome};

/// A file is a table of a form with one list of rows, or none with one first fault, and never both.
pub fn files_have_one_outcome()
    ensures { FilesHaveOneOutcome }
{}
