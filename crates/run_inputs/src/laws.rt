// What holds of all files.

ghost use Rattle.run_inputs.specs.Laws.{FilesGiveOneOutcome};

/// Files whose contents are told give one script with its tables, or one first fault, and never both.
pub fn files_give_one_outcome()
    ensures { FilesGiveOneOutcome }
{}
