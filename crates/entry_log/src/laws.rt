//! What holds of all logs.

ghost use Rattle.entry_log.specs.Laws.{LogsAreOne, OpeningAgainIsOpeningOnce};

/// Bytes are a log of one list of bodies at most, with its gate at one place.
pub fn logs_are_one()
    ensures { LogsAreOne }
{}

/// A crash while a log is opened takes no entry from it and gives it none: what is opened then has the same entries.
pub fn opening_again_is_opening_once()
    ensures { OpeningAgainIsOpeningOnce }
{}
