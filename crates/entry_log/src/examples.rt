//! The definitions at small bytes.

ghost use Rattle.std.specs.Prelude.{◌++◌, [], ◌∷◌, ℕ, List};
ghost use Rattle.entry_log.specs.Examples.{two_entries};
ghost use Rattle.entry_log.specs.Logs.{IsNoLog, HasEntries, entries_text};

/// What bytes are a log.
pub fn worked_logs()
    // One byte is the log without entries, whatever it is, and so is a closed gate with bytes behind it.
    ensures single { (byte : ℕ) → HasEntries (byte ∷ []) [] }
    ensures closed { HasEntries (7 ∷ 9 ∷ []) [] }

    // What stands behind the closed gate doesn't matter.
    ensures entries { (rest : List ℕ) → HasEntries (entries_text two_entries ++ 0 ∷ rest) two_entries }

    ensures none { IsNoLog [] }
{}
