// What is wrong with a script.

use std::alloc::AllocError;

/// What is wrong with a line of a script. Of several the first applies, in the order of the variants.
#[derive(Clone, Copy, Debug, PartialEq, Eq)]
pub enum ScriptKind {
    /// Its bytes are not UTF-8.
    NotUtf8,
    /// It is line 10,001.
    TooManyLines,
    /// Its first word begins no command.
    UnknownCommand,
    /// It is the first command and is not `descriptor`; or, at line 0, there is no command.
    NoDescriptor,
    /// It is a later command and is `descriptor`.
    SecondDescriptor,
    /// The number of its words is wrong, a name is none, or `await` has a word that is neither digits, `jobs` nor `queries`.
    BadArguments,
    /// A number is not 1 to 9 digits.
    BadNumber,
    /// A date is not valid.
    BadDate,
    /// The start of a range is not before its end.
    BadRange,
    /// It is the 65th line with `load`.
    TooManyLoads,
    /// It is the 1,001st line with `build`, `refresh`, `merge` or `drop`.
    TooManyJobs,
}

/// The first line of a script that has a fault, from 1, and what is wrong with it.
#[derive(Clone, Copy, Debug, PartialEq, Eq)]
pub struct ScriptFault {
    pub line: u32,
    pub kind: ScriptKind,
}

/// Why a line was not read.
#[derive(Clone, Copy, Debug, PartialEq, Eq)]
pub enum LineRefusal {
    Fault(ScriptKind),
    Memory,
}

impl From<AllocError> for LineRefusal {
    ghost use Rattle.std.specs.Prelude.{◌≡◌};
    ghost use Rattle.script_reader.specs.declared.fault.LineRefusal.TheVariants.{Memory};

    ghost from_gives = { λ _ refusal. refusal ≡ Memory };

    fn from(_: AllocError) -> LineRefusal {
        LineRefusal::Memory
    }
}
