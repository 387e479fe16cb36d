// Why files give no inputs.

use script_text::PathText;
use std::alloc::AllocError;
use table_reader::TableFault;

/// The first fault of the files that a run is given.
#[derive(Debug, Drop)]
pub enum InputFault {
    /// The file at this path was not read.
    ReadFault(PathText),
    /// The file at this path has more than 64 MiB.
    TooLarge(PathText),
    /// The first file is no script of the fixed cube: the number of the first bad line, or 0 where there is no command.
    BadScript(u32),
    /// The file at this path, which a line loads, is no table of the fact table's form.
    BadTable(PathText, TableFault),
}

/// Why inputs were not read.
#[derive(Debug, Drop)]
pub enum InputRefusal {
    Fault(InputFault),
    /// Memory was wanting. It may stand in place of any other answer.
    Memory,
}

impl From<AllocError> for InputRefusal {
    ghost use Rattle.std.specs.Prelude.{◌≡◌};
    ghost use Rattle.run_inputs.specs.declared.fault.InputRefusal.TheVariants.{Memory};

    ghost from_gives = { λ _ refusal. refusal ≡ Memory };

    fn from(_: AllocError) -> InputRefusal {
        InputRefusal::Memory
    }
}
