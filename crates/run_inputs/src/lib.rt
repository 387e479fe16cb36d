//! What a run over the fixed cube is given: its script, and the tables that the script loads; or the one fault line of files that give none.
//!
//! All files are read and checked before a run begins: the script, and then the file of each load in the order of the script. The first
//! that isn't read, is too large, or is no script or no table decides; which fault that is, and what the files give where there is none,
//! are definitions in `specs/Inputs.antt` over the contents of the files.
//!
//! It stands on `fixed_script` and `table_reader`, which say what bytes are, reads through `outside::Files` and writes by `fault_lines`. The
//! modules: `file` (one file), `inputs` (all of them), `fault`, `refusal` (the status and the line of a fault), `laws`.
#![tactic(auto)]

mod fault;
mod file;
mod inputs;
mod laws;
mod refusal;

pub use fault::{InputFault, InputRefusal};
pub use inputs::{FixedInputs, LoadedTable, read_inputs};
pub use laws::files_give_one_outcome;
pub use refusal::refuse_inputs;
