// What is answered where files give no inputs.

ghost use Rattle.std.specs.Prelude.{◌≡◌, ◌⊎◌};
ghost use Rattle.fault_lines.specs.Lines.{Appends};
ghost use Rattle.run_inputs.specs.Lines.{Refuses, bad_script_line};

use crate::fault::{InputFault, InputRefusal};
use fault_lines::status::{BAD_SCRIPT, MEMORY};
use fault_lines::{refuse, refuse_table, refuse_too_large, refuse_unread};
use outside::Sink;
use std::alloc::Global;

// Writes the fault line of a script, and says the status.
fn refuse_script<S: Sink>(alloc: Global, sink: &mut S, number: u32) -> u8
    ensures status { (result ≡ BAD_SCRIPT) ⊎ (result ≡ MEMORY) }
    ensures line { result ≡ BAD_SCRIPT → Appends (S.faults sink.old) (S.faults sink.new) (S.written sink.old) (S.written sink.new) (bad_script_line number) }
    ensures memory { result ≡ MEMORY → S.written sink.new ≡ S.written sink.old }
{
    match format!(in alloc; "fault: BadScript {number}\n") {
        Ok(line) => refuse(sink, line.as_bytes(), BAD_SCRIPT),
        Err(_) => MEMORY,
    }
}

/// Writes why there are no inputs, and says the status. Want of memory writes nothing, and its status may stand in place of every other one.
pub fn refuse_inputs<S: Sink>(alloc: Global, sink: &mut S, refusal: InputRefusal) -> u8
    ensures { Refuses (S.faults sink.old) (S.faults sink.new) (S.written sink.old) (S.written sink.new) refusal result }
{
    match refusal {
        InputRefusal::Memory => MEMORY,
        InputRefusal::Fault(InputFault::ReadFault(path)) => {
            refuse_unread(alloc, sink, path.as_str())
        }
        InputRefusal::Fault(InputFault::TooLarge(path)) => {
            refuse_too_large(alloc, sink, path.as_str())
        }
        InputRefusal::Fault(InputFault::BadScript(line)) => refuse_script(alloc, sink, line),
        InputRefusal::Fault(InputFault::BadTable(path, fault)) => {
            refuse_table(alloc, sink, &["DT", "D1", "D2", "M"], path.as_str(), fault)
        }
    }
}
