// One file.

ghost use Rattle.std.specs.Prelude.{◌≡◌, ◌≤◌, ◌⊎◌, ℕ, List, Err, IfOk, length};
ghost use Rattle.fault_lines.specs.Files.{most_bytes};
ghost use Rattle.fixed_cube.specs.Form.{fact_form};
ghost use Rattle.outside.specs.Contents.{IsLongerAt, IsNotLongerAt, StandsAt};
ghost use Rattle.outside.specs.Counts.{Rose};
ghost use Rattle.run_inputs.specs.Inputs.{IsScriptAt, IsScriptFault, IsTableAt, IsTableFault};
ghost use Rattle.run_inputs.specs.Reading.{IsUnread};
ghost use Rattle.run_inputs.specs.declared.fault.InputFault.{InputFault};
ghost use Rattle.step_fields.specs.Fits.{FitsRows};
ghost use Rattle.fixed_cube.specs.Columns.{fact_columns, row_limit};

use crate::fault::{InputFault, InputRefusal};
use cube_val::{Table, TableForm};
use fault_lines::MOST_BYTES;
use fixed_script::{FixedScriptRefusal, read_fixed_script};
use outside::{FileFault, Files};
use script_text::{PathText, Script};
use std::alloc::Global;
use table_reader::{TableFault, TableRefusal, read_table};

// Why the file at a path was not read.
fn unread(alloc: Global, path: &str, fault: FileFault) -> InputRefusal
    ensures { IsUnread path.now fault result }
{
    let Ok(path) = PathText::new(alloc, path) else {
        return InputRefusal::Memory;
    };
    match fault {
        FileFault::Failed => InputRefusal::Fault(InputFault::ReadFault(path)),
        FileFault::TooLong => InputRefusal::Fault(InputFault::TooLarge(path)),
        FileFault::Memory => InputRefusal::Memory,
    }
}

// The bytes of the file at a path, or why they were not read.
fn read_file<F: Files>(alloc: Global, files: &mut F, path: &str) -> Result<Vec<u8>, InputRefusal>
    ensures stands { IfOk result (λ bytes. StandsAt (F.contents files.old) path.now bytes.items) }
    ensures short { IfOk result (λ bytes. length bytes.items ≤ most_bytes) }
    ensures fault { (f : InputFault) → result ≡ Err (InputRefusal.Fault f) → IsScriptFault (F.contents files.old) path.now f × IsTableFault (F.contents files.old) path.now f }
    ensures read { (at : List ℕ) → result ≡ Err (InputRefusal.Fault (InputFault.ReadFault at)) → Rose (F.faults files.old) (F.faults files.new) }
    ensures contents { F.contents files.new ≡ F.contents files.old }
    ensures faults { F.faults files.old ≤ F.faults files.new }
    ensures write_faults { F.write_faults files.new ≡ F.write_faults files.old }
{
    match files.read(alloc, path, MOST_BYTES) {
        Ok(bytes) => Ok(bytes),
        Err(fault) => Err(unread(alloc, path, fault)),
    }
}

/// The script of the file at a path.
pub fn read_script_at<F: Files>(
    alloc: Global,
    files: &mut F,
    path: &str,
) -> Result<Script, InputRefusal>
    ensures ok { IfOk result (λ script. IsScriptAt (F.contents files.old) path.now script) }
    ensures fault { (f : InputFault) → result ≡ Err (InputRefusal.Fault f) → IsScriptFault (F.contents files.old) path.now f }
    ensures read { (at : List ℕ) → result ≡ Err (InputRefusal.Fault (InputFault.ReadFault at)) → Rose (F.faults files.old) (F.faults files.new) }
    ensures contents { F.contents files.new ≡ F.contents files.old }
    ensures faults { F.faults files.old ≤ F.faults files.new }
    ensures write_faults { F.write_faults files.new ≡ F.write_faults files.old }
{
    let bytes = match read_file(alloc, files, path) {
        Ok(bytes) => bytes,
        Err(refusal) => return Err(refusal),
    };
    match read_fixed_script(alloc, bytes.as_slice()) {
        Ok(script) => Ok(script),
        Err(FixedScriptRefusal::BadScript(line)) => {
            Err(InputRefusal::Fault(InputFault::BadScript(line)))
        }
        Err(FixedScriptRefusal::Memory) => Err(InputRefusal::Memory),
    }
}

// The fault of the file at a path that is no table.
fn bad_table(alloc: Global, path: &str, fault: TableFault) -> InputRefusal
    ensures { (result ≡ InputRefusal.Memory) ⊎ (result ≡ InputRefusal.Fault (InputFault.BadTable path.now fault)) }
{
    match PathText::new(alloc, path) {
        Ok(path) => InputRefusal::Fault(InputFault::BadTable(path, fault)),
        Err(_) => InputRefusal::Memory,
    }
}

/// The rows of the fact table's file at a path.
pub fn read_table_at<F: Files>(
    alloc: Global,
    form: &TableForm,
    files: &mut F,
    path: &str,
) -> Result<Table, InputRefusal>
    requires { form.now ≡ fact_form }
    ensures ok { IfOk result (λ rows. IsTableAt (F.contents files.old) path.now rows) }
    ensures fits { IfOk result (λ rows. FitsRows fact_columns row_limit rows) }
    ensures fault { (f : InputFault) → result ≡ Err (InputRefusal.Fault f) → IsTableFault (F.contents files.old) path.now f }
    ensures read { (at : List ℕ) → result ≡ Err (InputRefusal.Fault (InputFault.ReadFault at)) → Rose (F.faults files.old) (F.faults files.new) }
    ensures contents { F.contents files.new ≡ F.contents files.old }
    ensures faults { F.faults files.old ≤ F.faults files.new }
    ensures write_faults { F.write_faults files.new ≡ F.write_faults files.old }
{
    let bytes = match read_file(alloc, files, path) {
        Ok(bytes) => bytes,
        Err(refusal) => return Err(refusal),
    };
    match read_table(alloc, form, bytes.as_slice()) {
        Ok(table) => Ok(table),
        Err(TableRefusal::Fault(fault)) => Err(bad_table(alloc, path, fault)),
        Err(TableRefusal::Memory) => Err(InputRefusal::Memory),
    }
}
