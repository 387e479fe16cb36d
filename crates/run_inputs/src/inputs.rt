// What a run is given.

ghost use Rattle.std.specs.Prelude.{◌≡◌, ◌≤◌, ◌⊎◌, ◌++◌, ◌∷◌, [], ℕ, List, Err, IfNone, IfOk, IfSome, OnOk, Result, All};
ghost use Rattle.std.specs.List.{AllZip};
ghost use Rattle.fixed_cube.specs.Form.{fact_form};
ghost use Rattle.outside.specs.Counts.{Rose};
ghost use Rattle.run_inputs.specs.Inputs.{AreInputsAt, HasFittingRows, IsInputFault, IsLoadFault, IsLoadedAt, load_of, loads_of};
ghost use Rattle.run_inputs.specs.Laws.{TellsOutcomeAt};
ghost use Rattle.run_inputs.specs.Reading.{AnswersAs};
ghost use Rattle.run_inputs.specs.declared.fault.InputFault.{InputFault};
ghost use Rattle.run_inputs.specs.declared.inputs.FixedInputs.{FixedInputs};

use crate::fault::{InputFault, InputRefusal};
use crate::file::{read_script_at, read_table_at};
use cube_val::{Items, Table, TableForm};
use fixed_cube::fact_form;
use outside::Files;
use script_text::{Line, Script, Verb};
use std::alloc::Global;

/// The rows of the file that a line loads, with the number of the line.
#[derive(Drop)]
pub struct LoadedTable {
    pub line: u32,
    pub rows: Table,
}

/// A script of the fixed cube, and the rows of its loads in their order.
#[derive(Drop)]
pub struct FixedInputs {
    pub script: Script,
    pub tables: Items<LoadedTable>,
}

// The path of a load.
fn load_path(verb: &Verb) -> Option<&str>
    ensures some { IfSome result (λ path. (line : ℕ) → load_of line verb.now ≡ (line, path.now) ∷ []) }
    ensures none { IfNone result ((line : ℕ) → load_of line verb.now ≡ []) }
{
    match verb {
        Verb::Load(_, path) => Some(path.as_str()),
        Verb::Descriptor(_) => None,
        Verb::Build(_) => None,
        Verb::Refresh(_) => None,
        Verb::Merge(_) => None,
        Verb::Drop(_) => None,
        Verb::Pause(_) => None,
        Verb::Resume(_) => None,
        Verb::Discard(_) => None,
        Verb::AwaitJob(_) => None,
        Verb::AwaitJobs => None,
        Verb::AwaitQueries => None,
        Verb::Jobs => None,
        Verb::Segments => None,
        Verb::Query(_, _) => None,
    }
}

// Reads the file that a line loads, if it loads one, and adds its rows.
fn read_load<F: Files>(
    alloc: Global,
    form: &TableForm,
    files: &mut F,
    line: &Line,
    tables: &mut Items<LoadedTable>,
) -> Result<(), InputRefusal>
    requires { form.now ≡ fact_form }
    ensures ok { OnOk result ((loads : List (ℕ × List ℕ)) → AllZip (IsLoadedAt (F.contents files.old)) loads tables.old → AllZip (IsLoadedAt (F.contents files.old)) (loads ++ load_of line.now.number line.now.verb) tables.new) }
    ensures fits { OnOk result (All HasFittingRows tables.old → All HasFittingRows tables.new) }
    ensures fault { (f : InputFault) → result ≡ Err (InputRefusal.Fault f) → IsLoadFault (F.contents files.old) (load_of line.now.number line.now.verb) f }
    ensures read { (at : List ℕ) → result ≡ Err (InputRefusal.Fault (InputFault.ReadFault at)) → Rose (F.faults files.old) (F.faults files.new) }
    ensures contents { F.contents files.new ≡ F.contents files.old }
    ensures faults { F.faults files.old ≤ F.faults files.new }
    ensures write_faults { F.write_faults files.new ≡ F.write_faults files.old }
{
    let Some(path) = load_path(&line.verb) else {
        return Ok(());
    };
    let rows = match read_table_at(alloc, form, files, path) {
        Ok(rows) => rows,
        Err(refusal) => return Err(refusal),
    };
    let table = LoadedTable {
        line: line.number,
        rows,
    };
    match tables.push(table) {
        Ok(()) => Ok(()),
        Err(_) => Err(InputRefusal::Memory),
    }
}

// The rows of the loads of some lines, in their order.
fn read_tables<F: Files>(
    alloc: Global,
    files: &mut F,
    script: &[Line],
) -> Result<Items<LoadedTable>, InputRefusal>
    ensures ok { IfOk result (λ tables. AllZip (IsLoadedAt (F.contents files.old)) (loads_of script.now) tables) }
    ensures fits { IfOk result (λ tables. All HasFittingRows tables) }
    ensures fault { (f : InputFault) → result ≡ Err (InputRefusal.Fault f) → IsLoadFault (F.contents files.old) (loads_of script.now) f }
    ensures read { (at : List ℕ) → result ≡ Err (InputRefusal.Fault (InputFault.ReadFault at)) → Rose (F.faults files.old) (F.faults files.new) }
    ensures contents { F.contents files.new ≡ F.contents files.old }
    ensures faults { F.faults files.old ≤ F.faults files.new }
    ensures write_faults { F.write_faults files.new ≡ F.write_faults files.old }
{
    let Ok(form) = fact_form(alloc) else {
        return Err(InputRefusal::Memory);
    };
    let mut tables = Items::new(alloc);
    for line in script {
        match read_load(alloc, &form, files, line, &mut tables) {
            Ok(()) => {}
            Err(refusal) => return Err(refusal),
        }
    }
    Ok(tables)
}

// The script of the file at a path, and the rows of its loads.
fn read_files<F: Files>(
    alloc: Global,
    files: &mut F,
    path: &str,
) -> Result<FixedInputs, InputRefusal>
    ensures ok { IfOk result (λ inputs. AreInputsAt (F.contents files.old) path.now inputs) }
    ensures fits { IfOk result (λ inputs. All HasFittingRows inputs.tables) }
    ensures fault { (f : InputFault) → result ≡ Err (InputRefusal.Fault f) → IsInputFault (F.contents files.old) path.now f }
    ensures read { (at : List ℕ) → result ≡ Err (InputRefusal.Fault (InputFault.ReadFault at)) → Rose (F.faults files.old) (F.faults files.new) }
    ensures contents { F.contents files.new ≡ F.contents files.old }
    ensures faults { F.faults files.old ≤ F.faults files.new }
    ensures write_faults { F.write_faults files.new ≡ F.write_faults files.old }
{
    let script = match read_script_at(alloc, files, path) {
        Ok(script) => script,
        Err(refusal) => return Err(refusal),
    };
    match read_tables(alloc, files, script.lines()) {
        Ok(tables) => Ok(FixedInputs { script, tables }),
        Err(refusal) => Err(refusal),
    }
}

/// What the files give: the script at the path, and the rows of its loads. Each file is read once, the script first and then the loads in
/// their order, up to the first fault.
pub fn read_inputs<F: Files>(
    alloc: Global,
    files: &mut F,
    path: &str,
) -> Result<FixedInputs, InputRefusal>
    ensures ok { IfOk result (λ inputs. AreInputsAt (F.contents files.old) path.now inputs) }
    ensures fits { IfOk result (λ inputs. All HasFittingRows inputs.tables) }
    ensures fault { (f : InputFault) → result ≡ Err (InputRefusal.Fault f) → IsInputFault (F.contents files.old) path.now f }
    ensures read { (at : List ℕ) → result ≡ Err (InputRefusal.Fault (InputFault.ReadFault at)) → Rose (F.faults files.old) (F.faults files.new) }

    // What the files give is answered, unless memory is wanting or a read fails.
    ensures told { (outcome : Result FixedInputs InputFault) → TellsOutcomeAt (F.contents files.old) path.now outcome → AnswersAs outcome result }

    ensures contents { F.contents files.new ≡ F.contents files.old }
    ensures faults { F.faults files.old ≤ F.faults files.new }
    ensures write_faults { F.write_faults files.new ≡ F.write_faults files.old }
{
    read_files(alloc, files, path)
}
