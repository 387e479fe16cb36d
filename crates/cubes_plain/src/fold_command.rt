// The command `fold`.

ghost use Rattle.std.specs.Prelude.{◌≡◌, ◌≢◌, ◌⊎◌, ◌++◌, ◌∷◌, [], ℕ, List, IfOk, IsErrOf, codes};
ghost use Rattle.cube_val.specs.declared.val.Val.{Val};
ghost use Rattle.cubes_plain.specs.Files.{AcceptedAt, FaultyAt, TellsAcceptedAt, TellsFaultyAt};
ghost use Rattle.cubes_plain.specs.Folds.{fold_text};
ghost use Rattle.cubes_plain.specs.Tables.{IsFoldFault, IsFoldTable, fold_names};
ghost use Rattle.fault_lines.specs.Files.{TellsLongerAt, TellsNothingAt, most_bytes};
ghost use Rattle.fault_lines.specs.Lines.{Appends, AppendsAll, read_fault_line, too_large_line};
ghost use Rattle.fault_lines.specs.Tables.{bad_table_line};
ghost use Rattle.outside.specs.Contents.{IsLongerAt, IsNotLongerAt};
ghost use Rattle.outside.specs.Counts.{Rose};
ghost use Rattle.outside.specs.Written.{AppendsPart};
ghost use Rattle.table_reader.specs.declared.fault.TableFault.{TableFault};

use crate::fold::fold_text;
use crate::rows::read_rows;
use cube_val::Row;
use fault_lines::status::{BAD_TABLE, DONE, MEMORY, READ_FAULT, TOO_LARGE, WRITE_FAULT};
use fault_lines::{MOST_BYTES, finish, refuse_table, refuse_too_large, refuse_unread};
use outside::{FileFault, Files, Sink};
use std::alloc::Global;
use std::thread::Threads;
use table_reader::{TableFault, TableRefusal};

// Why a command has no output.
#[derive(Clone, Copy)]
enum Fault {
    Memory,
    ReadFault,
    TooLarge,
    BadTable(TableFault),
}

// The rows of the bytes of a file, which are let go.
fn rows_of_bytes(alloc: Global, bytes: Vec<u8>) -> Result<Vec<Row>, TableRefusal>
    ensures ok { IfOk result (λ rows. IsFoldTable bytes.items rows.items) }
    ensures fault { (f : TableFault) → result ≡ Err (TableRefusal.Fault f) → IsFoldFault bytes.items f }
{
    read_rows(alloc, bytes.as_slice())
}

// The text of `fold` over the bytes of a file, which are not kept longer than they are read.
fn text_of_bytes<R: Threads + Sync>(rt: &R, alloc: Global, bytes: Vec<u8>) -> Result<Vec<u8>, Fault>
    ensures ok { IfOk result (λ text. (rows : List (List Val)) × IsFoldTable bytes.items rows × (text.items ≡ fold_text rows)) }
    ensures bad { (f : TableFault) → result ≡ Err (Fault.BadTable f) → IsFoldFault bytes.items f }
    ensures read { result ≢ Err Fault.ReadFault }
    ensures large { result ≢ Err Fault.TooLarge }
{
    let rows = match rows_of_bytes(alloc, bytes) {
        Ok(rows) => rows,
        Err(TableRefusal::Fault(fault)) => return Err(Fault::BadTable(fault)),
        Err(TableRefusal::Memory) => return Err(Fault::Memory),
    };
    match fold_text(rt, alloc, rows) {
        Ok(text) => Ok(text),
        Err(_) => Err(Fault::Memory),
    }
}

// The text of `fold` over the file at the path.
fn fold_output<R: Threads + Sync, F: Files>(
    rt: &R,
    alloc: Global,
    path: &str,
    files: &mut F,
) -> Result<Vec<u8>, Fault>
    ensures ok { IfOk result (λ text. (rows : List (List Val)) × AcceptedAt (F.contents files.old) path.now rows × (text.items ≡ fold_text rows)) }
    ensures read { IsErrOf result Fault.ReadFault → Rose (F.faults files.old) (F.faults files.new) }
    ensures read_not_longer { IsErrOf result Fault.ReadFault → IsNotLongerAt (F.contents files.old) path.now most_bytes }
    ensures large { IsErrOf result Fault.TooLarge → IsLongerAt (F.contents files.old) path.now most_bytes }
    ensures bad { (f : TableFault) → result ≡ Err (Fault.BadTable f) → FaultyAt (F.contents files.old) path.now f }
    ensures contents { F.contents files.new ≡ F.contents files.old }
    ensures write_faults { F.write_faults files.new ≡ F.write_faults files.old }
{
    let bytes = match files.read(alloc, path, MOST_BYTES) {
        Ok(bytes) => bytes,
        Err(FileFault::Failed) => return Err(Fault::ReadFault),
        Err(FileFault::TooLong) => return Err(Fault::TooLarge),
        Err(FileFault::Memory) => return Err(Fault::Memory),
    };
    text_of_bytes(rt, alloc, bytes)
}

/// Writes the counts and sums of the table at the path, and says the status. A fault is answered as every command
/// answers it; want of memory is free.
pub fn run_fold<R: Threads + Sync, F: Files, S: Sink>(
    rt: &R,
    alloc: Global,
    path: &str,
    files: &mut F,
    sink: &mut S,
) -> u8
    ensures status { (result ≡ DONE) ⊎ (result ≡ MEMORY) ⊎ (result ≡ READ_FAULT) ⊎ (result ≡ WRITE_FAULT) ⊎ (result ≡ BAD_TABLE) ⊎ (result ≡ TOO_LARGE) }
    ensures done { result ≡ DONE → (rows : List (List Val)) × AcceptedAt (F.contents files.old) path.now rows × AppendsAll (S.written sink.old) (S.written sink.new) (fold_text rows) }
    ensures memory { result ≡ MEMORY → S.written sink.new ≡ S.written sink.old }
    ensures read_fault { result ≡ READ_FAULT → Rose (F.faults files.old) (F.faults files.new) }
    ensures read_fault_line { result ≡ READ_FAULT → Appends (S.faults sink.old) (S.faults sink.new) (S.written sink.old) (S.written sink.new) (read_fault_line path.now) }
    ensures nothing_there { TellsNothingAt (F.contents files.old) path.now → (result ≡ READ_FAULT) ⊎ (result ≡ MEMORY) }
    ensures write_fault { result ≡ WRITE_FAULT → Rose (S.faults sink.old) (S.faults sink.new) }
    ensures write_fault_part { result ≡ WRITE_FAULT → (rows : List (List Val)) × AcceptedAt (F.contents files.old) path.now rows × AppendsPart (S.written sink.old) (S.written sink.new) (fold_text rows) }
    ensures bad_table { result ≡ BAD_TABLE → (fault : TableFault) × FaultyAt (F.contents files.old) path.now fault
        × Appends (S.faults sink.old) (S.faults sink.new) (S.written sink.old) (S.written sink.new) (bad_table_line fold_names path.now fault) }
    ensures faulty { (fault : TableFault) → TellsFaultyAt (F.contents files.old) path.now fault → (result ≡ BAD_TABLE) ⊎ (result ≡ READ_FAULT) ⊎ (result ≡ MEMORY) }
    ensures too_large { result ≡ TOO_LARGE → IsLongerAt (F.contents files.old) path.now most_bytes
        × Appends (S.faults sink.old) (S.faults sink.new) (S.written sink.old) (S.written sink.new) (too_large_line path.now) }
    ensures longer { TellsLongerAt (F.contents files.old) path.now → (result ≡ TOO_LARGE) ⊎ (result ≡ MEMORY) }
    ensures complete { (rows : List (List Val)) → TellsAcceptedAt (F.contents files.old) path.now rows
        → ¬ (Rose (F.faults files.old) (F.faults files.new)) → ¬ (Rose (S.faults sink.old) (S.faults sink.new)) → (result ≡ DONE) ⊎ (result ≡ MEMORY) }
    ensures contents { F.contents files.new ≡ F.contents files.old }
    ensures write_faults { F.write_faults files.new ≡ F.write_faults files.old }
{
    match fold_output(rt, alloc, path, files) {
        Ok(text) => finish(sink, text.as_slice()),
        Err(Fault::Memory) => MEMORY,
        Err(Fault::ReadFault) => refuse_unread(alloc, sink, path),
        Err(Fault::TooLarge) => refuse_too_large(alloc, sink, path),
        Err(Fault::BadTable(fault)) => {
            refuse_table(alloc, sink, &["D1", "D2", "M"], path, fault)
        }
    }
}
