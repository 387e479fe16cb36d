// The command `step`.

ghost use Rattle.std.specs.Prelude.{◌≡◌, ◌≢◌, ◌≤◌, ◌⊎◌, ◌++◌, ◌∷◌, [], ℕ, List, IfOk, IsErrOf, OnOk, codes};
ghost use Rattle.cubes_plain.specs.Steps.{NoTaskAt, ProducedAt, TaskAt, TellsNoTaskAt, TellsTaskAt};
ghost use Rattle.fault_lines.specs.Files.{TellsNothingAt};
ghost use Rattle.fault_lines.specs.Lines.{Appends, bad_task_line, read_fault_line, stopped_line};
ghost use Rattle.outside.specs.Contents.{SameElsewhere, StandsAt};
ghost use Rattle.outside.specs.Counts.{Rose};
ghost use Rattle.outside.specs.Watches.{HoldsIfTold, there_at};

use fault_lines::status::{BAD_TASK, DONE, MEMORY, READ_FAULT, STOPPED, WRITE_FAULT};
use fault_lines::{refuse, refuse_unread};
use outside::{FileFault, FileWatch, Files, Sink, StepWork, WorkFault};
use std::alloc::Global;
use std::thread::Threads;

// Why there is no product.
#[derive(Clone, Copy)]
enum NoProduct {
    Memory,
    ReadFault,
    BadTask,
    Stopped,
}

// The product of the task, which stops where something stands at the stop path.
fn work_on<K: StepWork, R: Threads + Sync, F: Files>(
    rt: &R,
    alloc: Global,
    task: &[u8],
    stop: &str,
    files: &mut F,
) -> Result<Vec<u8>, WorkFault>
    ensures product { IfOk result (λ product. product.items ≡ K.text task.now) }
    ensures ok_task { OnOk result (K.is_task task.now) }
    ensures bad_task { IsErrOf result WorkFault.BadTask → ¬ K.is_task task.now }
    ensures stopped_task { IsErrOf result WorkFault.Stopped → K.is_task task.now }
    ensures stopped { IsErrOf result WorkFault.Stopped → Rose (F.seen files.old) (F.seen files.new) }
    ensures stopped_there { IsErrOf result WorkFault.Stopped → HoldsIfTold (there_at (F.contents files.old) stop.now) }
    ensures contents { F.contents files.new ≡ F.contents files.old }
    ensures write_faults { F.write_faults files.new ≡ F.write_faults files.old }
    ensures faults { F.faults files.old ≤ F.faults files.new }
    ensures seen { F.seen files.old ≤ F.seen files.new }
{
    let mut watch = FileWatch::new(files, stop);
    K::work(rt, alloc, task, &mut watch)
}

// The product of the task at the path. Step files have no limit of their own.
fn product_of_file<K: StepWork, R: Threads + Sync, F: Files>(
    rt: &R,
    alloc: Global,
    task: &str,
    stop: &str,
    files: &mut F,
) -> Result<Vec<u8>, NoProduct>
    ensures ok { IfOk result (λ product. (bytes : List ℕ) × StandsAt (F.contents files.old) task.now bytes × K.is_task bytes × (product.items ≡ K.text bytes)) }
    ensures read { IsErrOf result NoProduct.ReadFault → Rose (F.faults files.old) (F.faults files.new) }
    ensures bad_task { IsErrOf result NoProduct.BadTask → NoTaskAt K.is_task (F.contents files.old) task.now }
    ensures stopped_task { IsErrOf result NoProduct.Stopped → TaskAt K.is_task (F.contents files.old) task.now }
    ensures stopped { IsErrOf result NoProduct.Stopped → Rose (F.seen files.old) (F.seen files.new) }
    ensures stopped_there { IsErrOf result NoProduct.Stopped → HoldsIfTold (there_at (F.contents files.old) stop.now) }
    ensures contents { F.contents files.new ≡ F.contents files.old }
    ensures write_faults { F.write_faults files.new ≡ F.write_faults files.old }
    ensures faults { F.faults files.old ≤ F.faults files.new }
{
    let bytes = match files.read(alloc, task, u64::MAX) {
        Ok(bytes) => bytes,
        Err(FileFault::Failed) => return Err(NoProduct::ReadFault),
        Err(FileFault::TooLong) => unreachable!(),
        Err(FileFault::Memory) => return Err(NoProduct::Memory),
    };
    match work_on::<K, R, F>(rt, alloc, bytes.as_slice(), stop, files) {
        Ok(product) => Ok(product),
        Err(WorkFault::BadTask) => Err(NoProduct::BadTask),
        Err(WorkFault::Stopped) => Err(NoProduct::Stopped),
        Err(WorkFault::Memory) => Err(NoProduct::Memory),
    }
}

// Writes the product at its path, and says the status.
fn write_product<F: Files>(alloc: Global, path: &str, product: &[u8], files: &mut F) -> u8
    ensures status { (result ≡ DONE) ⊎ (result ≡ MEMORY) ⊎ (result ≡ WRITE_FAULT) }
    ensures done { result ≡ DONE → StandsAt (F.contents files.new) path.now product.now }
    ensures elsewhere { SameElsewhere (F.contents files.old) (F.contents files.new) path.now }
    ensures memory { result ≡ MEMORY → F.contents files.new ≡ F.contents files.old }
    ensures failed { result ≡ WRITE_FAULT → Rose (F.faults files.old) (F.faults files.new) }
    ensures write_failed { result ≡ WRITE_FAULT → Rose (F.write_faults files.old) (F.write_faults files.new) }
{
    match files.write(alloc, path, product) {
        Ok(()) => DONE,
        Err(FileFault::Failed) => WRITE_FAULT,
        Err(FileFault::TooLong) => unreachable!(),
        Err(FileFault::Memory) => MEMORY,
    }
}

/// Does the work of the task file at `task`, writes its product at `product`, and says the status. The work stops where
/// it sees something at `stop`. Each fault but that of a write has its one fault line; on the sink stands nothing else.
/// Want of memory is free, and leaves the sink and every path as they were.
pub fn run_step_file<K: StepWork, R: Threads + Sync, F: Files, S: Sink>(
    rt: &R,
    alloc: Global,
    task: &str,
    product: &str,
    stop: &str,
    files: &mut F,
    sink: &mut S,
) -> u8
    ensures status { (result ≡ DONE) ⊎ (result ≡ MEMORY) ⊎ (result ≡ READ_FAULT) ⊎ (result ≡ WRITE_FAULT) ⊎ (result ≡ STOPPED) ⊎ (result ≡ BAD_TASK) }

    // Done: at the product's path stands the product of the task as it was read.
    ensures done { result ≡ DONE → ProducedAt K.is_task K.text (F.contents files.old) (F.contents files.new) task.now product.now }

    // A read fault: only where the read failed.
    ensures read_fault { result ≡ READ_FAULT → Rose (F.faults files.old) (F.faults files.new) }
    ensures read_fault_line { result ≡ READ_FAULT → Appends (S.faults sink.old) (S.faults sink.new) (S.written sink.old) (S.written sink.new) (read_fault_line task.now) }
    ensures nothing_there { TellsNothingAt (F.contents files.old) task.now → (result ≡ READ_FAULT) ⊎ (result ≡ MEMORY) }

    // A write fault: only where the write of the product failed.
    ensures write_fault { result ≡ WRITE_FAULT → Rose (F.faults files.old) (F.faults files.new) × Rose (F.write_faults files.old) (F.write_faults files.new) }
    ensures write_fault_task { result ≡ WRITE_FAULT → TaskAt K.is_task (F.contents files.old) task.now }

    // Stopped: only where something was seen at the stop path.
    ensures stopped { result ≡ STOPPED → Rose (F.seen files.old) (F.seen files.new) × HoldsIfTold (there_at (F.contents files.old) stop.now) }
    ensures stopped_task { result ≡ STOPPED → TaskAt K.is_task (F.contents files.old) task.now }
    ensures stopped_line { result ≡ STOPPED → Appends (S.faults sink.old) (S.faults sink.new) (S.written sink.old) (S.written sink.new) stopped_line }

    // A bad task: exactly where the file that was read is no task.
    ensures bad_task { result ≡ BAD_TASK → NoTaskAt K.is_task (F.contents files.old) task.now }
    ensures no_task { TellsNoTaskAt K.is_task (F.contents files.old) task.now → (result ≡ BAD_TASK) ⊎ (result ≡ READ_FAULT) ⊎ (result ≡ MEMORY) }
    ensures bad_task_line { result ≡ BAD_TASK → Appends (S.faults sink.old) (S.faults sink.new) (S.written sink.old) (S.written sink.new) bad_task_line }

    // Without a fault line nothing is written to the sink.
    ensures silent { (result ≡ DONE) ⊎ (result ≡ MEMORY) ⊎ (result ≡ WRITE_FAULT) → S.written sink.new ≡ S.written sink.old }

    // Complete: over a task it is done where no file fails and nothing is seen at the stop path, or nothing stands there.
    ensures complete { TellsTaskAt K.is_task (F.contents files.old) task.now → ¬ (Rose (F.faults files.old) (F.faults files.new))
        → (¬ (Rose (F.seen files.old) (F.seen files.new))) ⊎ TellsNothingAt (F.contents files.old) stop.now → (result ≡ DONE) ⊎ (result ≡ MEMORY) }

    // Only the product's path changes, and only where it was written; no write failed where none was made.
    ensures elsewhere { SameElsewhere (F.contents files.old) (F.contents files.new) product.now }
    ensures contents { result ≢ DONE → result ≢ WRITE_FAULT → F.contents files.new ≡ F.contents files.old }
    ensures write_faults { (result ≡ READ_FAULT) ⊎ (result ≡ STOPPED) ⊎ (result ≡ BAD_TASK) → F.write_faults files.new ≡ F.write_faults files.old }
{
    match product_of_file::<K, R, F>(rt, alloc, task, stop, files) {
        Ok(bytes) => write_product(alloc, product, bytes.as_slice(), files),
        Err(NoProduct::Memory) => MEMORY,
        Err(NoProduct::ReadFault) => refuse_unread(alloc, sink, task),
        Err(NoProduct::BadTask) => refuse(sink, b"fault: BadTask\n", BAD_TASK),
        Err(NoProduct::Stopped) => refuse(sink, b"fault: Stopped\n", STOPPED),
    }
}
