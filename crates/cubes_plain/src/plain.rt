// The top call of the commands that run no jobs.

ghost use Rattle.std.specs.Prelude.{◌≡◌, ◌⊎◌, ℕ, List, Ok, Err};
ghost use Rattle.std.specs.String.{string_bytes};
ghost use Rattle.std.specs.declared.alloc.Global.{Global};
ghost use Rattle.std.specs.declared.string.String.{String};
ghost use Rattle.cube_desc.specs.Cube.{Cube};
ghost use Rattle.cube_val.specs.declared.val.Val.{Val};
ghost use Rattle.cubes_plain.specs.Descriptors.{DescribedAt, MisdescribedAt, TellsDescribedAt, TellsMisdescribedAt, bad_descriptor_line};
ghost use Rattle.cubes_plain.specs.Files.{AcceptedAt, FaultyAt, TellsAcceptedAt, TellsFaultyAt};
ghost use Rattle.cubes_plain.specs.Folds.{fold_text};
ghost use Rattle.cubes_plain.specs.Steps.{IsStepRun, files_at, sink_at};
ghost use Rattle.cubes_plain.specs.Tables.{fold_names};
ghost use Rattle.cubes_plain.specs.Words.{IsCuboids, IsFold, IsNoCommand, IsNoStep, IsOver, IsStep};
ghost use Rattle.cuboid_lines.specs.Lines.{cuboids_text};
ghost use Rattle.desc_checks.specs.declared.kind.DescFault.{DescFault};
ghost use Rattle.fault_lines.specs.Files.{TellsLongerAt, TellsNothingAt, most_bytes};
ghost use Rattle.fault_lines.specs.Lines.{Appends, AppendsAll, bad_words_line, read_fault_line, too_large_line};
ghost use Rattle.fault_lines.specs.Tables.{bad_table_line};
ghost use Rattle.outside.specs.Contents.{IsLongerAt};
ghost use Rattle.outside.specs.Counts.{Rose};
ghost use Rattle.outside.specs.Written.{AppendsPart};
ghost use Rattle.table_reader.specs.declared.fault.TableFault.{TableFault};

use crate::cuboids::run_cuboids;
use crate::fold_command::run_fold;
use crate::step::run_step_file;
use command_line::{Order, WordsRefusal, read_words};
use fault_lines::refuse;
use fault_lines::status::{
    BAD_DESCRIPTOR, BAD_TABLE, BAD_TASK, BAD_WORDS, DONE, MEMORY, READ_FAULT, STOPPED, TOO_LARGE,
    WRITE_FAULT,
};
use outside::{Files, Sink, StepWork};
use std::alloc::Global;
use std::thread::Threads;

// A command that runs no jobs, with its paths.
#[derive(Drop)]
enum PlainOrder {
    Fold(String),
    Cuboids(String),
    Step {
        task: String,
        product: String,
        stop: String,
    },
}

// The command that the words say. No other order is served.
fn plain_order(alloc: Global, words: &[String]) -> Result<PlainOrder, WordsRefusal>
    ensures fold { (path : String Global) → result ≡ Ok (PlainOrder.Fold path) → IsFold words.now (string_bytes path) }
    ensures cuboids { (path : String Global) → result ≡ Ok (PlainOrder.Cuboids path) → IsCuboids words.now (string_bytes path) }
    ensures step { (task product stop : String Global) → result ≡ Ok (PlainOrder.Step task product stop) → IsStep words.now (string_bytes task) (string_bytes product) (string_bytes stop) }
    ensures bad_words { result ≡ Err WordsRefusal.BadWords → IsNoCommand words.now }
{
    match read_words(alloc, words) {
        Ok(Order::Fold(path)) => Ok(PlainOrder::Fold(path)),
        Ok(Order::Cuboids(path)) => Ok(PlainOrder::Cuboids(path)),
        Ok(Order::Run { .. }) => Err(WordsRefusal::BadWords),
        Ok(Order::Demo { .. }) => Err(WordsRefusal::BadWords),
        Ok(
            Order::Step {
                task,
                product,
                stop,
            },
        ) => Ok(PlainOrder::Step {
            task,
            product,
            stop,
        }),
        Err(WordsRefusal::BadWords) => Err(WordsRefusal::BadWords),
        Err(WordsRefusal::Memory) => Err(WordsRefusal::Memory),
    }
}

/// Runs a command that runs no jobs, and says its status, one of those in `fault_lines::status`. The words do not hold the
/// program's own name. A command reads its file, then works, then writes its output in one piece, `step` as its product
/// file and every other one to the sink; where it has no output it writes one fault line. `K` is the work of steps. Want of
/// memory is free: its status may stand in place of every other one.
pub fn run_plain<K: StepWork, R: Threads + Sync, F: Files, S: Sink>(
    rt: &R,
    alloc: Global,
    words: &[String],
    files: &mut F,
    sink: &mut S,
) -> u8
    ensures status { (result ≡ DONE) ⊎ (result ≡ MEMORY) ⊎ (result ≡ BAD_WORDS) ⊎ (result ≡ READ_FAULT) ⊎ (result ≡ WRITE_FAULT)
        ⊎ (result ≡ STOPPED) ⊎ (result ≡ BAD_DESCRIPTOR) ⊎ (result ≡ BAD_TABLE) ⊎ (result ≡ BAD_TASK) ⊎ (result ≡ TOO_LARGE) }
    ensures other_status { IsNoStep words.now → (result ≡ DONE) ⊎ (result ≡ MEMORY) ⊎ (result ≡ BAD_WORDS) ⊎ (result ≡ READ_FAULT) ⊎ (result ≡ WRITE_FAULT)
        ⊎ (result ≡ BAD_DESCRIPTOR) ⊎ (result ≡ BAD_TABLE) ⊎ (result ≡ TOO_LARGE) }

    // The word `step`: how it ends over the paths that the words say.
    ensures step { (task product stop : List ℕ) → IsStep words.now task product stop → IsStepRun K.is_task K.text
        (files_at (F.contents files.old) (F.faults files.old) (F.write_faults files.old) (F.seen files.old))
        (files_at (F.contents files.new) (F.faults files.new) (F.write_faults files.new) (F.seen files.new))
        (sink_at (S.written sink.old) (S.faults sink.old)) (sink_at (S.written sink.new) (S.faults sink.new)) task product stop result }

    // Done: the text of `fold` over exactly the rows of the accepted file, or of `cuboids` over the cube that the file describes.
    ensures done { IsNoStep words.now → result ≡ DONE
        → ((path : List ℕ) × (rows : List (List Val)) × IsFold words.now path
        × AcceptedAt (F.contents files.old) path rows × AppendsAll (S.written sink.old) (S.written sink.new) (fold_text rows))
        ⊎ ((path : List ℕ) × (cube : Cube) × IsCuboids words.now path
        × DescribedAt (F.contents files.old) path cube × AppendsAll (S.written sink.old) (S.written sink.new) (cuboids_text cube)) }

    // Want of memory: nothing was written.
    ensures memory { result ≡ MEMORY → S.written sink.new ≡ S.written sink.old }

    // Bad words: exactly where the words are no command.
    ensures bad_words { result ≡ BAD_WORDS → IsNoCommand words.now }
    ensures no_command { IsNoCommand words.now → (result ≡ BAD_WORDS) ⊎ (result ≡ MEMORY) }
    ensures bad_words_line { result ≡ BAD_WORDS → Appends (S.faults sink.old) (S.faults sink.new) (S.written sink.old) (S.written sink.new) bad_words_line }

    // A read fault: only where the read failed.
    ensures read_fault { result ≡ READ_FAULT → Rose (F.faults files.old) (F.faults files.new) }
    ensures read_fault_line { IsNoStep words.now → result ≡ READ_FAULT → (path : List ℕ) × IsOver words.now path
        × Appends (S.faults sink.old) (S.faults sink.new) (S.written sink.old) (S.written sink.new) (read_fault_line path) }
    ensures nothing_there { (path : List ℕ) → IsOver words.now path → TellsNothingAt (F.contents files.old) path → (result ≡ READ_FAULT) ⊎ (result ≡ MEMORY) }

    // A write fault: only where the write failed, and then a part of the text was written.
    ensures write_fault { IsNoStep words.now → result ≡ WRITE_FAULT → Rose (S.faults sink.old) (S.faults sink.new) }
    ensures write_fault_part { IsNoStep words.now → result ≡ WRITE_FAULT
        → ((path : List ℕ) × (rows : List (List Val)) × IsFold words.now path
        × AcceptedAt (F.contents files.old) path rows × AppendsPart (S.written sink.old) (S.written sink.new) (fold_text rows))
        ⊎ ((path : List ℕ) × (cube : Cube) × IsCuboids words.now path
        × DescribedAt (F.contents files.old) path cube × AppendsPart (S.written sink.old) (S.written sink.new) (cuboids_text cube)) }

    // A bad table: exactly where the file that was read is none, with its first fault.
    ensures bad_table { result ≡ BAD_TABLE → (path : List ℕ) × (fault : TableFault) × IsFold words.now path
        × FaultyAt (F.contents files.old) path fault
        × Appends (S.faults sink.old) (S.faults sink.new) (S.written sink.old) (S.written sink.new) (bad_table_line fold_names path fault) }
    ensures faulty { (path : List ℕ) (fault : TableFault) → IsFold words.now path → TellsFaultyAt (F.contents files.old) path fault
        → (result ≡ BAD_TABLE) ⊎ (result ≡ READ_FAULT) ⊎ (result ≡ MEMORY) }

    // A bad descriptor: exactly where the file that was read is none, with its first fault.
    ensures bad_descriptor { result ≡ BAD_DESCRIPTOR → (path : List ℕ) × (fault : DescFault) × IsCuboids words.now path
        × MisdescribedAt (F.contents files.old) path fault
        × Appends (S.faults sink.old) (S.faults sink.new) (S.written sink.old) (S.written sink.new) (bad_descriptor_line fault) }
    ensures misdescribed { (path : List ℕ) (fault : DescFault) → IsCuboids words.now path → TellsMisdescribedAt (F.contents files.old) path fault
        → (result ≡ BAD_DESCRIPTOR) ⊎ (result ≡ READ_FAULT) ⊎ (result ≡ MEMORY) }

    // Too large: exactly where the file has more than 64 MiB.
    ensures too_large { result ≡ TOO_LARGE → (path : List ℕ) × IsOver words.now path
        × IsLongerAt (F.contents files.old) path most_bytes
        × Appends (S.faults sink.old) (S.faults sink.new) (S.written sink.old) (S.written sink.new) (too_large_line path) }
    ensures longer { (path : List ℕ) → IsOver words.now path → TellsLongerAt (F.contents files.old) path → (result ≡ TOO_LARGE) ⊎ (result ≡ MEMORY) }

    // Complete: a command over an accepted file, or over a descriptor, is done where nothing outside fails.
    ensures complete { (path : List ℕ) (rows : List (List Val)) → IsFold words.now path → TellsAcceptedAt (F.contents files.old) path rows
        → ¬ (Rose (F.faults files.old) (F.faults files.new)) → ¬ (Rose (S.faults sink.old) (S.faults sink.new)) → (result ≡ DONE) ⊎ (result ≡ MEMORY) }
    ensures complete_cuboids { (path : List ℕ) (cube : Cube) → IsCuboids words.now path → TellsDescribedAt (F.contents files.old) path cube
        → ¬ (Rose (F.faults files.old) (F.faults files.new)) → ¬ (Rose (S.faults sink.old) (S.faults sink.new)) → (result ≡ DONE) ⊎ (result ≡ MEMORY) }

    // With every word but `step` the files stay as they were, and no write of a file failed.
    ensures contents { IsNoStep words.now → F.contents files.new ≡ F.contents files.old }
    ensures write_faults { IsNoStep words.now → F.write_faults files.new ≡ F.write_faults files.old }
{
    match plain_order(alloc, words) {
        Ok(PlainOrder::Fold(path)) => run_fold(rt, alloc, path.as_str(), files, sink),
        Ok(PlainOrder::Cuboids(path)) => run_cuboids(alloc, path.as_str(), files, sink),
        Ok(
            PlainOrder::Step {
                task,
                product,
                stop,
            },
        ) => run_step_file::<K, R, F, S>(
            rt,
            alloc,
            task.as_str(),
            product.as_str(),
            stop.as_str(),
            files,
            sink,
        ),
        Err(WordsRefusal::BadWords) => refuse(sink, b"fault: BadWords\n", BAD_WORDS),
        Err(WordsRefusal::Memory) => MEMORY,
    }
}
