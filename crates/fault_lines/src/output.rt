// What every command writes: its output, or one fault line.

ghost use Rattle.std.specs.Prelude.{◌≡◌, ◌≢◌, ◌⊎◌, ◌++◌, ◌∷◌, [], codes};
ghost use Rattle.fault_lines.specs.Lines.{Appends, AppendsAll, read_fault_line, too_large_line};
ghost use Rattle.outside.specs.Counts.{Rose};
ghost use Rattle.outside.specs.Written.{AppendsPart};

use crate::status::{DONE, MEMORY, READ_FAULT, TOO_LARGE, WRITE_FAULT};
use outside::{Sink, SinkFault};
use std::alloc::Global;

/// The most bytes of a file: 64 MiB.
pub const MOST_BYTES: u64 = 64 * 1024 * 1024;

/// Writes the output, and says the status.
pub fn finish<S: Sink>(sink: &mut S, text: &[u8]) -> u8
    ensures status { (result ≡ DONE) ⊎ (result ≡ MEMORY) ⊎ (result ≡ WRITE_FAULT) }
    ensures done { result ≡ DONE → AppendsAll (S.written sink.old) (S.written sink.new) text.now }
    ensures part { result ≡ WRITE_FAULT → AppendsPart (S.written sink.old) (S.written sink.new) text.now }
    ensures failed { result ≡ WRITE_FAULT → Rose (S.faults sink.old) (S.faults sink.new) }
    ensures memory { result ≡ MEMORY → S.written sink.new ≡ S.written sink.old }
{
    match sink.write(text) {
        Ok(()) => DONE,
        Err(SinkFault::Failed) => WRITE_FAULT,
        Err(SinkFault::Memory) => MEMORY,
    }
}

/// Writes a fault line, and says the status.
pub fn refuse<S: Sink>(sink: &mut S, line: &[u8], status: u8) -> u8
    requires { status ≢ MEMORY }
    ensures status { (result ≡ status) ⊎ (result ≡ MEMORY) }
    ensures line { result ≡ status → Appends (S.faults sink.old) (S.faults sink.new) (S.written sink.old) (S.written sink.new) line.now }
    ensures memory { result ≡ MEMORY → S.written sink.new ≡ S.written sink.old }
{
    match sink.write(line) {
        Ok(()) => status,
        Err(SinkFault::Failed) => status,
        Err(SinkFault::Memory) => MEMORY,
    }
}

// Writes a fault line with a path, and says the status.
fn refuse_path<S: Sink>(alloc: Global, sink: &mut S, kind: &str, path: &str, status: u8) -> u8
    requires { status ≢ MEMORY }
    ensures status { (result ≡ status) ⊎ (result ≡ MEMORY) }
    ensures line { result ≡ status → Appends (S.faults sink.old) (S.faults sink.new) (S.written sink.old) (S.written sink.new) (codes "fault: " ++ kind.now ++ 32 ∷ path.now ++ 10 ∷ []) }
    ensures memory { result ≡ MEMORY → S.written sink.new ≡ S.written sink.old }
{
    match format!(in alloc; "fault: {kind} {path}\n") {
        Ok(line) => refuse(sink, line.as_bytes(), status),
        Err(_) => MEMORY,
    }
}

/// Writes the fault line of a file that can't be read, and says the status.
pub fn refuse_unread<S: Sink>(alloc: Global, sink: &mut S, path: &str) -> u8
    ensures status { (result ≡ READ_FAULT) ⊎ (result ≡ MEMORY) }
    ensures line { result ≡ READ_FAULT → Appends (S.faults sink.old) (S.faults sink.new) (S.written sink.old) (S.written sink.new) (read_fault_line path.now) }
    ensures memory { result ≡ MEMORY → S.written sink.new ≡ S.written sink.old }
{
    refuse_path(alloc, sink, "ReadFault", path, READ_FAULT)
}

/// Writes the fault line of a file that has more bytes than a file may have, and says the status.
pub fn refuse_too_large<S: Sink>(alloc: Global, sink: &mut S, path: &str) -> u8
    ensures status { (result ≡ TOO_LARGE) ⊎ (result ≡ MEMORY) }
    ensures line { result ≡ TOO_LARGE → Appends (S.faults sink.old) (S.faults sink.new) (S.written sink.old) (S.written sink.new) (too_large_line path.now) }
    ensures memory { result ≡ MEMORY → S.written sink.new ≡ S.written sink.old }
{
    refuse_path(alloc, sink, "TooLarge", path, TOO_LARGE)
}
