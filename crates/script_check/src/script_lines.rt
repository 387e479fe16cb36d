// A line of a script behind others.

use check_lines::{Words, out_of_memory, unescaped};
use script_reader::{Counts, Instruction, LineRefusal, read_line};
use std::alloc::Global;
use std::io;
use std::io::Write;

// The command word of what a line says.
fn instruction_word(instruction: &Instruction) -> &'static str {
    match instruction {
        Instruction::Descriptor(_) => "descriptor",
        Instruction::Load(_, _) => "load",
        Instruction::Build(_) => "build",
        Instruction::Refresh(_) => "refresh",
        Instruction::Merge(_) => "merge",
        Instruction::Drop(_) => "drop",
        Instruction::Pause(_) => "pause",
        Instruction::Resume(_) => "resume",
        Instruction::Discard(_) => "discard",
        Instruction::AwaitJob(_) => "await",
        Instruction::AwaitJobs => "await jobs",
        Instruction::AwaitQueries => "await queries",
        Instruction::Jobs => "jobs",
        Instruction::Segments => "segments",
        Instruction::Query(_, _) => "query",
    }
}

// The counts of the lines before.
fn counts_of(words: &mut Words<'_>) -> io::Result<Counts> {
    let lines = words.number()?;
    let loads = words.number()?;
    let jobs = words.number()?;
    Ok(Counts {
        lines,
        started: lines > 0,
        loads,
        jobs,
    })
}

/// Writes what a line says, or the kind of its fault.
pub(crate) fn answer<W: Write>(alloc: Global, mut words: Words<'_>, out: &mut W) -> io::Result<()> {
    let counts = counts_of(&mut words)?;
    let line = unescaped(alloc, words.rest())?;
    match read_line(alloc, counts, line.as_slice()) {
        Ok(None) => out.write_all(b"nothing\n"),
        Ok(Some(said)) => writeln!(out, "{}", instruction_word(&said.instruction)),
        Err(LineRefusal::Fault(kind)) => writeln!(out, "{kind:?}"),
        Err(LineRefusal::Memory) => Err(out_of_memory()),
    }
}
