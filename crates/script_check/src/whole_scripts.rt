// Scripts of any cube.

use crate::scripts::{put_lines, script_of};
use check_lines::{Words, out_of_memory, unescaped};
use script_files::{ScriptRefusal, read_script};
use script_text::Script;
use std::alloc::Global;
use std::io;
use std::io::Write;

// Writes the line of a script's fault, and its kind.
fn put_refusal<W: Write>(refusal: &ScriptRefusal, out: &mut W) -> io::Result<()> {
    match refusal {
        ScriptRefusal::Fault(fault) => writeln!(out, "line {} {:?}", fault.line, fault.kind),
        ScriptRefusal::Memory => Err(out_of_memory()),
    }
}

// Writes the number of commands, or the fault.
fn put_count<W: Write>(read: &Result<Script, ScriptRefusal>, out: &mut W) -> io::Result<()> {
    match read {
        Ok(script) => writeln!(out, "{} commands", script.lines().len()),
        Err(refusal) => put_refusal(refusal, out),
    }
}

/// Writes how many commands a script has, or its fault.
pub(crate) fn answer_read<W: Write>(alloc: Global, text: &str, out: &mut W) -> io::Result<()> {
    let bytes = unescaped(alloc, text)?;
    put_count(&read_script(alloc, bytes.as_slice()), out)
}

/// The same of a text that stands so often below the descriptor's line.
pub(crate) fn answer_times<W: Write>(
    alloc: Global,
    mut words: Words<'_>,
    out: &mut W,
) -> io::Result<()> {
    let bytes = script_of(alloc, &mut words)?;
    put_count(&read_script(alloc, bytes.as_slice()), out)
}

/// Writes each command of a script.
pub(crate) fn answer_commands<W: Write>(alloc: Global, text: &str, out: &mut W) -> io::Result<()> {
    let bytes = unescaped(alloc, text)?;
    match read_script(alloc, bytes.as_slice()) {
        Ok(script) => put_lines(script.lines(), out),
        Err(refusal) => put_refusal(&refusal, out),
    }
}
