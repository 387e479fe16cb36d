// Whole scripts.

use check_lines::{Words, out_of_memory, unescaped};
use fixed_script::{FixedScriptRefusal, read_fixed_script};
use script_text::{Line, Script, Verb};
use std::alloc::{AllocError, Global};
use std::io;
use std::io::Write;

// Writes the number of commands, or of the bad line.
fn put_count<W: Write>(read: &Result<Script, FixedScriptRefusal>, out: &mut W) -> io::Result<()> {
    match read {
        Ok(script) => writeln!(out, "{} commands", script.lines().len()),
        Err(FixedScriptRefusal::BadScript(line)) => writeln!(out, "bad line {line}"),
        Err(FixedScriptRefusal::Memory) => Err(out_of_memory()),
    }
}

// The words of a command.
fn verb_words(verb: &Verb) -> &'static str {
    match verb {
        Verb::Descriptor(_) => "descriptor",
        Verb::Load(_, _) => "load",
        Verb::Build(_) => "build",
        Verb::Refresh(_) => "refresh",
        Verb::Merge(_) => "merge",
        Verb::Drop(_) => "drop",
        Verb::Pause(_) => "pause",
        Verb::Resume(_) => "resume",
        Verb::Discard(_) => "discard",
        Verb::AwaitJob(_) => "await",
        Verb::AwaitJobs => "await jobs",
        Verb::AwaitQueries => "await queries",
        Verb::Jobs => "jobs",
        Verb::Segments => "segments",
        Verb::Query(_, _) => "query",
    }
}

// Writes the path of a command, its job or the number of its session, where it has one.
fn put_argument<W: Write>(verb: &Verb, out: &mut W) -> io::Result<()> {
    match verb {
        Verb::Descriptor(path) | Verb::Load(_, path) => write!(out, " {}", path.as_str()),
        Verb::Pause(job) | Verb::Resume(job) | Verb::Discard(job) | Verb::AwaitJob(job) => {
            write!(out, " {job}")
        }
        Verb::Query(session, _) => write!(out, " {session}"),
        _ => Ok(()),
    }
}

// Writes the number of a line, and its command.
fn put_line<W: Write>(line: &Line, out: &mut W) -> io::Result<()> {
    write!(out, "{} {}", line.number, verb_words(&line.verb))?;
    put_argument(&line.verb, out)?;
    out.write_all(b"\n")
}

/// Writes how many commands a script has, or the number of its bad line.
pub(crate) fn answer_script<W: Write>(alloc: Global, text: &str, out: &mut W) -> io::Result<()> {
    let bytes = unescaped(alloc, text)?;
    put_count(&read_fixed_script(alloc, bytes.as_slice()), out)
}

// Adds a text so often.
fn add_repeated(script: &mut Vec<u8>, text: &[u8], times: u32) -> Result<(), AllocError> {
    for _ in 0..times {
        script.extend_from_slice(text)?;
    }
    Ok(())
}

/// A script with the text below the descriptor's line, so often.
pub(crate) fn script_of(alloc: Global, words: &mut Words<'_>) -> io::Result<Vec<u8>> {
    let times = words.number()?;
    let text = unescaped(alloc, words.rest())?;
    let mut script = Vec::from_slice(alloc, b"descriptor fixed\n")?;
    add_repeated(&mut script, text.as_slice(), times)?;
    Ok(script)
}

/// The same of a text that stands so often below the descriptor's line.
pub(crate) fn answer_times<W: Write>(
    alloc: Global,
    mut words: Words<'_>,
    out: &mut W,
) -> io::Result<()> {
    let bytes = script_of(alloc, &mut words)?;
    put_count(&read_fixed_script(alloc, bytes.as_slice()), out)
}

/// Writes each command.
pub(crate) fn put_lines<W: Write>(lines: &[Line], out: &mut W) -> io::Result<()> {
    for line in lines {
        put_line(line, out)?;
    }
    Ok(())
}

/// Writes each command of a script.
pub(crate) fn answer_commands<W: Write>(alloc: Global, text: &str, out: &mut W) -> io::Result<()> {
    let bytes = unescaped(alloc, text)?;
    match read_fixed_script(alloc, bytes.as_slice()) {
        Ok(script) => put_lines(script.lines(), out),
        Err(refusal) => put_count(&Err(refusal), out),
    }
}
