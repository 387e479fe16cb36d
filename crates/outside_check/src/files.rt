// Calls on files.

ghost use Rattle.std.specs.Prelude.{◌≡◌, IsTrue};
ghost use Rattle.outside.specs.Counts.{Rose};
ghost use Rattle.outside.specs.Watches.{KeepsHeld};

use crate::given::{files, numbers, put_answer, put_bytes, put_done};
use check_lines::{Words, unescaped, unknown_line};
use outside::{FileWatch, Files, MemoryFiles, Watch};
use std::alloc::Global;
use std::io;
use std::io::Write;

// Asks a watch.
fn ask<W: Watch>(watch: &mut W) -> bool
    ensures saw { IsTrue result → Rose (W.seen watch.old) (W.seen watch.new) }
    ensures held { KeepsHeld (W.held watch.old) (W.held watch.new) }
    ensures place { W.place watch.new ≡ W.place watch.old }
{
    watch.asked()
}

// Whether a watch over files that looks at the path is asked to stop. Whoever lends the files knows what they hold afterwards.
fn look<F: Files>(files: &mut F, path: &str) -> bool
    ensures saw { IsTrue result → Rose (F.seen files.old) (F.seen files.new) }
    ensures same { F.contents files.new ≡ F.contents files.old }
    ensures write_faults { F.write_faults files.new ≡ F.write_faults files.old }
{
    let mut watch = FileWatch::new(files, path);
    ask(&mut watch)
}

fn answer_read<F: Files, W: Write>(
    alloc: Global,
    files: &mut F,
    path: &str,
    words: &mut Words<'_>,
    out: &mut W,
) -> io::Result<()> {
    let limit = u64::from(words.number()?);
    put_answer(out, &files.read(alloc, path, limit))
}

fn answer_write<F: Files, W: Write>(
    alloc: Global,
    files: &mut F,
    path: &str,
    words: &mut Words<'_>,
    out: &mut W,
) -> io::Result<()> {
    let bytes = unescaped(alloc, words.next()?)?;
    put_done(out, &files.write(alloc, path, bytes.as_slice()))
}

fn put_flag<W: Write>(out: &mut W, flag: bool) -> io::Result<()> {
    write!(out, "; {flag}")
}

// Makes one call at a path.
fn answer_call<F: Files, W: Write>(
    alloc: Global,
    files: &mut F,
    words: &mut Words<'_>,
    out: &mut W,
) -> io::Result<()> {
    let call = words.next()?;
    let path = words.next()?;
    match call {
        "read" => answer_read(alloc, files, path, words, out),
        "write" => answer_write(alloc, files, path, words, out),
        "exists" => put_flag(out, files.exists(path)),
        "asked" => put_flag(out, look(files, path)),
        _ => Err(unknown_line()),
    }
}

/// Makes the calls of a line.
pub(crate) fn answer_all<F: Files, W: Write>(
    alloc: Global,
    files: &mut F,
    words: &mut Words<'_>,
    out: &mut W,
) -> io::Result<()> {
    for _ in 0..u64::MAX {
        if words.is_empty() {
            break;
        }
        answer_call(alloc, files, words, out)?;
    }
    Ok(())
}

// Writes what stands at a path.
fn put_file<W: Write>(files: &MemoryFiles, path: &str, out: &mut W) -> io::Result<()> {
    match files.bytes_at(path) {
        Some(bytes) => put_bytes(out, bytes),
        None => out.write_all(b"; none"),
    }
}

// Makes the calls, and writes what stands at each of some paths then.
fn put_calls<W: Write>(
    alloc: Global,
    files: &mut MemoryFiles,
    words: &mut Words<'_>,
    out: &mut W,
) -> io::Result<()> {
    let paths = words.next()?;
    answer_all(alloc, files, words, out)?;
    for path in paths.split(',') {
        put_file(files, path, out)?;
    }
    Ok(())
}

/// Calls on files in memory.
pub(crate) fn answer_files<W: Write>(
    alloc: Global,
    words: &mut Words<'_>,
    out: &mut W,
) -> io::Result<()> {
    let failing = numbers(alloc, words.next()?)?;
    let entries = files(alloc, words.next()?)?;
    let mut files = MemoryFiles::new(entries, failing);
    put_calls(alloc, &mut files, words, out)
}
