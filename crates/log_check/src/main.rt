//! Answers calls on disks and on logs of entries, each line of standard input a list of calls (`check_lines`).
//!
//! Bytes are pairs of hexadecimal digits, and `-` stands for none; numbers are parted by commas. What a call answers is written behind
//! the first word of its line, with a semicolon before it: `ok`, a number, bytes, the bodies of entries in brackets, or the name of a fault.
//!
//! - `memory NUMBERS BYTES CALL ..`: calls on a disk in memory with these bytes, of which those with these numbers fail. A call is `len`,
//!   `read AT COUNT`, `write AT BYTES`, `cut LENGTH` or `sync` of the disk, or `create`, `open` or `append BODY` of the log on it.
//! - `file PATH CALL ..`: the same calls on a file of the system; `none` where it can't be opened.
//! - `images NUMBERS BYTES CALL ..`: the calls on a disk in memory, and then what a stop before the first and behind each of its calls
//!   leaves: with what wasn't kept as it was, as written, and filled by ones.
//! - `stops NUMBERS BYTES CALL ..`: the same, and in place of what is left the entries that it has when it is opened. Each opening is
//!   stopped in turn behind each of its calls; `differs` where another then finds other entries.
//! - `seeded RUNS SEED`: so many runs of seeded appends to a log on a disk in memory, one call of a third of them failing; behind a fault
//!   the log is opened again. Each run is stopped behind each call with each filling, and what is left is opened: it says whether that is
//!   always the entries acknowledged by then, or these and the one under way.
//!
//! It is no part of the product.
#![tactic(auto)]

mod calls;
mod seeded;
mod stops;

use crate::calls::{Session, answer_all, bytes, numbers};
use crate::seeded::answer_seeded;
use crate::stops::{answer_images, answer_stops};
use check_lines::{Words, next_case, unknown_line};
use disk_image::MemoryDisk;
use os_objects::FileDisk;
use std::alloc::Global;
use std::fs::File;
use std::io;
use std::io::{BufReader, BufWriter, Write};

// A disk in memory, as the next two words say it.
fn memory_disk(alloc: Global, words: &mut Words<'_>) -> io::Result<MemoryDisk> {
    let failing = numbers(alloc, words.next()?)?;
    let start = bytes(alloc, words.next()?)?;
    Ok(MemoryDisk::new(alloc, start, failing))
}

// Calls on a file of the system.
fn answer_file<R: std::rt::Files<File = File>, W: Write>(
    rt: &R,
    alloc: Global,
    words: &mut Words<'_>,
    out: &mut W,
) -> io::Result<()> {
    match FileDisk::open(rt, words.next()?) {
        Ok(disk) => answer_all(alloc, &mut Session::new(disk), words, out),
        Err(_) => out.write_all(b"; none"),
    }
}

// Calls on a disk in memory, by the first word of the line.
fn answer_in_memory<W: Write>(
    alloc: Global,
    kind: &str,
    words: &mut Words<'_>,
    out: &mut W,
) -> io::Result<()> {
    let mut session = Session::new(memory_disk(alloc, words)?);
    answer_all(alloc, &mut session, words, out)?;
    match kind {
        "memory" => Ok(()),
        "images" => answer_images(session.disk(), out),
        "stops" => answer_stops(alloc, session.disk(), out),
        _ => Err(unknown_line()),
    }
}

// Answers a line.
fn answer<R: std::rt::Files<File = File>, W: Write>(
    rt: &R,
    alloc: Global,
    line: &[u8],
    out: &mut W,
) -> io::Result<()> {
    let mut words = Words::new(line)?;
    let kind = words.next()?;
    out.write_all(kind.as_bytes())?;
    match kind {
        "file" => answer_file(rt, alloc, &mut words, out),
        "seeded" => answer_seeded(alloc, &mut words, out),
        _ => answer_in_memory(alloc, kind, &mut words, out),
    }?;
    out.write_all(b"\n")
}

fn main(rt: HostRuntime) -> io::Result<()> {
    let alloc = rt.alloc();
    let mut lines = BufReader::new(alloc, rt.reader())?;
    let mut out = BufWriter::new(alloc, io::writer(&rt))?;
    for _ in 0..u64::MAX {
        let Some(line) = next_case(alloc, &mut lines, &mut out)? else {
            break;
        };
        answer(&rt, alloc, line.as_slice(), &mut out)?;
    }
    out.flush()
}
