// Calls on a disk, and on the log that it keeps.

use check_lines::{Words, bytes_of, known, parsed, put_digits, unknown_line};
use disk_image::Disk;
use entry_log::{Log, LogFault};
use std::alloc::Global;
use std::fmt::Debug;
use std::io;
use std::io::Write;

/// A disk, and the log on it where one was created or opened.
#[derive(Drop)]
pub(crate) struct Session<D> {
    disk: D,
    open_log: Option<Log>,
}

impl<D: Disk + Drop> Session<D> {
    /// A disk of which no log was opened.
    pub(crate) fn new(disk: D) -> Session<D> {
        Session {
            disk,
            open_log: None,
        }
    }

    pub(crate) fn disk(&self) -> &D {
        &self.disk
    }

    // Makes the log, and answers nothing else.
    fn create(&mut self) -> Result<(), LogFault> {
        self.open_log = Some(Log::create(&mut self.disk)?);
        Ok(())
    }

    // Opens the log, and answers the bodies of its entries.
    fn reopen(&mut self, alloc: Global) -> Result<Vec<Vec<u8>>, LogFault> {
        let (open_log, bodies) = Log::open(alloc, &mut self.disk)?;
        self.open_log = Some(open_log);
        Ok(bodies)
    }
}

/// The bytes that a word lists.
pub(crate) fn bytes(alloc: Global, word: &str) -> io::Result<Vec<u8>> {
    if word == "-" {
        return Ok(Vec::new(alloc));
    }
    bytes_of(alloc, word.as_bytes())
}

/// The numbers that a word lists.
pub(crate) fn numbers(alloc: Global, word: &str) -> io::Result<Vec<u32>> {
    let mut numbers = Vec::new(alloc);
    if word == "-" {
        return Ok(numbers);
    }
    for number in word.split(',') {
        numbers.push(parsed::<u32>(number)?)?;
    }
    Ok(numbers)
}

/// Writes bytes.
pub(crate) fn put_bytes<W: Write>(out: &mut W, bytes: &[u8]) -> io::Result<()> {
    if bytes.is_empty() {
        return out.write_all(b"-");
    }
    put_digits(out, bytes)
}

/// Writes the bodies of entries.
pub(crate) fn put_bodies<W: Write>(out: &mut W, bodies: &[Vec<u8>]) -> io::Result<()> {
    out.write_all(b"[")?;
    for (place, body) in bodies.iter().enumerate() {
        if place > 0 {
            out.write_all(b",")?;
        }
        put_bytes(out, body.as_slice())?;
    }
    out.write_all(b"]")
}

// Writes `ok`, or the name of a fault.
fn put_done<F: Debug, W: Write>(out: &mut W, answer: &Result<(), F>) -> io::Result<()> {
    match answer {
        Ok(()) => out.write_all(b"; ok"),
        Err(fault) => write!(out, "; {fault:?}"),
    }
}

// Writes the length of a disk.
fn put_length<F: Debug, W: Write>(out: &mut W, answer: &Result<u64, F>) -> io::Result<()> {
    match answer {
        Ok(length) => write!(out, "; {length}"),
        Err(fault) => write!(out, "; {fault:?}"),
    }
}

// Writes the bytes that were read.
fn put_read<F: Debug, W: Write>(out: &mut W, answer: &Result<Vec<u8>, F>) -> io::Result<()> {
    match answer {
        Ok(bytes) => {
            out.write_all(b"; ")?;
            put_bytes(out, bytes.as_slice())
        }
        Err(fault) => write!(out, "; {fault:?}"),
    }
}

// Writes the entries that were found.
fn put_opened<F: Debug, W: Write>(out: &mut W, answer: &Result<Vec<Vec<u8>>, F>) -> io::Result<()> {
    match answer {
        Ok(bodies) => {
            out.write_all(b"; ")?;
            put_bodies(out, bodies.as_slice())
        }
        Err(fault) => write!(out, "; {fault:?}"),
    }
}

// Reads a part of a disk.
fn answer_read<D: Disk, W: Write>(
    alloc: Global,
    disk: &mut D,
    words: &mut Words<'_>,
    out: &mut W,
) -> io::Result<()> {
    let at = words.number()?;
    let count = words.number()?;
    put_read(out, &disk.read(alloc, u64::from(at), count))
}

// Writes to a disk.
fn answer_write<D: Disk, W: Write>(
    alloc: Global,
    disk: &mut D,
    words: &mut Words<'_>,
    out: &mut W,
) -> io::Result<()> {
    let at = words.number()?;
    let bytes = bytes(alloc, words.next()?)?;
    put_done(out, &disk.write_at(u64::from(at), bytes.as_slice()))
}

// Makes one call on a disk.
fn answer_disk<D: Disk, W: Write>(
    alloc: Global,
    disk: &mut D,
    call: &str,
    words: &mut Words<'_>,
    out: &mut W,
) -> io::Result<()> {
    match call {
        "len" => put_length(out, &disk.len()),
        "read" => answer_read(alloc, disk, words, out),
        "write" => answer_write(alloc, disk, words, out),
        "cut" => put_done(out, &disk.cut(u64::from(words.number()?))),
        "sync" => put_done(out, &disk.sync()),
        _ => Err(unknown_line()),
    }
}

// Adds an entry to the log that is open.
fn answer_append<D: Disk + Drop, W: Write>(
    alloc: Global,
    session: &mut Session<D>,
    words: &mut Words<'_>,
    out: &mut W,
) -> io::Result<()> {
    let body = bytes(alloc, words.next()?)?;
    let open_log = known(session.open_log.as_mut())?;
    let answer = open_log.append(alloc, &mut session.disk, body.as_slice());
    put_done(out, &answer)
}

// Makes one call on a disk or on its log.
fn answer_call<D: Disk + Drop, W: Write>(
    alloc: Global,
    session: &mut Session<D>,
    words: &mut Words<'_>,
    out: &mut W,
) -> io::Result<()> {
    match words.next()? {
        "create" => put_done(out, &session.create()),
        "open" => put_opened(out, &session.reopen(alloc)),
        "append" => answer_append(alloc, session, words, out),
        call => answer_disk(alloc, &mut session.disk, call, words, out),
    }
}

/// Makes the calls of a line.
pub(crate) fn answer_all<D: Disk + Drop, W: Write>(
    alloc: Global,
    session: &mut Session<D>,
    words: &mut Words<'_>,
    out: &mut W,
) -> io::Result<()> {
    for _ in 0..u64::MAX {
        if words.is_empty() {
            break;
        }
        answer_call(alloc, session, words, out)?;
    }
    Ok(())
}
