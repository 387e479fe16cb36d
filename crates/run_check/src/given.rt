// What a run meets outside.

use check_lines::{Words, unescaped, unknown_line};
use fixed_cube::SmallWork;
use outside::{Entry, Fate, Fated, MemoryFiles, MemoryHand, MemorySink};
use std::alloc::{AllocError, Global};
use std::io;

/// The files of runs, and what fails in the next one.
#[derive(Drop)]
pub(crate) struct Given {
    files: Vec<Entry>,
    reads: Vec<u32>,
    writes: Vec<u32>,
    fates: Vec<Fated>,
}

impl Given {
    /// No file, and nothing fails.
    pub(crate) fn new(alloc: Global) -> Given {
        Given {
            files: Vec::new(alloc),
            reads: Vec::new(alloc),
            writes: Vec::new(alloc),
            fates: Vec::new(alloc),
        }
    }

    /// Takes a line that says what is given, by its first word and the others.
    pub(crate) fn take(
        &mut self,
        alloc: Global,
        word: &str,
        mut words: Words<'_>,
    ) -> io::Result<()> {
        match word {
            "new" => self.files = Vec::new(alloc),
            "file" => self.files.push(file(alloc, &mut words)?)?,
            "repeat" => self.files.push(repeated(alloc, &mut words)?)?,
            "reads" => self.reads = numbers(alloc, &mut words)?,
            "writes" => self.writes = numbers(alloc, &mut words)?,
            "fate" => self.fates.push(fated(&mut words)?)?,
            _ => return Err(unknown_line()),
        }
        Ok(())
    }

    /// The files, whose next reads fail as was said.
    pub(crate) fn files(&mut self, alloc: Global) -> Result<MemoryFiles, AllocError> {
        let entries = copied(alloc, self.files.as_slice())?;
        let reads = std::mem::replace(&mut self.reads, Vec::new(alloc));
        Ok(MemoryFiles::new(entries, reads))
    }

    /// An empty output, whose next writes fail as was said.
    pub(crate) fn sink(&mut self, alloc: Global) -> MemorySink {
        let writes = std::mem::replace(&mut self.writes, Vec::new(alloc));
        MemorySink::new(alloc, writes)
    }

    /// A hand whose attempts meet what was said.
    pub(crate) fn hand(&mut self, alloc: Global) -> MemoryHand<SmallWork> {
        let fates = std::mem::replace(&mut self.fates, Vec::new(alloc));
        MemoryHand::new(alloc, fates)
    }
}

// A file at a path.
fn entry(alloc: Global, path: &str, bytes: Vec<u8>) -> Result<Entry, AllocError> {
    let path = String::from_str(alloc, path)?;
    Ok(Entry { path, bytes })
}

// The same files again.
fn copied(alloc: Global, files: &[Entry]) -> Result<Vec<Entry>, AllocError> {
    let mut copies = Vec::new(alloc);
    for file in files {
        let bytes = Vec::from_slice(alloc, file.bytes.as_slice())?;
        copies.push(entry(alloc, file.path.as_str(), bytes)?)?;
    }
    Ok(copies)
}

// A file of a path and a text.
fn file(alloc: Global, words: &mut Words<'_>) -> io::Result<Entry> {
    let path = words.next()?;
    let bytes = unescaped(alloc, words.rest())?;
    Ok(entry(alloc, path, bytes)?)
}

// A file of a path and a text that stands there so often.
fn repeated(alloc: Global, words: &mut Words<'_>) -> io::Result<Entry> {
    let path = words.next()?;
    let times = words.number()?;
    let text = unescaped(alloc, words.rest())?;
    let mut bytes = Vec::new(alloc);
    for _ in 0..times {
        bytes.extend_from_slice(text.as_slice())?;
    }
    Ok(entry(alloc, path, bytes)?)
}

// Numbers.
fn numbers(alloc: Global, words: &mut Words<'_>) -> io::Result<Vec<u32>> {
    let mut numbers = Vec::new(alloc);
    for _ in 0..u64::MAX {
        if words.is_empty() {
            break;
        }
        numbers.push(words.number()?)?;
    }
    Ok(numbers)
}

// What an attempt meets.
fn fate(words: &mut Words<'_>) -> io::Result<Fate> {
    match words.next()? {
        "killed" => Ok(Fate::Killed(u64::from(words.number()?))),
        "not-started" => Ok(Fate::NotStarted),
        "status" => match u8::try_from(words.number()?) {
            Ok(status) => Ok(Fate::Status(status)),
            Err(_) => Err(unknown_line()),
        },
        "no-file" => Ok(Fate::NoFile),
        _ => Err(unknown_line()),
    }
}

// An attempt, and what it meets.
fn fated(words: &mut Words<'_>) -> io::Result<Fated> {
    let job = words.number()?;
    let attempt = words.number()?;
    let fate = fate(words)?;
    Ok(Fated { job, attempt, fate })
}
