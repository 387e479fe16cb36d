// Files and a sink in memory, and a command over them.

use crate::unwrapping::Unwrapping;
use check_lines::{Words, put_escaped, unescaped, unknown_line};
use cubes_plain::run_plain;
use outside::{Entry, MemoryFiles, MemorySink};
use std::alloc::Global;
use std::io;
use std::io::Write;
use std::thread::Threads;

/// The files of a case, and the numbers of the calls that fail.
#[derive(Drop)]
pub(crate) struct Case {
    files: Vec<Entry>,
    failing_files: Vec<u32>,
    failing_sink: Vec<u32>,
}

// The text so many times.
fn repeated(alloc: Global, text: &[u8], count: u32) -> io::Result<Vec<u8>> {
    if let [byte] = text {
        return Ok(Vec::from_elem(alloc, *byte, count as usize)?);
    }
    let mut bytes = Vec::new(alloc);
    for _ in 0..count {
        bytes.extend_from_slice(text)?;
    }
    Ok(bytes)
}

// Copies of files.
fn copies_of(alloc: Global, files: &[Entry]) -> io::Result<Vec<Entry>> {
    let mut copies = Vec::new(alloc);
    for file in files {
        let path = file.path.clone()?;
        let bytes = file.bytes.clone()?;
        copies.push(Entry { path, bytes })?;
    }
    Ok(copies)
}

// The words that are left.
fn words_of(alloc: Global, words: Words<'_>) -> io::Result<Vec<String>> {
    let mut words = words;
    let mut list = Vec::new(alloc);
    for _ in 0..100 {
        if words.is_empty() {
            break;
        }
        list.push(String::from_str(alloc, words.next()?)?)?;
    }
    Ok(list)
}

// Adds the numbers that are left.
fn put_numbers(numbers: &mut Vec<u32>, words: Words<'_>) -> io::Result<()> {
    let mut words = words;
    for _ in 0..100 {
        if words.is_empty() {
            break;
        }
        numbers.push(words.number()?)?;
    }
    Ok(())
}

// Writes the status, and what the sink holds.
fn put_outcome<W: Write>(out: &mut W, status: u8, written: &[u8]) -> io::Result<()> {
    write!(out, "{status}")?;
    if !written.is_empty() {
        out.write_all(b" ")?;
        put_escaped(out, written)?;
    }
    out.write_all(b"\n")
}

// Writes what stands at a path, where that is another file than before.
fn put_change<W: Write>(
    out: &mut W,
    path: &str,
    before: Option<&[u8]>,
    after: Option<&[u8]>,
) -> io::Result<()> {
    if before == after {
        return Ok(());
    }
    write!(out, "at {path} ")?;
    put_escaped(out, after.unwrap_or(b"-"))?;
    out.write_all(b"\n")
}

impl Case {
    /// No file, and no call that fails.
    pub(crate) fn new(alloc: Global) -> Case {
        Case {
            files: Vec::new(alloc),
            failing_files: Vec::new(alloc),
            failing_sink: Vec::new(alloc),
        }
    }

    /// Adds a file: its path, and its bytes with escapes.
    pub(crate) fn add_file(&mut self, alloc: Global, words: Words<'_>) -> io::Result<()> {
        let mut words = words;
        let path = String::from_str(alloc, words.next()?)?;
        let bytes = unescaped(alloc, words.rest())?;
        self.files.push(Entry { path, bytes })?;
        Ok(())
    }

    /// Adds a text so many times to the last file.
    pub(crate) fn lengthen(&mut self, alloc: Global, words: Words<'_>) -> io::Result<()> {
        let mut words = words;
        let count = words.number()?;
        let text = unescaped(alloc, words.rest())?;
        let more = repeated(alloc, text.as_slice(), count)?;
        match self.files.last_mut() {
            Some(file) => Ok(file.bytes.extend_from_slice(more.as_slice())?),
            None => Err(unknown_line()),
        }
    }

    /// Says which calls of the files or of the sink fail.
    pub(crate) fn fail(&mut self, words: Words<'_>) -> io::Result<()> {
        let mut words = words;
        match words.next()? {
            "files" => put_numbers(&mut self.failing_files, words),
            "sink" => put_numbers(&mut self.failing_sink, words),
            _ => Err(unknown_line()),
        }
    }

    // The bytes of the file at a path, where it has one.
    fn bytes_at(&self, path: &str) -> Option<&[u8]> {
        for file in &self.files {
            if file.path.as_str() == path {
                return Some(file.bytes.as_slice());
            }
        }
        None
    }

    // Writes which files are others now.
    fn put_changes<W: Write>(
        &self,
        words: &[String],
        files: &MemoryFiles,
        out: &mut W,
    ) -> io::Result<()> {
        for file in &self.files {
            let path = file.path.as_str();
            put_change(out, path, Some(file.bytes.as_slice()), files.bytes_at(path))?;
        }
        for word in words {
            let path = word.as_str();
            if self.bytes_at(path).is_none() {
                put_change(out, path, None, files.bytes_at(path))?;
            }
        }
        Ok(())
    }

    /// Runs the command of the words, and writes how it ended.
    pub(crate) fn run<R: Threads + Sync, W: Write>(
        &self,
        rt: &R,
        alloc: Global,
        words: Words<'_>,
        out: &mut W,
    ) -> io::Result<()> {
        let words = words_of(alloc, words)?;
        let failing = self.failing_files.clone()?;
        let mut files = MemoryFiles::new(copies_of(alloc, &self.files)?, failing);
        let mut sink = MemorySink::new(alloc, self.failing_sink.clone()?);
        let status = run_plain::<Unwrapping, R, MemoryFiles, MemorySink>(
            rt, alloc, &words, &mut files, &mut sink,
        );
        put_outcome(out, status, sink.bytes())?;
        self.put_changes(&words, &files, out)
    }
}
