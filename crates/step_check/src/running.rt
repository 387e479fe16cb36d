// The step of a task, by the command `step` over files in memory.

use cubes_plain::run_plain;
use fault_lines::status::{DONE, MEMORY};
use outside::{Entry, MemoryFiles, MemorySink};
use std::alloc::{AllocError, Global};
use std::io;
use std::io::Write;
use std::thread::Threads;
use step_task::CubeWork;

// A file.
fn entry(alloc: Global, path: &str, bytes: Vec<u8>) -> Result<Entry, AllocError> {
    let path = String::from_str(alloc, path)?;
    Ok(Entry { path, bytes })
}

// The file of the task, and that of a stop where one is asked for.
fn files_of(alloc: Global, task: Vec<u8>, is_stopped: bool) -> Result<MemoryFiles, AllocError> {
    let mut entries = Vec::new(alloc);
    entries.push(entry(alloc, "task", task)?)?;
    if is_stopped {
        entries.push(entry(alloc, "stop", Vec::new(alloc))?)?;
    }
    Ok(MemoryFiles::new(entries, Vec::new(alloc)))
}

// The words of the command.
fn words_of(alloc: Global) -> Result<Vec<String>, AllocError> {
    let mut words = Vec::new(alloc);
    for word in ["step", "task", "product", "stop"] {
        words.push(String::from_str(alloc, word)?)?;
    }
    Ok(words)
}

/// Writes the product file that `cubes step` leaves for a task, or its fault line.
pub(crate) fn answer_run<R: Threads + Sync, W: Write>(
    rt: &R,
    alloc: Global,
    task: Vec<u8>,
    is_stopped: bool,
    out: &mut W,
) -> io::Result<()> {
    let mut files = files_of(alloc, task, is_stopped)?;
    let mut sink = MemorySink::new(alloc, Vec::new(alloc));
    let words = words_of(alloc)?;
    let status = run_plain::<CubeWork, R, MemoryFiles, MemorySink>(
        rt,
        alloc,
        words.as_slice(),
        &mut files,
        &mut sink,
    );
    match status {
        DONE => put_digits(files.bytes_at("product").unwrap_or(&[]), out),
        MEMORY => Err(io::Error::from(io::ErrorKind::OutOfMemory)),
        _ => out.write_all(sink.bytes()),
    }
}

// Writes bytes as hexadecimal digits.
fn put_digits<W: Write>(bytes: &[u8], out: &mut W) -> io::Result<()> {
    for byte in bytes {
        write!(out, "{byte:02x}")?;
    }
    writeln!(out)
}
