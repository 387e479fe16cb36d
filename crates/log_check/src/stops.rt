// What a stop leaves of a disk in memory.

use crate::calls::{put_bodies, put_bytes};
use disk_image::{Fill, MemoryDisk};
use entry_log::{Log, LogFault, read_log};
use std::alloc::Global;
use std::io;
use std::io::Write;

/// How what wasn't kept may be filled.
pub(crate) const FILLS: [Fill; 3] = [Fill::Old, Fill::New, Fill::Ones];

/// How many calls that is, as a disk takes it.
pub(crate) fn number_of(calls: usize) -> u32 {
    u32::try_from(calls).unwrap_or(u32::MAX)
}

// Writes what a stop behind these calls leaves.
fn put_images<W: Write>(disk: &MemoryDisk, calls: u32, out: &mut W) -> io::Result<()> {
    write!(out, "; {calls}")?;
    for fill in FILLS {
        out.write_all(b" ")?;
        put_bytes(out, disk.after_stop(calls, fill)?.as_slice())?;
    }
    Ok(())
}

/// Writes what a stop behind each call leaves.
pub(crate) fn answer_images<W: Write>(disk: &MemoryDisk, out: &mut W) -> io::Result<()> {
    for calls in 0..=disk.call_count() {
        put_images(disk, number_of(calls), out)?;
    }
    Ok(())
}

// Whether the bytes are a log of these entries.
fn has_bodies(alloc: Global, bytes: &[u8], bodies: &[Vec<u8>]) -> io::Result<bool> {
    match read_log(alloc, bytes) {
        Ok((_log, found)) => Ok(found.as_slice() == bodies),
        Err(LogFault::Memory) => Err(io::Error::from(io::ErrorKind::OutOfMemory)),
        Err(_) => Ok(false),
    }
}

// Whether what a stop behind these calls leaves has these entries, however it is filled.
fn keeps_bodies(
    alloc: Global,
    disk: &MemoryDisk,
    calls: u32,
    bodies: &[Vec<u8>],
) -> io::Result<bool> {
    let mut keeps = true;
    for fill in FILLS {
        let image = disk.after_stop(calls, fill)?;
        keeps = keeps && has_bodies(alloc, image.as_slice(), bodies)?;
    }
    Ok(keeps)
}

// Whether what a stop behind any call leaves has these entries.
fn always_keeps(alloc: Global, disk: &MemoryDisk, bodies: &[Vec<u8>]) -> io::Result<bool> {
    let mut keeps = true;
    for calls in 0..=disk.call_count() {
        keeps = keeps && keeps_bodies(alloc, disk, number_of(calls), bodies)?;
    }
    Ok(keeps)
}

// Opens what a stop left, and writes its entries.
fn put_entries<W: Write>(alloc: Global, image: Vec<u8>, out: &mut W) -> io::Result<()> {
    let mut again = MemoryDisk::new(alloc, image, Vec::new(alloc));
    match Log::open(alloc, &mut again) {
        Ok((_log, bodies)) => {
            put_bodies(out, bodies.as_slice())?;
            if always_keeps(alloc, &again, bodies.as_slice())? {
                Ok(())
            } else {
                out.write_all(b" differs")
            }
        }
        Err(fault) => write!(out, "{fault:?}"),
    }
}

// Writes the entries of what a stop behind these calls leaves.
fn put_stop<W: Write>(alloc: Global, disk: &MemoryDisk, calls: u32, out: &mut W) -> io::Result<()> {
    write!(out, "; {calls}")?;
    for fill in FILLS {
        out.write_all(b" ")?;
        put_entries(alloc, disk.after_stop(calls, fill)?, out)?;
    }
    Ok(())
}

/// Writes the entries of what a stop behind each call leaves.
pub(crate) fn answer_stops<W: Write>(
    alloc: Global,
    disk: &MemoryDisk,
    out: &mut W,
) -> io::Result<()> {
    for calls in 0..=disk.call_count() {
        put_stop(alloc, disk, number_of(calls), out)?;
    }
    Ok(())
}
