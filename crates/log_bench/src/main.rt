//! What `bench/log.sh` times and `bench/log_kills.sh` kills: a log on a file of the system, and the same bytes hashed and written plainly.
//!
//! - `append PATH COUNT SIZE` opens the log, or makes it where the file has no bytes, and adds entries until it has COUNT, each of SIZE
//!   bytes and eight before them, which are its number. It tells the number of each on standard output once it is acknowledged.
//! - `open PATH` tells how many entries the log has, and that each has its number.
//! - `plain PATH COUNT SIZE` hashes as many bodies (SHA-256), writes them one behind the other, and syncs behind each.
//!
//! It is no part of the product.
#![tactic(auto)]

use disk_image::{Disk, DiskFault};
use entry_log::{Log, LogFault};
use os_objects::FileDisk;
use sha2::{Digest, Sha256};
use std::alloc::Global;
use std::io::ErrorKind;
use std::{env, io};

// A call of a disk that gave no answer.
fn disk_error(fault: DiskFault) -> io::Error {
    match fault {
        DiskFault::Memory => io::Error::from(ErrorKind::OutOfMemory),
        DiskFault::Failed => io::Error::from(ErrorKind::Other),
    }
}

// A call of a log that gave no answer.
fn log_error(fault: LogFault) -> io::Error {
    match fault {
        LogFault::Memory => io::Error::from(ErrorKind::OutOfMemory),
        LogFault::Disk => io::Error::from(ErrorKind::Other),
        LogFault::NotLog => io::Error::from(ErrorKind::InvalidData),
    }
}

// The body of the entry of this number.
fn body_of(alloc: Global, number: u64, size: u32) -> io::Result<Vec<u8>> {
    let mut body = Vec::from_slice(alloc, &number.to_be_bytes())?;
    body.resize((size as usize).saturating_add(8), 7)?;
    Ok(body)
}

// Whether it is the body of the entry of this number.
fn has_number(body: &[u8], number: u64) -> bool {
    body.starts_with(&number.to_be_bytes())
}

// How many of the bodies, from the first on, have their numbers.
fn numbered(bodies: &[Vec<u8>]) -> u64 {
    let mut count = 0u64;
    for body in bodies {
        if !has_number(body.as_slice(), count) {
            break;
        }
        count = count.saturating_add(1);
    }
    count
}

// The log on the disk, made where the disk has no bytes, and how many entries it has.
fn opened(alloc: Global, disk: &mut FileDisk) -> io::Result<(Log, u64)> {
    if disk.len().map_err(disk_error)? == 0 {
        return Ok((Log::create(disk).map_err(log_error)?, 0));
    }
    let (entries, bodies) = Log::open(alloc, disk).map_err(log_error)?;
    Ok((entries, bodies.len() as u64))
}

// Adds entries until there are so many, and tells of each.
fn append_all(
    rt: &HostRuntime,
    alloc: Global,
    disk: &mut FileDisk,
    count: u64,
    size: u32,
) -> io::Result<()> {
    let (mut entries, had) = opened(alloc, disk)?;
    for number in had..count {
        let body = body_of(alloc, number, size)?;
        entries
            .append(alloc, disk, body.as_slice())
            .map_err(log_error)?;
        println!(rt; "{number}")?;
    }
    Ok(())
}

// Tells how many entries the log has.
fn tell(rt: &HostRuntime, alloc: Global, disk: &mut FileDisk) -> io::Result<()> {
    let (_entries, bodies) = Log::open(alloc, disk).map_err(log_error)?;
    println!(rt;
        "{} entries, {} numbered",
        bodies.len(),
        numbered(bodies.as_slice())
    )
}

// Hashes and writes as many bytes.
fn write_plainly(alloc: Global, disk: &mut FileDisk, count: u64, size: u32) -> io::Result<u8> {
    let mut place = 0u64;
    let mut seen = 0u8;
    for number in 0..count {
        let body = body_of(alloc, number, size)?;
        let mut hasher = Sha256::new();
        hasher.update(body.as_slice());
        let digest: [u8; 32] = hasher.finalize().into();
        seen ^= digest[0];
        disk.write_at(place, body.as_slice()).map_err(disk_error)?;
        disk.sync().map_err(disk_error)?;
        place = place.saturating_add(body.len() as u64);
    }
    Ok(seen)
}

fn main(rt: HostRuntime) -> io::Result<()> {
    let alloc = rt.alloc();
    let mut words = env::args(&rt)?.skip(1);
    let (Some(call), Some(path)) = (words.next(), words.next()) else {
        return println!(rt; "usage: log_bench append|open|plain PATH [COUNT SIZE]");
    };
    let count = words
        .next()
        .map_or(0, |word| word.parse::<u64>().unwrap_or(0));
    let size = words
        .next()
        .map_or(0, |word| word.parse::<u32>().unwrap_or(0));
    let mut disk = FileDisk::open(&rt, path.as_str())?;
    match call.as_str() {
        "append" => append_all(&rt, alloc, &mut disk, count, size),
        "plain" => {
            let seen = write_plainly(alloc, &mut disk, count, size)?;
            println!(rt; "{seen}")
        }
        _ => tell(&rt, alloc, &mut disk),
    }
}
