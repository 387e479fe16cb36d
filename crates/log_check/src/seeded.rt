// Runs of seeded appends, stopped behind each call.

ghost use Rattle.std.specs.Prelude.{◌<◌};

use crate::stops::{FILLS, number_of};
use check_lines::Words;
use disk_image::{Fill, MemoryDisk};
use entry_log::{Log, LogFault, read_log};
use std::alloc::Global;
use std::io;
use std::io::{ErrorKind, Write};

// A generator of numbers that look random.
#[derive(Drop)]
struct Seeds {
    state: u64,
}

impl Seeds {
    // The next number below a bound.
    fn below(&mut self, bound: u32) -> u32
        requires { 0 < bound }
        ensures { result < bound }
    {
        self.state = self
            .state
            .wrapping_mul(6_364_136_223_846_793_005)
            .wrapping_add(1_442_695_040_888_963_407);
        ((self.state >> 33) % u64::from(bound)) as u32
    }
}

// An append: how many calls the disk had had before it, and since how many its entry is there for sure.
#[derive(Drop)]
struct Append {
    body: Vec<u8>,
    begun: usize,
    kept: Option<usize>,
}

impl Append {
    // Whether its entry is there for sure behind these calls.
    fn is_kept(&self, calls: usize) -> bool {
        self.kept.is_some_and(|kept| kept <= calls)
    }
}

// The body of the append of this number: that byte, and up to four more, mostly ones.
fn seeded_body(alloc: Global, seeds: &mut Seeds, number: u8) -> io::Result<Vec<u8>> {
    let mut body = Vec::new(alloc);
    body.push(number)?;
    for _ in 0..seeds.below(5) {
        body.push(if seeds.below(4) == 0 { 0 } else { 1 })?;
    }
    Ok(body)
}

// The numbers of the calls that fail: one, in a third of the runs.
fn seeded_failing(alloc: Global, seeds: &mut Seeds) -> io::Result<Vec<u32>> {
    let mut failing = Vec::new(alloc);
    if seeds.below(3) == 0 {
        failing.push(seeds.below(20))?;
    }
    Ok(failing)
}

// What a fault of a log is where no call was to fail.
fn unexpected(fault: LogFault) -> io::Error {
    match fault {
        LogFault::Memory => io::Error::from(ErrorKind::OutOfMemory),
        LogFault::Disk | LogFault::NotLog => io::Error::from(ErrorKind::InvalidData),
    }
}

// Opens the log; once more where a call of this opening was the one that fails.
fn reopened(alloc: Global, disk: &mut MemoryDisk) -> io::Result<(Log, Vec<Vec<u8>>)> {
    let again = match Log::open(alloc, disk) {
        Ok(opened) => return Ok(opened),
        Err(LogFault::Disk) => Log::open(alloc, disk),
        Err(fault) => Err(fault),
    };
    match again {
        Ok(opened) => Ok(opened),
        Err(fault) => Err(unexpected(fault)),
    }
}

// Whether the last body is this one.
fn ends_with(bodies: &[Vec<u8>], body: &[u8]) -> bool {
    bodies.last().is_some_and(|last| last.as_slice() == body)
}

// Opens the log again behind a failed append, and says since when its entry is there, if it is.
fn mended(
    alloc: Global,
    disk: &mut MemoryDisk,
    open_log: &mut Log,
    body: &[u8],
) -> io::Result<Option<usize>> {
    let (mended, bodies) = reopened(alloc, disk)?;
    *open_log = mended;
    Ok(ends_with(bodies.as_slice(), body).then_some(disk.call_count()))
}

// Adds a seeded entry. Where the disk fails, the log is opened again.
fn append_one(
    alloc: Global,
    seeds: &mut Seeds,
    number: u8,
    disk: &mut MemoryDisk,
    open_log: &mut Log,
) -> io::Result<Append> {
    let body = seeded_body(alloc, seeds, number)?;
    let begun = disk.call_count();
    let kept = match open_log.append(alloc, disk, body.as_slice()) {
        Ok(()) => Some(disk.call_count()),
        Err(LogFault::Disk) => mended(alloc, disk, open_log, body.as_slice())?,
        Err(fault) => return Err(unexpected(fault)),
    };
    Ok(Append { body, begun, kept })
}

// Adds up to four seeded entries.
fn append_all(alloc: Global, seeds: &mut Seeds, disk: &mut MemoryDisk) -> io::Result<Vec<Append>> {
    let mut appends = Vec::new(alloc);
    let (mut open_log, _) = reopened(alloc, disk)?;
    for number in 0..seeds.below(5) as u8 {
        appends.push(append_one(alloc, seeds, number, disk, &mut open_log)?)?;
    }
    Ok(appends)
}

// Whether the bodies are, in order, those of all appends that were kept by then, and of others only of such as were begun.
fn are_of(appends: &[Append], calls: usize, bodies: &[Vec<u8>]) -> bool {
    let mut rest = bodies;
    for append in appends {
        match rest {
            [body, behind @ ..]
                if append.begun < calls && body.as_slice() == append.body.as_slice() => {
                rest = behind;
            }
            _ if append.is_kept(calls) => return false,
            _ => {}
        }
    }
    rest.is_empty()
}

// Whether what a stop behind these calls leaves has the entries that it may have.
fn is_lawful(
    alloc: Global,
    disk: &MemoryDisk,
    appends: &[Append],
    calls: usize,
    fill: Fill,
) -> io::Result<bool> {
    let image = disk.after_stop(number_of(calls), fill)?;
    match read_log(alloc, image.as_slice()) {
        Ok((_log, bodies)) => Ok(are_of(appends, calls, bodies.as_slice())),
        Err(LogFault::Memory) => Err(unexpected(LogFault::Memory)),
        Err(_) => Ok(false),
    }
}

// Whether it has them however it is filled.
fn is_lawful_filled(
    alloc: Global,
    disk: &MemoryDisk,
    appends: &[Append],
    calls: usize,
) -> io::Result<bool> {
    let mut lawful = true;
    for fill in FILLS {
        lawful = lawful && is_lawful(alloc, disk, appends, calls, fill)?;
    }
    Ok(lawful)
}

// Makes a seeded run on a log without entries, and says whether each stop in it leaves entries that it may leave.
fn is_lawful_run(alloc: Global, seeds: &mut Seeds) -> io::Result<bool> {
    let failing = seeded_failing(alloc, seeds)?;
    let mut disk = MemoryDisk::new(alloc, Vec::from_slice(alloc, &[0])?, failing);
    let appends = append_all(alloc, seeds, &mut disk)?;
    let mut lawful = true;
    for calls in 0..=disk.call_count() {
        lawful = lawful && is_lawful_filled(alloc, &disk, appends.as_slice(), calls)?;
    }
    Ok(lawful)
}

/// Makes so many seeded runs, and says which is the first that isn't lawful, if one is.
pub(crate) fn answer_seeded<W: Write>(
    alloc: Global,
    words: &mut Words<'_>,
    out: &mut W,
) -> io::Result<()> {
    let runs = words.number()?;
    let mut seeds = Seeds {
        state: u64::from(words.number()?),
    };
    for run in 0..runs {
        if !is_lawful_run(alloc, &mut seeds)? {
            return write!(out, "; run {run} differs");
        }
    }
    write!(out, "; {runs} runs")
}
