//! The file that a record of calls gives, and what a stop leaves of it.

ghost use Rattle.std.specs.Prelude.{◌≡◌, ◌+◌, ◌<◌, ◌^◌, take, drop, length, replicate, IfOk};
ghost use Rattle.disk_image.specs.Changes.{written_over};
ghost use Rattle.disk_image.specs.MemoryDisk.{call_of, change_of, filled_by, latest_first, read_after, reads_as, stopped, stopped_after};

use crate::record::{Call, Change, Fill};
use std::alloc::{AllocError, Global};

// The bytes from this place on.
fn behind<'a>(bytes: &'a [u8], place: usize) -> &'a [u8]
    ensures { result.now ≡ drop place bytes.now }
{
    let (_front, rest) = bytes.split_at(place.min(bytes.len()));
    rest
}

/// `n` bytes from this place on, or fewer where they end.
pub fn part_of(alloc: Global, bytes: &[u8], at: usize, n: usize) -> Result<Vec<u8>, AllocError>
    ensures { IfOk result (λ part. part.items ≡ take n (drop at bytes.now)) }
{
    let rest = behind(bytes, at);
    let (part, _later) = rest.split_at(n.min(rest.len()));
    Vec::from_slice(alloc, part)
}

// The file with the bytes at this place; where they stand behind its end, `gap` stands between.
fn write_over(
    alloc: Global,
    mut file: Vec<u8>,
    at: u64,
    bytes: &[u8],
    gap: u8,
) -> Result<Vec<u8>, AllocError>
    ensures { IfOk result (λ new. new.items ≡ written_over gap at bytes.now file.items) }
{
    let at = at as usize;
    let Some(end) = at.checked_add(bytes.len()) else {
        return Err(AllocError);
    };
    let rest = Vec::from_slice(alloc, behind(file.as_slice(), end))?;
    file.resize(at, gap)?;
    file.extend_from_slice(bytes)?;
    file.extend_from_slice(rest.as_slice())?;
    Ok(file)
}

// So many bytes 1.
fn ones(alloc: Global, n: usize) -> Result<Vec<u8>, AllocError>
    ensures { IfOk result (λ v. v.items ≡ replicate n 1) }
{
    let mut ones = Vec::new(alloc);
    ones.resize(n, 1)?;
    Ok(ones)
}

// The file cut to a length.
fn cut_to(mut file: Vec<u8>, len: u64) -> Vec<u8>
    ensures { result.items ≡ take len file.items }
{
    file.truncate(len as usize);
    file
}

// What a stop leaves of a change that isn't kept yet.
fn fill_change(
    alloc: Global,
    fill: Fill,
    change: &Change,
    image: Vec<u8>,
) -> Result<Vec<u8>, AllocError>
    ensures { IfOk result (λ new. new.items ≡ filled_by fill (change_of change.now) image.items) }
{
    match (fill, change) {
        (Fill::Old, _) => Ok(image),
        (Fill::New, Change::Write { at, bytes }) => write_over(
            alloc,
            image,
            *at,
            bytes.as_slice(),
            0,
        ),
        (Fill::Ones, Change::Write { at, bytes }) => {
            write_over(alloc, image, *at, ones(alloc, bytes.len())?.as_slice(), 1)
        }
        (_, Change::Cut(len)) => Ok(cut_to(image, *len)),
    }
}

// The file after a call.
fn read_on(alloc: Global, call: &Call, file: Vec<u8>) -> Result<Vec<u8>, AllocError>
    ensures { IfOk result (λ new. new.items ≡ read_after (call_of call.now) file.items) }
{
    match call {
        Call::Changed(change) => fill_change(alloc, Fill::New, change, file),
        _ => Ok(file),
    }
}

// What a stop behind the call leaves, from what is read before it and what a stop left there.
fn stop_after(
    alloc: Global,
    fill: Fill,
    call: &Call,
    file: &[u8],
    image: Vec<u8>,
) -> Result<Vec<u8>, AllocError>
    ensures { IfOk result (λ new. new.items ≡ stopped_after fill (call_of call.now) file.now image.items) }
{
    match call {
        Call::Looked => Ok(image),
        Call::Synced => Vec::from_slice(alloc, file),
        Call::Changed(change) | Call::Refused(change) => fill_change(alloc, fill, change, image),
    }
}

/// The file that a read gives after these calls.
pub fn replayed(alloc: Global, start: &[u8], calls: &[Call]) -> Result<Vec<u8>, AllocError>
    ensures { IfOk result (λ file. file.items ≡ reads_as start.now (latest_first calls.now)) }
{
    let mut file = Vec::from_slice(alloc, start)?;
    for call in calls {
        file = read_on(alloc, call, file)?;
    }
    Ok(file)
}

/// The file that a stop behind these calls leaves.
pub fn stopped_file(
    alloc: Global,
    start: &[u8],
    calls: &[Call],
    fill: Fill,
) -> Result<Vec<u8>, AllocError>
    ensures { IfOk result (λ image. image.items ≡ stopped fill start.now (latest_first calls.now)) }
{
    let mut file = Vec::from_slice(alloc, start)?;
    let mut image = Vec::from_slice(alloc, start)?;
    for call in calls {
        image = stop_after(alloc, fill, call, file.as_slice(), image)?;
        file = read_on(alloc, call, file)?;
    }
    Ok(image)
}
