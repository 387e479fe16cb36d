//! The entries of a log, read from its bytes.

ghost use Rattle.std.specs.Prelude.{◌≡◌, ◌≢◌, ◌⊎◌, ◌++◌, ℕ, List, Some, None, Err, IfOk, IfSome, IfNone, IsErrOf, false, replicate, if◌then◌else◌, ◌==◌};
ghost use Rattle.std.specs.Str.{bytes_eq};
ghost use Rattle.byte_frame.specs.Frames.{IsFrameOf};
ghost use Rattle.entry_log.specs.Logs.{FitsBody, IsLog, IsNoEntry, IsNoLog, bodies_of, entry_frame, entry_text, gate_is_shut, gated_at};

use crate::fault::LogFault;
use crate::log::Log;
use byte_frame::{FieldReader, FrameHead, take_frame};
use std::alloc::Global;

fn same_bytes(a: &[u8], b: &[u8]) -> bool
    ensures { result ≡ bytes_eq a.now b.now }
{
    a == b
}

// Whether it is the head of an entry's frame.
fn head_of_entry(head: &FrameHead) -> bool
    ensures { result ≡ (if head.now.version == 2 then bytes_eq head.now.task (replicate 32 0) else false) }
{
    let no_task = [0; 32];
    head.version == 2 && same_bytes(&head.task, &no_task)
}

// The body of the frame of an entry that all of the bytes are.
fn framed_body<'a>(frame: &'a [u8]) -> Option<&'a [u8]>
    ensures some { IfSome result (λ body. IsFrameOf frame.now (entry_frame body.now)) }
    ensures none { IfNone result ((body : List ℕ) → ¬ IsFrameOf frame.now (entry_frame body)) }
{
    let Ok((head, body)) = take_frame(frame) else {
        return None;
    };
    if head_of_entry(&head) {
        Some(body)
    } else {
        None
    }
}

// The bytes behind an open gate and their length. Where there are none, something may have been taken.
fn take_gated<'a>(r: &mut FieldReader<'a>) -> Option<&'a [u8]>
    ensures some { IfSome result (λ frame. gated_at r.old ≡ Some (frame.now, r.new)) }
    ensures none { IfNone result (gated_at r.old ≡ None) }
{
    if r.take_u8()? != 1 {
        return None;
    }
    let n = r.take_u64()?;
    r.take_bytes(n as usize)
}

// The body of the entry that stands in front, and what stands behind the entry.
fn split_entry<'a>(bytes: &'a [u8]) -> Option<(&'a [u8], &'a [u8])>
    ensures some { IfSome result (λ entry. FitsBody entry.0.now × (bytes.now ≡ entry_text entry.0.now ++ entry.1.now)) }
    ensures none { IfNone result (IsNoEntry bytes.now) }
{
    let mut r = FieldReader::new(bytes);
    let frame = take_gated(&mut r)?;
    let body = framed_body(frame)?;
    let (_entry, rest) = bytes.split_at(bytes.len().saturating_sub(r.left()));
    Some((body, rest))
}

// Whether the bytes begin with a closed gate.
fn is_shut(bytes: &[u8]) -> bool
    ensures { result ≡ gate_is_shut bytes.now }
{
    match bytes {
        [gate, ..] => *gate != 1,
        [] => false,
    }
}

/// The log that the bytes are, and the bodies of its entries; `NotLog` exactly where they are no log.
pub fn read_log(alloc: Global, bytes: &[u8]) -> Result<(Log, Vec<Vec<u8>>), LogFault>
    ensures ok { IfOk result (λ read. IsLog bytes.now (bodies_of read.1.items) read.0) }
    ensures not_log { IsErrOf result LogFault.NotLog → IsNoLog bytes.now }
    ensures no_disk { result ≢ Err LogFault.Disk }
{
    let mut bodies = Vec::new(alloc);
    if bytes.len() == 1 {
        return Ok((Log::at(0), bodies));
    }
    let mut rest = bytes;
    while let Some((body, behind)) = split_entry(rest) {
        bodies.push(Vec::from_slice(alloc, body)?)?;
        rest = behind;
    }
    if !is_shut(rest) {
        return Err(LogFault::NotLog);
    }
    Ok((
        Log::at(bytes.len().saturating_sub(rest.len()) as u64),
        bodies,
    ))
}
