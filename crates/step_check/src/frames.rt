// Frames.

use crate::fields::{digits_of, mark_of};
use byte_frame::{FrameHead, ReadError, put_frame, take_frame};
use std::alloc::{AllocError, Global};

// Whether the frame of the head and the body is written as the bytes.
fn is_put(alloc: Global, head: &FrameHead, body: &[u8], bytes: &[u8]) -> Result<bool, AllocError> {
    let written = put_frame(alloc, head, body)?;
    Ok(written.as_slice() == bytes)
}

// What a frame says.
fn taken_text(
    alloc: Global,
    head: &FrameHead,
    body: &[u8],
    mark: &str,
) -> Result<String, AllocError> {
    let task = digits_of(alloc, &head.task)?;
    let body = digits_of(alloc, body)?;
    format!(in alloc; "version {} task {task} body {body}{mark}", head.version)
}

/// The version, the digest and the body of a frame.
pub(crate) fn frame_text(alloc: Global, bytes: &[u8]) -> Result<String, ReadError> {
    match take_frame(bytes) {
        Ok((head, body)) => {
            let same = is_put(alloc, &head, body, bytes)?;
            Ok(taken_text(alloc, &head, body, mark_of(same))?)
        }
        Err(_) => Err(ReadError::Malformed),
    }
}

// Whether the bytes with a bit of one turned are no frame.
fn is_torn_at(alloc: Global, bytes: &[u8], at: usize) -> Result<bool, AllocError> {
    let mut turned = Vec::from_slice(alloc, bytes)?;
    if let Some(byte) = turned.get_mut(at) {
        *byte ^= 1;
    }
    Ok(take_frame(turned.as_slice()).is_err())
}

/// How many of the frames with a bit of one byte turned are none, and how many bytes there are.
pub(crate) fn flips_text(alloc: Global, bytes: &[u8]) -> Result<String, ReadError> {
    let mut torn = 0usize;
    for at in 0..bytes.len() {
        if is_torn_at(alloc, bytes, at)? {
            torn = torn.saturating_add(1);
        }
    }
    Ok(format!(in alloc; "{torn} of {}", bytes.len())?)
}
