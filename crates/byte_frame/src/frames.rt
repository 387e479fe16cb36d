//! Frames: bytes in a file, under the digest that shows whether they are whole.

ghost use Rattle.std.specs.Prelude.{◌≡◌, ◌++◌, length, option_map, IfOk, OnErr};
ghost use Rattle.std.specs.Result.{result_ok};
ghost use Rattle.std.specs.Str.{bytes_eq};
ghost use Rattle.sha2.specs.Sha256.{sha256};
ghost use Rattle.byte_frame.specs.FrameReading.{before_digest_at, frame_at};
ghost use Rattle.byte_frame.specs.Frames.{Frame, IsFrameOf, before_digest, frame_of, frame_text};
ghost use Rattle.byte_frame.specs.Reading.{all_of};

use crate::fields::FieldReader;
use crate::put::{put_bytes, put_u16, put_u64};
use sha2::{Digest, Sha256};
use std::alloc::{AllocError, Global};

/// What a frame says beside its body.
#[derive(Clone, Copy)]
pub struct FrameHead {
    /// The version of the body's format. A frame may carry any.
    pub version: u16,
    /// The digest of the task that the body answers.
    pub task: [u8; 32],
}

/// The bytes are no frame.
#[derive(Clone, Copy, Debug)]
pub struct Torn;

// All of a frame before its digest.
fn unsealed(alloc: Global, head: &FrameHead, body: &[u8]) -> Result<Vec<u8>, AllocError>
    ensures { IfOk result (λ v. v.items ≡ before_digest (frame_of head.now body.now)) }
{
    let mut out = Vec::new(alloc);
    put_bytes(&mut out, b"CUBEFRM1")?;
    put_u16(&mut out, head.version)?;
    put_bytes(&mut out, &head.task)?;
    put_u64(&mut out, body.len() as u64)?;
    put_bytes(&mut out, body)?;
    Ok(out)
}

// The bytes, and their digest behind them.
fn sealed(mut out: Vec<u8>) -> Result<Vec<u8>, AllocError>
    ensures { IfOk result (λ v. v.items ≡ out.items ++ sha256 out.items) }
{
    let digest: [u8; 32] = Sha256::digest(out.as_slice());
    put_bytes(&mut out, &digest)?;
    Ok(out)
}

/// The frame of the head and the body.
pub fn put_frame(alloc: Global, head: &FrameHead, body: &[u8]) -> Result<Vec<u8>, AllocError>
    ensures { IfOk result (λ v. v.items ≡ frame_text (frame_of head.now body.now)) }
{
    sealed(unsealed(alloc, head, body)?)
}

fn same_bytes(a: &[u8], b: &[u8]) -> bool
    ensures { result ≡ bytes_eq a.now b.now }
{
    a == b
}

// The bytes as an array.
fn digest_of(bytes: &[u8]) -> [u8; 32]
    requires { length bytes.now ≡ 32 }
    ensures { result ≡ bytes.now }
{
    let mut digest = [0; 32];
    digest.copy_from_slice(bytes);
    digest
}

// The head and the body of bytes that are all of a frame before its digest.
#[tactic(auto, unfolding(crate::specs::FrameReading::before_digest_at))]
fn take_unsealed<'a>(bytes: &'a [u8]) -> Option<(FrameHead, &'a [u8])>
    ensures { option_map (λ t. frame_of t.0 t.1.now) result ≡ all_of before_digest_at bytes.now }
{
    let mut r = FieldReader::new(bytes);
    let magic = r.take_bytes(8)?;
    if !same_bytes(magic, b"CUBEFRM1") {
        return None;
    }
    let version = r.take_u16()?;
    let task = digest_of(r.take_bytes(32)?);
    let length = r.take_u64()?;
    let body = r.take_bytes(length as usize)?;
    if r.left() != 0 {
        return None;
    }
    Some((FrameHead { version, task }, body))
}

// The head and the body of bytes that are a frame.
#[tactic(auto, unfolding(crate::specs::FrameReading::frame_at))]
fn take_sealed<'a>(bytes: &'a [u8]) -> Option<(FrameHead, &'a [u8])>
    ensures { option_map (λ t. frame_of t.0 t.1.now) result ≡ frame_at bytes.now }
{
    let (front, digest) = bytes.split_at(bytes.len().saturating_sub(32));
    let wanted: [u8; 32] = Sha256::digest(front);
    if !same_bytes(digest, &wanted) {
        return None;
    }
    take_unsealed(front)
}

/// The head and the body of the frame that all of the bytes are; `Torn` exactly where they are no frame. It takes no
/// memory: the body stays where it is.
pub fn take_frame<'a>(bytes: &'a [u8]) -> Result<(FrameHead, &'a [u8]), Torn>
    ensures taken { IfOk result (λ t. IsFrameOf bytes.now (frame_of t.0 t.1.now)) }
    ensures torn { OnErr result ((f : Frame) → ¬ IsFrameOf bytes.now f) }

    // The same as a function of the bytes.
    ensures reads { option_map (λ t. frame_of t.0 t.1.now) (result_ok result) ≡ frame_at bytes.now }
{
    take_sealed(bytes).ok_or(Torn)
}
