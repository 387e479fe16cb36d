// The body of a seal.

ghost use Rattle.std.specs.Prelude.{◌≡◌, ◌≤◌, ◌++◌, OnOk, length};
ghost use Rattle.std.specs.Int.{w32};
ghost use Rattle.byte_frame.specs.Outcomes.{Gives};
ghost use Rattle.byte_frame.specs.Reading.{bytes_at, if_at, list_at, number_at};
ghost use Rattle.byte_frame.specs.Spelling.{list_text, rises};
ghost use Rattle.step_codec.specs.Seals.{cuboid_at, cuboid_text, done_at, done_text, is_part_count, mask_before, most_items, seal_at, seal_text, steps_follow};

use agg_group::Mask;
use byte_frame::{
    Below, FieldReader, ReadError, Reads, put_bytes, put_u32, put_u64, read_list, rise,
};
use cube_val::Items;
use range_list::Range;
use std::alloc::{AllocError, Global};
use step_fields::{put_range, take_range};

/// The product of a step that is done.
#[derive(Clone, Copy)]
pub struct DoneStep {
    /// The number of the step, from 1.
    pub step: u32,
    /// How many bytes its product has.
    pub len: u64,
    /// The SHA-256 of its product.
    pub digest: [u8; 32],
}

/// A cuboid and how many rows its table has.
#[derive(Clone, Copy)]
pub struct CuboidRows {
    /// The dimensions.
    pub mask: Mask,
    /// How many rows there are.
    pub rows: u64,
}

/// What a seal says of its segment.
#[derive(Drop)]
pub struct SealBody {
    /// The days of the segment.
    pub range: Range,
    /// How many snapshots it is made of.
    pub parts: u32,
    /// The products of the steps before.
    pub done: Items<DoneStep>,
    /// The cuboids, rising by their masks.
    pub cuboids: Items<CuboidRows>,
}

impl Below for CuboidRows {
    ghost use Rattle.step_codec.specs.Seals.{mask_before};

    ghost below = { mask_before };

    fn below(&self, other: &CuboidRows) -> bool {
        self.mask.0 < other.mask.0
    }
}

// The digest of a product.
fn take_digest(r: &mut FieldReader) -> Result<[u8; 32], ReadError>
    ensures { Gives (λ digest. (digest, r.new)) result (bytes_at 32 r.old) }
{
    match r.take_bytes(32) {
        Some(bytes) => Ok(digest_of(bytes)),
        None => Err(ReadError::Malformed),
    }
}

// The bytes as an array.
fn digest_of(bytes: &[u8]) -> [u8; 32]
    requires { length bytes.now ≡ 32 }
    ensures { result ≡ bytes.now }
{
    let mut digest = [0; 32];
    digest.copy_from_slice(bytes);
    digest
}

// A step that is done.
#[tactic(auto, unfolding(crate::specs::Seals::done_at))]
fn take_done(r: &mut FieldReader) -> Result<DoneStep, ReadError>
    ensures { Gives (λ done. (done, r.new)) result (done_at r.old) }
{
    let Some(step) = r.take_u32() else {
        return Err(ReadError::Malformed);
    };
    let Some(len) = r.take_u64() else {
        return Err(ReadError::Malformed);
    };
    let digest = match take_digest(r) {
        Ok(digest) => digest,
        Err(e) => return Err(e),
    };
    Ok(DoneStep { step, len, digest })
}

// A cuboid and its rows.
#[tactic(auto, unfolding(crate::specs::Seals::cuboid_at))]
fn take_cuboid(r: &mut FieldReader) -> Result<CuboidRows, ReadError>
    ensures { Gives (λ cuboid. (cuboid, r.new)) result (cuboid_at r.old) }
{
    let Some(mask) = r.take_u64() else {
        return Err(ReadError::Malformed);
    };
    let Some(rows) = r.take_u64() else {
        return Err(ReadError::Malformed);
    };
    Ok(CuboidRows {
        mask: Mask(mask),
        rows,
    })
}

// The form of a step that is done.
#[derive(Clone, Copy)]
struct AnyDone;

impl Reads<DoneStep> for AnyDone {
    ghost use Rattle.step_codec.specs.Seals.{done_at};

    ghost at = { λ _. done_at };

    fn read(&self, _alloc: Global, r: &mut FieldReader) -> Result<DoneStep, ReadError> {
        take_done(r)
    }
}

// The form of a cuboid.
#[derive(Clone, Copy)]
struct AnyCuboid;

impl Reads<CuboidRows> for AnyCuboid {
    ghost use Rattle.step_codec.specs.Seals.{cuboid_at};

    ghost at = { λ _. cuboid_at };

    fn read(&self, _alloc: Global, r: &mut FieldReader) -> Result<CuboidRows, ReadError> {
        take_cuboid(r)
    }
}

// Whether the numbers of the steps are 1, 2 and so on.
fn steps_follow(done: &[DoneStep]) -> bool
    ensures { result ≡ steps_follow 1 done.now }
{
    let mut next: u64 = 1;
    for step in done {
        if u64::from(step.step) != next {
            return false;
        }
        next += 1;
    }
    true
}

// The steps that are done.
fn read_done(alloc: Global, r: &mut FieldReader) -> Result<Items<DoneStep>, ReadError>
    ensures { Gives (λ done. (done, r.new)) result (if_at (steps_follow 1) (list_at most_items done_at) r.old) }
{
    let done: Vec<DoneStep> = match read_list(alloc, &AnyDone, u32::MAX, r) {
        Ok(done) => done,
        Err(e) => return Err(e),
    };
    if !steps_follow(done.as_slice()) {
        return Err(ReadError::Malformed);
    }
    Ok(Items::of(done))
}

// The cuboids with their rows.
fn read_cuboids(alloc: Global, r: &mut FieldReader) -> Result<Items<CuboidRows>, ReadError>
    ensures { Gives (λ cuboids. (cuboids, r.new)) result (if_at (rises mask_before) (list_at most_items cuboid_at) r.old) }
{
    let cuboids: Vec<CuboidRows> = match read_list(alloc, &AnyCuboid, u32::MAX, r) {
        Ok(cuboids) => cuboids,
        Err(e) => return Err(e),
    };
    if !rise(cuboids.as_slice()) {
        return Err(ReadError::Malformed);
    }
    Ok(Items::of(cuboids))
}

// How many snapshots a segment is made of.
fn take_parts(r: &mut FieldReader) -> Result<u32, ReadError>
    ensures { Gives (λ parts. (parts, r.new)) result (if_at is_part_count (number_at w32) r.old) }
{
    let Some(parts) = r.take_u32() else {
        return Err(ReadError::Malformed);
    };
    if parts < 1 || parts > 1_000 {
        return Err(ReadError::Malformed);
    }
    Ok(parts)
}

/// The body of a seal. It is malformed where the steps aren't 1, 2 and so on, where masks don't rise, and where the
/// snapshots aren't 1 to 1,000.
#[tactic(auto, unfolding(crate::specs::Seals::seal_at))]
pub fn read_seal(alloc: Global, r: &mut FieldReader) -> Result<SealBody, ReadError>
    ensures { Gives (λ seal. (seal, r.new)) result (seal_at r.old) }
{
    let Some(range) = take_range(r) else {
        return Err(ReadError::Malformed);
    };
    let parts = match take_parts(r) {
        Ok(parts) => parts,
        Err(e) => return Err(e),
    };
    let done = match read_done(alloc, r) {
        Ok(done) => done,
        Err(e) => return Err(e),
    };
    let cuboids = match read_cuboids(alloc, r) {
        Ok(cuboids) => cuboids,
        Err(e) => return Err(e),
    };
    Ok(SealBody {
        range,
        parts,
        done,
        cuboids,
    })
}

// Puts a step that is done.
fn put_done(out: &mut Vec<u8>, done: &DoneStep) -> Result<(), AllocError>
    ensures { OnOk result (out.new.items ≡ out.old.items ++ done_text done.now) }
{
    put_u32(out, done.step)?;
    put_u64(out, done.len)?;
    put_bytes(out, &done.digest)
}

// Puts a cuboid and its rows.
fn put_cuboid(out: &mut Vec<u8>, cuboid: &CuboidRows) -> Result<(), AllocError>
    ensures { OnOk result (out.new.items ≡ out.old.items ++ cuboid_text cuboid.now) }
{
    put_u64(out, cuboid.mask.0)?;
    put_u64(out, cuboid.rows)
}

// Puts the steps that are done behind their number.
fn put_all_done(out: &mut Vec<u8>, done: &[DoneStep]) -> Result<(), AllocError>
    requires { length done.now ≤ most_items }
    ensures { OnOk result (out.new.items ≡ out.old.items ++ list_text done_text done.now) }
{
    put_u32(out, done.len() as u32)?;
    for step in done {
        put_done(out, step)?;
    }
    Ok(())
}

// Puts the cuboids behind their number.
fn put_all_cuboids(out: &mut Vec<u8>, cuboids: &[CuboidRows]) -> Result<(), AllocError>
    requires { length cuboids.now ≤ most_items }
    ensures { OnOk result (out.new.items ≡ out.old.items ++ list_text cuboid_text cuboids.now) }
{
    put_u32(out, cuboids.len() as u32)?;
    for cuboid in cuboids {
        put_cuboid(out, cuboid)?;
    }
    Ok(())
}

/// Puts the body of a seal.
pub fn put_seal(out: &mut Vec<u8>, seal: &SealBody) -> Result<(), AllocError>
    requires done { length seal.now.done ≤ most_items }
    requires cuboids { length seal.now.cuboids ≤ most_items }
    ensures { OnOk result (out.new.items ≡ out.old.items ++ seal_text seal.now) }
{
    put_range(out, &seal.range)?;
    put_u32(out, seal.parts)?;
    put_all_done(out, seal.done.as_slice())?;
    put_all_cuboids(out, seal.cuboids.as_slice())
}
