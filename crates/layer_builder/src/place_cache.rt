// Where values were found before.

ghost use Rattle.std.specs.Prelude.{◌≡◌, ◌<◌, ◌≤◌, true, IfSome, length, slice_index_or};

use cube_val::Val;
use std::alloc::{AllocError, Global};

// In how many slots, one after another, a place is looked for.
const PROBES: usize = 8;

// How far apart equal values of two columns are kept.
const STRIDE: u64 = 5_003;

// How far a digest is turned before each byte. A turn takes less time than a product, and each waits for the one before.
const TURN: u32 = 5;

// What a digest is multiplied by at the end, which mixes all of its bits into the highest ones.
const FACTOR: u64 = 0x9E37_79B9_7F4A_7C15;

// A digest of bytes, which is cheap for the short texts of dimensions.
fn digest_of(bytes: &[u8]) -> u64 {
    let mut digest = 0u64;
    for byte in bytes {
        digest = digest.rotate_left(TURN) ^ u64::from(*byte);
    }
    digest
}

// A digest of a column's value, whose highest bits are mixed.
fn value_digest(column: usize, v: &Val) -> u64 {
    let digest = match v {
        Val::Null => 0,
        Val::Int(number) => digest_of(&number.to_le_bytes()),
        Val::Text(text) => digest_of(text.bytes()),
    };
    let apart = (column as u64).wrapping_mul(STRIDE);
    digest.wrapping_add(apart).wrapping_mul(FACTOR)
}

// How many bits number the slots for the values of so many rows: there are two slots or more for each row, up to a limit.
fn slot_bits(rows: usize) -> u32
    ensures { (13 ≤ result) × (result ≤ 18) }
{
    if rows <= 1 << 12 {
        13
    } else if rows <= 1 << 15 {
        16
    } else {
        18
    }
}

/// Where values of columns were found before, so that a value that is met again is compared with that one, and with no other of
/// its dictionary. A place is a guess that is tested, so no contract speaks of the places that are kept.
#[derive(Drop)]
pub(crate) struct PlaceCache {
    // One more than the place that is kept in a slot, and 0 where none is.
    slots: Vec<u32>,
    // How many of a digest's bits number no slot.
    shift: u32,
    ghost short: { shift < 64 },
}

impl PlaceCache {
    /// With no place yet, for the values of so many rows.
    pub(crate) fn new(alloc: Global, rows: usize) -> Result<PlaceCache, AllocError> {
        let bits = slot_bits(rows);
        let slots = vec![in alloc; 0; (1 << bits) + PROBES]?;
        Ok(PlaceCache {
            slots,
            shift: 64 - bits,
        })
    }

    // The first slot in which the place of a column's value is looked for.
    fn first_slot(&self, column: usize, v: &Val) -> usize {
        (value_digest(column, v) >> self.shift) as usize
    }

    // What a slot keeps; one that isn't there keeps no place.
    fn kept_in(&self, slot: usize) -> u32 {
        self.slots.get(slot).copied().unwrap_or(0)
    }

    /// The place of the column's value among the values, where it was kept and the value still stands there.
    pub(crate) fn find(&self, column: usize, v: &Val, values: &[Val]) -> Option<u32>
        ensures within { IfSome result (λ place. place < length values.now) }
        ensures there { IfSome result (λ place. slice_index_or values.now place v.now ≡ v.now) }
    {
        let first = self.first_slot(column, v);
        for i in 0..PROBES {
            let kept = self.kept_in(first.wrapping_add(i));
            if kept == 0 {
                return None;
            }
            if stands_at(values, kept - 1, v) {
                return Some(kept - 1);
            }
        }
        None
    }

    // The first slot from this one on that keeps no place, or this one.
    fn free_slot(&self, first: usize) -> usize {
        for i in 0..PROBES {
            let slot = first.wrapping_add(i);
            if self.kept_in(slot) == 0 {
                return slot;
            }
        }
        first
    }

    /// Keeps the place of a column's value.
    pub(crate) fn keep(&mut self, column: usize, v: &Val, place: u32) {
        let slot = self.free_slot(self.first_slot(column, v));
        if slot < self.slots.len() && place < u32::MAX {
            self.slots[slot] = place + 1;
        }
    }
}

// Whether the value stands at the place.
fn stands_at(values: &[Val], place: u32, v: &Val) -> bool
    ensures within { result ≡ true → place < length values.now }
    ensures there { result ≡ true → slice_index_or values.now place v.now ≡ v.now }
{
    match values.get(place as usize) {
        Some(w) => are_equal(w, v),
        None => false,
    }
}

// Whether the bytes are found to be equal, which goes byte by byte, since they are few.
fn are_equal_bytes(a: &[u8], b: &[u8]) -> bool
    ensures { result ≡ true → a.now ≡ b.now }
{
    if a.len() != b.len() {
        return false;
    }
    for i in 0..a.len() {
        if a[i] != b[i] {
            return false;
        }
    }
    true
}

// Whether the values are found to be equal.
fn are_equal(a: &Val, b: &Val) -> bool
    ensures { result ≡ true → a.now ≡ b.now }
{
    match (a, b) {
        (Val::Null, Val::Null) => true,
        (Val::Int(x), Val::Int(y)) => *x == *y,
        (Val::Text(x), Val::Text(y)) => are_equal_bytes(x.bytes(), y.bytes()),
        _ => false,
    }
}
