// Texts of at most 255 bytes.

ghost use Rattle.std.specs.Prelude.{◌≡◌, ◌==◌, ◌≤◌, IfOk, IsErrOf, IsTrue, ◌↔◌, length};
ghost use Rattle.std.proofs.Common.{rules};
ghost use Rattle.std.specs.Cmp.{partial_order_from_own_ties};
ghost use Rattle.std.specs.Cmp.Rules.{comparing};
ghost use Rattle.std.specs.Cmp.Lexicographic.{slice_cmp};
ghost use Rattle.std.specs.Ordering.{nat_cmp, as_partial_cmp};
ghost use lib.Pointwise.{pointwise};
ghost use Rattle.std.specs.Str.{IsAscii, IsUtf8};
ghost use Rattle.calendar.specs.Dates.{IsDate};
ghost use Rattle.cube_val.specs.Stored.{inline_len, stored_bytes};
ghost use Rattle.cube_val.specs.Texts.{IsText};

use crate::val::ReadVal;
use std::alloc::{AllocError, Global};
use std::cmp::Ordering;
use std::marker::Model;

/// The greatest number of bytes of a text.
pub const TEXT_MAX: usize = 255;

/// The number of bytes of a text that are kept without an allocation: a date's ten, and most names of things. With it a text
/// takes two words, and a value three.
const INLINE: usize = 14;

// Where the bytes of a text are kept.
#[derive(Debug, Drop)]
enum Stored {
    // In place: so many first bytes of the array.
    Inline(u8, [u8; INLINE]),
    // On the heap.
    Heap(Box<Vec<u8>>),
}

impl Stored {
    // Keeps these bytes.
    fn of(alloc: Global, bytes: &[u8]) -> Result<Stored, AllocError>
        ensures bytes { IfOk result (λ stored. stored_bytes stored ≡ bytes.now) }
        ensures within { IfOk result (λ stored. inline_len stored ≤ 14) }
    {
        if bytes.len() <= INLINE {
            return Ok(inline(bytes));
        }
        let bytes = Vec::from_slice(alloc, bytes)?;
        let bytes = Box::new(alloc, bytes)?;
        Ok(Stored::Heap(bytes))
    }

    // Keeps the same bytes in the same way.
    fn copy(&self) -> Result<Stored, AllocError>
        ensures bytes { IfOk result (λ stored. stored_bytes stored ≡ stored_bytes self.now) }
        ensures within { IfOk result (λ stored. inline_len stored ≡ inline_len self.now) }
    {
        match self {
            Stored::Inline(len, room) => Ok(Stored::Inline(*len, *room)),
            Stored::Heap(bytes) => {
                let bytes = bytes.clone()?;
                Ok(Stored::Heap(bytes))
            }
        }
    }
}

// Keeps these bytes in place.
fn inline(bytes: &[u8]) -> Stored
    requires { length bytes.now ≤ 14 }
    ensures bytes { stored_bytes result ≡ bytes.now }
    ensures within { inline_len result ≤ 14 }
{
    let mut room = [0; INLINE];
    let len = bytes.len();
    room[..len].copy_from_slice(bytes);
    Stored::Inline(len as u8, room)
}

/// A text of at most 255 bytes of UTF-8.
#[derive(Debug, Drop)]
pub struct TextVal {
    stored: Stored,
}

impl Model for TextVal {
    ghost use Rattle.std.specs.Prelude.{◌≤◌, ℕ, List};
    ghost use Rattle.cube_val.specs.Stored.{inline_len, stored_bytes};
    ghost use Rattle.cube_val.specs.Texts.{IsText};

    ghost Value = { List ℕ };

    ghost view = { λ t. stored_bytes t.stored };

    ghost invariant = { λ t. IsText (stored_bytes t.stored) × (inline_len t.stored ≤ 14) };
}

// Whether all bytes are of ASCII. Texts are short, so this goes byte by byte.
fn is_ascii(bytes: &[u8]) -> bool
    ensures { IsTrue result → IsAscii bytes.now }
{
    for byte in bytes {
        if 128 <= *byte {
            return false;
        }
    }
    true
}

// Whether the bytes are UTF-8.
fn is_utf8(bytes: &[u8]) -> bool
    ensures { IsTrue result ↔ IsUtf8 bytes.now }
{
    is_ascii(bytes) || str::from_utf8(bytes).is_ok()
}

impl TextVal {
    /// The text of these bytes.
    pub fn new(alloc: Global, bytes: &[u8]) -> Result<TextVal, ReadVal>
        ensures ok { IfOk result (λ text. text ≡ bytes.now) }
        ensures is_text { IfOk result (λ _. IsText bytes.now) }
        ensures bad_value { IsErrOf result ReadVal.BadValue → ¬ (IsText bytes.now) }
    {
        if bytes.len() > TEXT_MAX {
            return Err(ReadVal::BadValue);
        }
        if !is_utf8(bytes) {
            return Err(ReadVal::BadValue);
        }
        match Stored::of(alloc, bytes) {
            Ok(stored) => Ok(TextVal { stored }),
            Err(_) => Err(ReadVal::Memory),
        }
    }

    /// The text of a date, which is kept without an allocation.
    #[tactic(auto, using(crate::proofs::Dates::date_is_text, crate::proofs::Dates::date_is_short))]
    pub(crate) fn of_date(bytes: &[u8]) -> TextVal
        requires { IsDate bytes.now }
        ensures { result ≡ bytes.now }
    {
        TextVal {
            stored: inline(bytes),
        }
    }

    /// The bytes of the text.
    pub fn bytes(&self) -> &[u8]
        ensures bytes { result.now ≡ self.now }
        ensures is_text { IsText result.now }
    {
        match &self.stored {
            Stored::Inline(len, room) => &room[..*len as usize],
            Stored::Heap(bytes) => bytes.as_slice(),
        }
    }

    /// An equal text.
    pub fn copy(&self) -> Result<TextVal, AllocError>
        ensures { IfOk result (λ text. text ≡ self.now) }
    {
        let stored = self.stored.copy()?;
        Ok(TextVal { stored })
    }
}

impl PartialEq for TextVal {
    ghost eq = { pointwise ◌==◌ };

    ghost laws = { Prim.search (comparing, rules) };

    fn eq(&self, other: &TextVal) -> bool {
        self.bytes() == other.bytes()
    }
}

impl Eq for TextVal {
    ghost laws = { Prim.search (comparing, rules) };
}

impl PartialOrd for TextVal {
    ghost partial_cmp = { as_partial_cmp (slice_cmp nat_cmp) };

    ghost laws = { partial_order_from_own_ties (Prim.search (comparing, rules)) (Prim.search (comparing, rules)) };

    fn partial_cmp(&self, other: &TextVal) -> Option<Ordering> {
        Some(self.cmp(other))
    }
}

impl Ord for TextVal {
    ghost cmp = { slice_cmp nat_cmp };

    ghost total = { Prim.search (comparing, rules) };

    ghost matches_partial_cmp = { Prim.search (comparing, rules) };

    ghost matches_eq = { Prim.search (comparing, rules) };

    fn cmp(&self, other: &TextVal) -> Ordering {
        self.bytes().cmp(other.bytes())
    }
}
