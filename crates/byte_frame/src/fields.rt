//! Fields taken from the front of bytes.

ghost use Rattle.std.specs.Prelude.{◌≡◌, length, IfSome};
ghost use Rattle.std.specs.Int.{w16, w32, w64, w128};
ghost use Rattle.byte_frame.specs.Outcomes.{Shows};
ghost use Rattle.byte_frame.specs.Reading.{number_at, bytes_at, byte_at, signed_at};

use std::marker::Model;

/// Takes fields from the front of bytes. Contracts see the bytes that are left. A call that answers `None`
/// takes nothing.
#[derive(Drop)]
pub struct FieldReader<'a> {
    left: &'a [u8],
}

impl<'a> Model for FieldReader<'a> {
    ghost use Rattle.std.specs.Prelude.{ℕ, List};

    ghost Value = { List ℕ };

    ghost view = { λ r. r.left.now };
}

impl<'a> FieldReader<'a> {
    /// A reader that has all of the bytes left.
    pub fn new(bytes: &'a [u8]) -> FieldReader<'a>
        ensures { result ≡ bytes.now }
    {
        FieldReader { left: bytes }
    }

    /// How many bytes are left.
    pub fn left(&self) -> usize
        ensures { result ≡ length self.now }
    {
        self.left.len()
    }

    /// The next `n` bytes; `None` exactly where fewer are left.
    pub fn take_bytes(&mut self, n: usize) -> Option<&'a [u8]>
        ensures shows { Shows (λ x. x.now) result self.new self.old (bytes_at n self.old) }
        ensures len { IfSome result (λ x. length x.now ≡ n) }
    {
        if self.left.len() < n {
            return None;
        }
        let (front, rest) = self.left.split_at(n);
        self.left = rest;
        Some(front)
    }

    /// One byte; `None` exactly where none is left.
    pub fn take_u8(&mut self) -> Option<u8>
        ensures { Shows (λ x. x) result self.new self.old (byte_at self.old) }
    {
        match self.left {
            [] => None,
            [b, rest @ ..] => {
                let b = *b;
                self.left = rest;
                Some(b)
            }
        }
    }

    /// A big-endian number of two bytes; `None` exactly where fewer are left.
    pub fn take_u16(&mut self) -> Option<u16>
        ensures { Shows (λ x. x) result self.new self.old (number_at w16 self.old) }
    {
        if self.left.len() < 2 {
            return None;
        }
        let (front, rest) = self.left.split_at(2);
        self.left = rest;
        Some(u16::from_be_bytes([front[0], front[1]]))
    }

    /// A big-endian number of four bytes; `None` exactly where fewer are left.
    pub fn take_u32(&mut self) -> Option<u32>
        ensures { Shows (λ x. x) result self.new self.old (number_at w32 self.old) }
    {
        if self.left.len() < 4 {
            return None;
        }
        let (front, rest) = self.left.split_at(4);
        self.left = rest;
        Some(u32::from_be_bytes([front[0], front[1], front[2], front[3]]))
    }

    /// A big-endian number of eight bytes; `None` exactly where fewer are left.
    pub fn take_u64(&mut self) -> Option<u64>
        ensures { Shows (λ x. x) result self.new self.old (number_at w64 self.old) }
    {
        if self.left.len() < 8 {
            return None;
        }
        let (front, rest) = self.left.split_at(8);
        self.left = rest;
        Some(u64::from_be_bytes([
            front[0], front[1], front[2], front[3], front[4], front[5], front[6], front[7],
        ]))
    }

    /// A big-endian two's complement number of eight bytes; `None` exactly where fewer are left.
    pub fn take_i64(&mut self) -> Option<i64>
        ensures { Shows (λ x. x) result self.new self.old (signed_at w64 self.old) }
    {
        match self.take_u64() {
            None => None,
            Some(n) => Some(n.cast_signed()),
        }
    }

    /// A big-endian two's complement number of 16 bytes; `None` exactly where fewer are left.
    pub fn take_i128(&mut self) -> Option<i128>
        ensures { Shows (λ x. x) result self.new self.old (signed_at w128 self.old) }
    {
        if self.left.len() < 16 {
            return None;
        }
        let (front, rest) = self.left.split_at(16);
        self.left = rest;
        Some(i128::from_be_bytes(sixteen(front)))
    }
}

// The bytes as an array.
fn sixteen(bytes: &[u8]) -> [u8; 16]
    requires { length bytes.now ≡ 16 }
    ensures { result ≡ bytes.now }
{
    let mut all = [0; 16];
    all.copy_from_slice(bytes);
    all
}
