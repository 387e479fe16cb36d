//! Fields put at the end of bytes.

ghost use Rattle.std.specs.Prelude.{◌≡◌, ◌++◌, ◌∷◌, [], OnOk, OnErr};
ghost use Rattle.std.specs.Int.{w16, w32, w64, w128, to_be_bytes};
ghost use Rattle.byte_frame.specs.Spelling.{signed_text};

use std::alloc::AllocError;

/// Puts bytes. Where memory is refused, the buffer is as before, here and in each call below.
pub fn put_bytes(out: &mut Vec<u8>, bytes: &[u8]) -> Result<(), AllocError>
    ensures put { OnOk result (out.new.items ≡ out.old.items ++ bytes.now) }
    ensures refused { OnErr result (out.new.items ≡ out.old.items) }
{
    out.extend_from_slice(bytes)
}

/// Puts one byte.
pub fn put_u8(out: &mut Vec<u8>, v: u8) -> Result<(), AllocError>
    ensures put { OnOk result (out.new.items ≡ out.old.items ++ v ∷ []) }
    ensures refused { OnErr result (out.new.items ≡ out.old.items) }
{
    put_bytes(out, &[v])
}

/// Puts a big-endian number of two bytes.
pub fn put_u16(out: &mut Vec<u8>, v: u16) -> Result<(), AllocError>
    ensures put { OnOk result (out.new.items ≡ out.old.items ++ to_be_bytes w16 v) }
    ensures refused { OnErr result (out.new.items ≡ out.old.items) }
{
    put_bytes(out, &v.to_be_bytes())
}

/// Puts a big-endian number of four bytes.
pub fn put_u32(out: &mut Vec<u8>, v: u32) -> Result<(), AllocError>
    ensures put { OnOk result (out.new.items ≡ out.old.items ++ to_be_bytes w32 v) }
    ensures refused { OnErr result (out.new.items ≡ out.old.items) }
{
    put_bytes(out, &v.to_be_bytes())
}

/// Puts a big-endian number of eight bytes.
pub fn put_u64(out: &mut Vec<u8>, v: u64) -> Result<(), AllocError>
    ensures put { OnOk result (out.new.items ≡ out.old.items ++ to_be_bytes w64 v) }
    ensures refused { OnErr result (out.new.items ≡ out.old.items) }
{
    put_bytes(out, &v.to_be_bytes())
}

/// Puts a big-endian two's complement number of eight bytes.
pub fn put_i64(out: &mut Vec<u8>, v: i64) -> Result<(), AllocError>
    ensures put { OnOk result (out.new.items ≡ out.old.items ++ signed_text w64 v) }
    ensures refused { OnErr result (out.new.items ≡ out.old.items) }
{
    put_bytes(out, &v.to_be_bytes())
}

/// Puts a big-endian two's complement number of 16 bytes.
pub fn put_i128(out: &mut Vec<u8>, v: i128) -> Result<(), AllocError>
    ensures put { OnOk result (out.new.items ≡ out.old.items ++ signed_text w128 v) }
    ensures refused { OnErr result (out.new.items ≡ out.old.items) }
{
    put_bytes(out, &v.to_be_bytes())
}
