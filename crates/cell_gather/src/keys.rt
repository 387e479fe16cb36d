// Parts of keys.

ghost use Rattle.std.specs.Prelude.{◌≡◌, IfOk};
ghost use Rattle.cell_gather.specs.Keys.{kept_dims, kept_numbers};

use agg_group::Mask;
use std::alloc::{AllocError, Global};

/// For each dimension of the first mask, rising, whether the second has it too.
pub fn kept_dims(alloc: Global, whole: Mask, part: Mask) -> Result<Vec<bool>, AllocError>
    ensures { IfOk result (λ keeps. keeps.items ≡ kept_dims whole part) }
{
    let mut keeps = Vec::new(alloc);
    for d in 0..64 {
        if whole.has(d) {
            keeps.push(part.has(d))?;
        }
    }
    Ok(keeps)
}

/// The numbers of a key that are kept.
pub fn kept_numbers(alloc: Global, keeps: &[bool], key: &[u32]) -> Result<Vec<u32>, AllocError>
    ensures { IfOk result (λ part. part.items ≡ kept_numbers keeps.now key.now) }
{
    let mut part = Vec::new(alloc);
    for (keep, id) in keeps.iter().zip(key) {
        if *keep {
            part.push(*id)?;
        }
    }
    Ok(part)
}
