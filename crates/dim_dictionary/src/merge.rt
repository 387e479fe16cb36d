// The dictionary of all parts.

ghost use Rattle.std.specs.Prelude.{◌≡◌, ◌<◌, ◌^◌, All, Contains, IfOk, Some, length, map, slice_get};
ghost use Rattle.std.specs.List.{AllZip};
ghost use Rattle.std.specs.List.Sorted.{IsStrictlySortedBy};
ghost use Rattle.cube_val.specs.Order.{val_cmp};
ghost use Rattle.dim_dictionary.specs.Dictionaries.{KeepsValues, merged_dictionary};

use crate::dict::Dict;
use crate::lists::Remap;
use crate::sorting::{copies, references, union};
use cube_val::Val;
use std::alloc::{AllocError, Global};

// The values of all parts, each once, in order.
fn union_of<'a>(alloc: Global, parts: &'a [Dict]) -> Result<Vec<&'a Val>, AllocError>
    ensures { IfOk result (λ refs. map (λ v. v.now) refs.items ≡ merged_dictionary parts.now) }
{
    let mut merged = Vec::new(alloc);
    for part in parts {
        let more = references(alloc, part.values())?;
        merged = union(alloc, &merged, &more)?;
    }
    Ok(merged)
}

// The number in a merged dictionary of each value of a part of it.
fn numbers_of(alloc: Global, merged: &Dict, part: &Dict) -> Result<Remap, AllocError>
    requires rising { IsStrictlySortedBy val_cmp merged.now }
    requires there { All (Contains merged.now) part.now }
    ensures { IfOk result (KeepsValues merged.now part.now) }
{
    let mut ids = Vec::new(alloc);
    for v in part.values() {
        match merged.id_of(v) {
            Some(id) => ids.push(id)?,
            None => unreachable!(),
        }
    }
    Ok(Remap::new(ids))
}

// For each part the numbers of its values in the dictionary of all parts.
fn remaps_of(alloc: Global, merged: &Dict, parts: &[Dict]) -> Result<Vec<Remap>, AllocError>
    requires { merged.now ≡ merged_dictionary parts.now }
    ensures { IfOk result (λ remaps. AllZip (KeepsValues merged.now) parts.now remaps.items) }
{
    let mut remaps = Vec::new(alloc);
    for part in parts {
        remaps.push(numbers_of(alloc, merged, part)?)?;
    }
    Ok(remaps)
}

impl Dict {
    /// The dictionary of the values of all parts, and for each part the new numbers of its values.
    pub fn merge_all(alloc: Global, parts: &[Dict]) -> Result<(Dict, Vec<Remap>), AllocError>
        requires { length (merged_dictionary parts.now) < 2 ^ 32 }
        ensures merged { IfOk result (λ r. r.0 ≡ merged_dictionary parts.now) }
        ensures numbers { IfOk result (λ r. AllZip (KeepsValues r.0) parts.now r.1.items) }
    {
        let refs = union_of(alloc, parts)?;
        let merged = Dict::of(copies(alloc, &refs)?);
        let remaps = remaps_of(alloc, &merged, parts)?;
        Ok((merged, remaps))
    }
}
