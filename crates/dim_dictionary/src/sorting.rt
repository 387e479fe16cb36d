// The distinct values among references, by a sort and by a merge.

ghost use Rattle.std.specs.Prelude.{◌≡◌, ◌++◌, IfOk, map};
ghost use Rattle.std.specs.List.Sorted.{IsStrictlySortedBy};
ghost use Rattle.cube_val.specs.Order.{val_cmp};
ghost use Rattle.aggregation.specs.Groups.{distinct};

use cube_val::Val;
use std::alloc::{AllocError, Global};
use std::cmp::Ordering;

/// References to values, in their order.
pub(crate) fn references<'a>(alloc: Global, values: &'a [Val]) -> Result<Vec<&'a Val>, AllocError>
    ensures { IfOk result (λ refs. map (λ v. v.now) refs.items ≡ values.now) }
{
    let mut refs = Vec::new(alloc);
    for v in values {
        refs.push(v)?;
    }
    Ok(refs)
}

/// The distinct ones, in order.
pub(crate) fn sort_distinct<'a>(refs: Vec<&'a Val>) -> Vec<&'a Val>
    ensures { map (λ v. v.now) result.items ≡ distinct val_cmp (map (λ v. v.now) refs.entry.items) }
{
    let mut refs = refs;
    refs.sort_unstable();
    refs.dedup();
    refs
}

/// Copies of the values.
pub(crate) fn copies(alloc: Global, refs: &[&Val]) -> Result<Vec<Val>, AllocError>
    ensures { IfOk result (λ values. values.items ≡ map (λ v. v.now) refs.now) }
{
    let mut values = Vec::new(alloc);
    for v in refs {
        values.push(v.copy()?)?;
    }
    Ok(values)
}

/// The distinct values of two rising lists, in order.
pub(crate) fn union<'a>(
    alloc: Global,
    left: &[&'a Val],
    right: &[&'a Val],
) -> Result<Vec<&'a Val>, AllocError>
    requires rising_left { IsStrictlySortedBy val_cmp (map (λ v. v.now) left.now) }
    requires rising_right { IsStrictlySortedBy val_cmp (map (λ v. v.now) right.now) }
    ensures { IfOk result (λ refs. map (λ v. v.now) refs.items ≡ distinct val_cmp (map (λ v. v.now) left.now ++ map (λ v. v.now) right.now)) }
{
    let mut merged = Vec::new(alloc);
    let mut i = 0;
    let mut j = 0;
    while i < left.len() && j < right.len() {
        match left[i].cmp(right[j]) {
            Ordering::Less => {
                merged.push(left[i])?;
                i += 1;
            }
            Ordering::Equal => {
                merged.push(left[i])?;
                i += 1;
                j += 1;
            }
            Ordering::Greater => {
                merged.push(right[j])?;
                j += 1;
            }
        }
    }
    merged.extend_from_slice(&left[i..])?;
    merged.extend_from_slice(&right[j..])?;
    Ok(merged)
}
