// The masks that a cube builds.

ghost use Rattle.std.specs.Prelude.{◌≡◌, ◌<◌, ◌≤◌, ◌∷◌, ◌↔◌, [], Contains, IfOk, OnOk, Err, length, vec_len};
ghost use Rattle.agg_group.specs.declared.mask.Mask.{Mask};
ghost use Rattle.agg_group.specs.Mask.{has, IsRising, HasBase};
ghost use Rattle.agg_group.specs.Limits.{most_dimensions, most_cuboids};
ghost use Rattle.agg_group.specs.Faults.{IsSound};
ghost use Rattle.agg_group.specs.Units.{unless_empty, masks_with, group_masks};
ghost use Rattle.agg_group.specs.UnitLists.{steps_of};
ghost use Rattle.agg_group.specs.Built.{IsBuilt, AreOf, built_masks, with_masks};

use crate::fault::MaskFault;
use crate::group::Group;
use crate::mask::Mask;
use crate::units::Unit;
use std::alloc::{AllocError, Global};
use std::collections::BTreeSet;

/// The most dimensions that a cube has.
pub const MOST_DIMENSIONS: u32 = 40;

/// The most cuboids that a cube has.
pub const MOST_CUBOIDS: usize = 4096;

fn add(masks: &mut BTreeSet<Mask>, mask: Mask) -> Result<(), MaskFault>
    ensures ok { OnOk result (masks.new.keys ≡ with_masks masks.old.keys (mask ∷ [])) }
    ensures at_most { OnOk result (length masks.new.keys ≤ most_cuboids) }
    ensures too_many { result ≡ Err MaskFault.TooManyCuboids
        → most_cuboids < length (with_masks masks.old.keys (mask ∷ [])) }
{
    masks.insert(mask).map_err(|_| MaskFault::Memory)?;
    if masks.len() > MOST_CUBOIDS {
        return Err(MaskFault::TooManyCuboids);
    }
    Ok(())
}

// The empty set is no cuboid.
fn add_some(masks: &mut BTreeSet<Mask>, mask: Mask) -> Result<(), MaskFault>
    requires { length masks.old.keys ≤ most_cuboids }
    ensures ok { OnOk result (masks.new.keys ≡ with_masks masks.old.keys (unless_empty mask)) }
    ensures at_most { OnOk result (length masks.new.keys ≤ most_cuboids) }
    ensures too_many { result ≡ Err MaskFault.TooManyCuboids
        → most_cuboids < length (with_masks masks.old.keys (unless_empty mask)) }
{
    if mask.0 == 0 {
        return Ok(());
    }
    add(masks, mask)
}

// Adds the masks that have, beside this mask, a front of each unit. No front is followed above the cap.
fn follow(
    units: &[Unit],
    cap: Option<u32>,
    mask: Mask,
    masks: &mut BTreeSet<Mask>,
) -> Result<(), MaskFault>
    requires { length masks.old.keys ≤ most_cuboids }
    ensures ok { OnOk result
        (masks.new.keys ≡ with_masks masks.old.keys (masks_with cap (steps_of units.now) mask)) }
    ensures at_most { OnOk result (length masks.new.keys ≤ most_cuboids) }
    ensures too_many { result ≡ Err MaskFault.TooManyCuboids
        → most_cuboids < length (with_masks masks.old.keys (masks_with cap (steps_of units.now) mask)) }
{
    let Some((unit, later)) = units.split_first() else {
        return add_some(masks, mask);
    };
    follow(later, cap, mask, masks)?;
    let mut taken = mask;
    for step in unit {
        taken = taken.joined(*step);
        if !taken.is_capped(cap) {
            return Ok(());
        }
        follow(later, cap, taken, masks)?;
    }
    Ok(())
}

fn add_group(alloc: Global, group: &Group, masks: &mut BTreeSet<Mask>) -> Result<(), MaskFault>
    requires { length masks.old.keys ≤ most_cuboids }
    ensures ok { OnOk result (masks.new.keys ≡ with_masks masks.old.keys (group_masks group.now)) }
    ensures at_most { OnOk result (length masks.new.keys ≤ most_cuboids) }
    ensures too_many { result ≡ Err MaskFault.TooManyCuboids
        → most_cuboids < length (with_masks masks.old.keys (group_masks group.now)) }
    ensures sound { IsSound group.now }
{
    let units = group.units(alloc).map_err(|_| MaskFault::Memory)?;
    let mandatory = group.mandatory_mask();
    let cap = group.cap();
    if !mandatory.is_capped(cap) {
        return Ok(());
    }
    follow(units.as_slice(), cap, mandatory, masks)
}

fn listed(alloc: Global, masks: BTreeSet<Mask>) -> Result<Vec<Mask>, AllocError>
    ensures { IfOk result (λ v. v.items ≡ masks.keys) }
{
    masks.into_iter().collect(alloc)
}

/// The masks that a cube with n dimensions and these groups builds: the base, which has all n
/// dimensions, and every set that a group gives. They rise, and each stands once, however many
/// groups give it. No group at all leaves the base alone.
///
/// The sets of a group are made from its rules one by one, and the work ends with the first mask
/// that is too many, so a group of many dimensions is read in the time of the masks that it gives.
pub fn valid_masks(alloc: Global, n: u32, groups: &[Group]) -> Result<Vec<Mask>, MaskFault>
    requires some { 1 ≤ n }
    requires few { n ≤ most_dimensions }
    requires included { AreOf n groups.now }
    ensures each { IfOk result (λ v. (m : Mask) → Contains v.items m ↔ IsBuilt n groups.now (has m)) }
    ensures rising { IfOk result (λ v. IsRising v.items) }
    ensures base { IfOk result (λ v. (0 < vec_len v) × HasBase v.items) }
    ensures ok { IfOk result (λ v. v.items ≡ built_masks n groups.now) }
    ensures at_most { IfOk result (λ v. vec_len v ≤ most_cuboids) }
    ensures too_many { result ≡ Err MaskFault.TooManyCuboids → most_cuboids < length (built_masks n groups.now) }
{
    let mut masks = BTreeSet::new(alloc);
    add(&mut masks, Mask((1 << n) - 1))?;
    for group in groups {
        add_group(alloc, group, &mut masks)?;
    }
    let rising = listed(alloc, masks).map_err(|_| MaskFault::Memory)?;
    Ok(rising)
}
