// The units of a group, as masks.

ghost use Rattle.std.specs.Prelude.{◌≡◌, ◌∷◌, ◌++◌, ◌<◌, ℕ, List, [], All, map, IfOk, OnOk, not};
ghost use Rattle.std.specs.List.{list_any};
ghost use Rattle.agg_group.specs.Rules.{AreDimensions, lists_of};
ghost use Rattle.agg_group.specs.Sets.{is_among};
ghost use Rattle.agg_group.specs.Units.{members, whole, mask_of, mask_units};
ghost use Rattle.agg_group.specs.UnitLists.{steps_of};

use crate::group::DimList;
use crate::mask::Mask;
use std::alloc::{AllocError, Global};

/// The steps of a unit: of a hierarchy a step for each member, else one. A cuboid takes a front of them.
pub(crate) type Unit = Vec<Mask>;

fn members(alloc: Global, dims: &[u32]) -> Result<Unit, AllocError>
    requires { AreDimensions dims.now }
    ensures { IfOk result (λ v. v.items ≡ map mask_of (members dims.now)) }
{
    let mut steps = Vec::new(alloc);
    for d in dims {
        steps.push(Mask::of(&[*d]))?;
    }
    Ok(steps)
}

fn whole(alloc: Global, dims: &[u32]) -> Result<Unit, AllocError>
    requires { AreDimensions dims.now }
    ensures { IfOk result (λ v. v.items ≡ map mask_of (whole dims.now)) }
{
    let mut steps = Vec::new(alloc);
    steps.push(Mask::of(dims))?;
    Ok(steps)
}

fn add(units: &mut Vec<Unit>, unit: Unit) -> Result<(), AllocError>
    ensures { OnOk result (steps_of units.new.items ≡ steps_of units.old.items ++ unit.items ∷ []) }
{
    units.push(unit)?;
    Ok(())
}

/// Adds a unit for each hierarchy.
pub(crate) fn add_hierarchies(
    alloc: Global,
    hierarchies: &[DimList],
    units: &mut Vec<Unit>,
) -> Result<(), AllocError>
    requires { All AreDimensions (lists_of hierarchies.now) }
    ensures { OnOk result (steps_of units.new.items
        ≡ steps_of units.old.items ++ mask_units (map members (lists_of hierarchies.now))) }
{
    for hierarchy in hierarchies {
        add(units, members(alloc, hierarchy.as_slice())?)?;
    }
    Ok(())
}

/// Adds a unit for each joint.
pub(crate) fn add_joints(
    alloc: Global,
    joints: &[DimList],
    units: &mut Vec<Unit>,
) -> Result<(), AllocError>
    requires { All AreDimensions (lists_of joints.now) }
    ensures { OnOk result (steps_of units.new.items
        ≡ steps_of units.old.items ++ mask_units (map whole (lists_of joints.now))) }
{
    for joint in joints {
        add(units, whole(alloc, joint.as_slice())?)?;
    }
    Ok(())
}

/// Adds a unit for a dimension.
pub(crate) fn add_dimension(alloc: Global, d: u32, units: &mut Vec<Unit>) -> Result<(), AllocError>
    requires { d < 64 }
    ensures { OnOk result (steps_of units.new.items
        ≡ steps_of units.old.items ++ map mask_of (whole (d ∷ [])) ∷ []) }
{
    add(units, whole(alloc, &[d])?)?;
    Ok(())
}

/// Whether one of the lists has the dimension.
pub(crate) fn some_has(lists: &[DimList], d: u32) -> bool
    ensures { result ≡ list_any (is_among d) (lists_of lists.now) }
{
    lists.iter().any(|list| list.as_slice().contains(&d))
}
