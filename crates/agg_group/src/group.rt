// Aggregation groups.

ghost use Rattle.std.specs.Prelude.{◌≡◌, ◌≢◌, ◌∷◌, ◌++◌, [], map, Some, IfOk, IfErr, OnOk};
ghost use Rattle.agg_group.specs.Rules.{lists_of, rules_of, HasDimensions};
ghost use Rattle.agg_group.specs.Faults.{group_fault, IsSound};
ghost use Rattle.agg_group.specs.Units.{whole, is_free, free_dimensions, units_of, mask_of, mask_units};
ghost use Rattle.agg_group.specs.UnitLists.{steps_of};

use crate::fault::GroupFault;
use crate::lists::Lists;
use crate::mask::Mask;
use crate::units::{Unit, add_dimension, add_hierarchies, add_joints, some_has};
use smallvec::SmallVec;
use std::alloc::{AllocError, Global};
use std::marker::Model;

/// A short list of dimensions.
pub type DimList = SmallVec<u32, 8>;

/// An aggregation group: the dimensions that it includes, and the rules that say which sets of them
/// are cuboids. Its lists are free of every fault of `GroupFault`.
#[derive(Debug, Drop)]
pub struct Group {
    includes: DimList,
    mandatory: DimList,
    hierarchies: Vec<DimList>,
    joints: Vec<DimList>,
    cap: Option<u32>,
}

impl Model for Group {
    ghost use Rattle.agg_group.specs.Rules.{Rules, rules_of};
    ghost use Rattle.agg_group.specs.Faults.{IsSound};

    ghost Value = { Rules };

    ghost view = { λ g. rules_of g.includes.items g.mandatory.items g.hierarchies.items g.joints.items g.cap };

    ghost invariant = { λ g. IsSound (rules_of g.includes.items g.mandatory.items g.hierarchies.items g.joints.items g.cap) };
}

fn copied(alloc: Global, dims: &[u32]) -> Result<DimList, AllocError>
    ensures { IfOk result (λ v. v.items ≡ dims.now) }
{
    SmallVec::from_slice(alloc, dims)
}

fn copied_all(alloc: Global, lists: &[DimList]) -> Result<Vec<DimList>, AllocError>
    ensures { IfOk result (λ v. lists_of v.items ≡ lists_of lists.now) }
{
    let mut copies = Vec::new(alloc);
    for list in lists {
        copies.push(copied(alloc, list.as_slice())?)?;
    }
    Ok(copies)
}

impl Group {
    /// A group of these lists. A hierarchy is listed from its first member to its last. The cap, where
    /// there is one, is how many dimensions a cuboid of the group may have, mandatory ones counted.
    ///
    /// The answer is the first fault that applies, in the order of `GroupFault`'s variants; want of
    /// memory may stand in its place.
    pub fn new(
        alloc: Global,
        includes: &[u32],
        mandatory: &[u32],
        hierarchies: &[DimList],
        joints: &[DimList],
        cap: Option<u32>,
    ) -> Result<Group, GroupFault>
        requires { HasDimensions (rules_of includes.now mandatory.now hierarchies.now joints.now cap) }
        ensures ok { IfOk result
            (λ g. g ≡ rules_of includes.now mandatory.now hierarchies.now joints.now cap) }
        ensures sound { IfOk result IsSound }
        ensures refused { IfErr result (λ e. e ≢ GroupFault.Memory
            → group_fault (rules_of includes.now mandatory.now hierarchies.now joints.now cap) ≡ Some e) }
    {
        let lists = Lists {
            includes,
            mandatory,
            hierarchies,
            joints,
            cap,
        };
        if let Some(fault) = lists.first_fault() {
            return Err(fault);
        }
        Ok(Group {
            includes: copied(alloc, includes).map_err(|_| GroupFault::Memory)?,
            mandatory: copied(alloc, mandatory).map_err(|_| GroupFault::Memory)?,
            hierarchies: copied_all(alloc, hierarchies).map_err(|_| GroupFault::Memory)?,
            joints: copied_all(alloc, joints).map_err(|_| GroupFault::Memory)?,
            cap,
        })
    }

    /// The dimensions that the group includes, in the order given.
    pub fn includes(&self) -> &[u32]
        ensures value { result.now ≡ self.now.includes }
        ensures sound { IsSound self.now }
    {
        self.includes.as_slice()
    }

    /// The mandatory dimensions: every cuboid of the group has them.
    pub fn mandatory(&self) -> &[u32]
        ensures { result.now ≡ self.now.mandatory }
    {
        self.mandatory.as_slice()
    }

    /// The hierarchies, each from its first member to its last: a cuboid with a member has all earlier ones.
    pub fn hierarchies(&self) -> &[DimList]
        ensures { lists_of result.now ≡ self.now.hierarchies }
    {
        self.hierarchies.as_slice()
    }

    /// The joints: a cuboid has all members of a joint or none.
    pub fn joints(&self) -> &[DimList]
        ensures { lists_of result.now ≡ self.now.joints }
    {
        self.joints.as_slice()
    }

    /// The most dimensions that a cuboid of the group may have, mandatory ones counted.
    pub fn cap(&self) -> Option<u32>
        ensures { result ≡ self.now.cap }
    {
        self.cap
    }

    /// The set of the mandatory dimensions.
    pub(crate) fn mandatory_mask(&self) -> Mask
        ensures { result ≡ mask_of self.now.mandatory }
    {
        Mask::of(self.mandatory.as_slice())
    }

    // No rule has the dimension.
    fn is_free(&self, d: u32) -> bool
        ensures { result ≡ is_free self.now d }
    {
        !(self.mandatory.as_slice().contains(&d)
            || some_has(self.hierarchies.as_slice(), d)
            || some_has(self.joints.as_slice(), d))
    }

    fn add_free(&self, alloc: Global, units: &mut Vec<Unit>) -> Result<(), AllocError>
        ensures { OnOk result (steps_of units.new.items
            ≡ steps_of units.old.items ++ mask_units (map (λ d. whole (d ∷ [])) (free_dimensions self.now))) }
    {
        for d in self.includes.as_slice() {
            if self.is_free(*d) {
                add_dimension(alloc, *d, units)?;
            }
        }
        Ok(())
    }

    /// The group's units: its hierarchies, its joints, and the dimensions without a rule.
    pub(crate) fn units(&self, alloc: Global) -> Result<Vec<Unit>, AllocError>
        ensures value { IfOk result (λ v. steps_of v.items ≡ mask_units (units_of self.now)) }
        ensures sound { IsSound self.now }
    {
        let mut units = Vec::new(alloc);
        add_hierarchies(alloc, self.hierarchies.as_slice(), &mut units)?;
        add_joints(alloc, self.joints.as_slice(), &mut units)?;
        self.add_free(alloc, &mut units)?;
        Ok(units)
    }
}
