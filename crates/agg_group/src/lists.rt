// The lists of a group before they are tested, and the tests.

ghost use Rattle.std.specs.Prelude.{◌≡◌, count_by};
ghost use Rattle.std.specs.List.{list_any};
ghost use Rattle.agg_group.specs.Sets.{is_among};
ghost use Rattle.agg_group.specs.Rules.{lists_of, rule_lists};
ghost use Rattle.agg_group.specs.Faults.{has_repeat, repeats, has_other, strays, is_in_two, overlaps, is_short, has_short, is_bad_cap, group_fault};

use crate::built::MOST_DIMENSIONS;
use crate::fault::GroupFault;
use crate::group::DimList;

/// The lists that a group is made of.
#[derive(Clone, Copy)]
pub(crate) struct Lists<'a> {
    pub(crate) includes: &'a [u32],
    pub(crate) mandatory: &'a [u32],
    pub(crate) hierarchies: &'a [DimList],
    pub(crate) joints: &'a [DimList],
    pub(crate) cap: Option<u32>,
}

fn has_repeat(dims: &[u32]) -> bool
    ensures { result ≡ has_repeat dims.now }
{
    for i in 0..dims.len() {
        let later = &dims[i + 1..];
        if later.contains(&dims[i]) {
            return true;
        }
    }
    false
}

fn has_other(includes: &[u32], dims: &[u32]) -> bool
    ensures { result ≡ has_other includes.now dims.now }
{
    dims.iter().any(|d| !includes.contains(d))
}

fn some_repeats(lists: &[DimList]) -> bool
    ensures { result ≡ list_any has_repeat (lists_of lists.now) }
{
    lists.iter().any(|list| has_repeat(list.as_slice()))
}

fn some_has_other(includes: &[u32], lists: &[DimList]) -> bool
    ensures { result ≡ list_any (has_other includes.now) (lists_of lists.now) }
{
    lists
        .iter()
        .any(|list| has_other(includes, list.as_slice()))
}

fn some_is_short(lists: &[DimList]) -> bool
    ensures { result ≡ list_any is_short (lists_of lists.now) }
{
    lists.iter().any(|list| list.len() < 2)
}

fn count_with(lists: &[DimList], d: u32) -> usize
    ensures { result ≡ count_by (is_among d) (lists_of lists.now) }
{
    let mut count = 0;
    for list in lists {
        if list.as_slice().contains(&d) {
            count += 1;
        }
    }
    count
}

fn is_bad_cap(cap: Option<u32>) -> bool
    ensures { result ≡ is_bad_cap cap }
{
    match cap {
        None => false,
        Some(most) => most < 1 || most > MOST_DIMENSIONS,
    }
}

impl Lists<'_> {
    ghost use Rattle.agg_group.specs.GroupLists.{rules};

    fn repeats(&self) -> bool
        ensures { result ≡ repeats (rules self.now) }
    {
        has_repeat(self.includes)
            || has_repeat(self.mandatory)
            || some_repeats(self.hierarchies)
            || some_repeats(self.joints)
    }

    fn strays(&self) -> bool
        ensures { result ≡ strays (rules self.now) }
    {
        has_other(self.includes, self.mandatory)
            || some_has_other(self.includes, self.hierarchies)
            || some_has_other(self.includes, self.joints)
    }

    fn is_in_two(&self, d: u32) -> bool
        ensures { result ≡ is_in_two (rule_lists (rules self.now)) d }
    {
        usize::from(self.mandatory.contains(&d))
            .saturating_add(count_with(self.hierarchies, d))
            .saturating_add(count_with(self.joints, d))
            > 1
    }

    fn overlaps(&self) -> bool
        ensures { result ≡ overlaps (rules self.now) }
    {
        for d in 0..64 {
            if self.is_in_two(d) {
                return true;
            }
        }
        false
    }

    fn has_short(&self) -> bool
        ensures { result ≡ has_short (rules self.now) }
    {
        some_is_short(self.hierarchies) || some_is_short(self.joints)
    }

    /// The first fault of the lists, in the order of `GroupFault`'s variants.
    pub(crate) fn first_fault(&self) -> Option<GroupFault>
        ensures { result ≡ group_fault (rules self.now) }
    {
        if self.includes.is_empty() {
            return Some(GroupFault::EmptyIncludes);
        }
        if self.repeats() {
            return Some(GroupFault::Repeat);
        }
        if self.strays() {
            return Some(GroupFault::NotIncluded);
        }
        if self.overlaps() {
            return Some(GroupFault::TwoRules);
        }
        if self.has_short() {
            return Some(GroupFault::Short);
        }
        if is_bad_cap(self.cap) {
            return Some(GroupFault::BadCap);
        }
        None
    }
}
