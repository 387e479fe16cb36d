// Aggregation groups, and the cuboids that they give.

ghost use Rattle.std.specs.Prelude.{◌≡◌, ◌<◌, ◌≤◌, ◌∷◌, ◌++◌, ℕ, List, [], OnOk, map, length, IfOk, IfSome, Option, None, Some, Err, MatchOption, unwrap_or, bytes_eq, false, true};
ghost use Rattle.std.specs.List.{flat_map, list_all, position};
ghost use Rattle.agg_group.specs.Limits.{most_dimensions};
ghost use Rattle.agg_group.specs.Rules.{lists_of};
ghost use Rattle.desc_checks.specs.Firsts.{first};
ghost use Rattle.cube_desc.specs.Groups.{dimension_number, dimensions_of, cap_of, rules_of, are_dimensions, has_dimensions, is_group, bad_group, bad_groups, groups_of, masks_of, too_many_cuboids};

use agg_group::{DimList, Group, GroupFault, Mask, MaskFault, valid_masks};
use cube_val::Items;
use descriptor_json::{JsonPointer, RawDesc, RawGroup, RawName, RawNumber};
use std::alloc::{AllocError, Global};

/// Why there are no groups.
#[derive(Drop)]
pub(crate) enum GroupStop {
    /// The group at this place is none, and each before it is one.
    At(JsonPointer),
    /// There is no memory for the groups.
    Memory,
}

impl From<AllocError> for GroupStop {
    ghost use Rattle.std.specs.Prelude.{◌≡◌};
    ghost use Rattle.cube_desc.specs.declared.groups.GroupStop.TheVariants as stop;

    ghost from_gives = { λ _ s. s ≡ stop.Memory };

    fn from(_error: AllocError) -> GroupStop {
        GroupStop::Memory
    }
}

fn is_text(own: &RawName, text: &RawName) -> bool
    ensures { result ≡ bytes_eq own.now.text text.now.text }
{
    own.text.bytes() == text.text.bytes()
}

fn dimension_number(rowkey: &[RawName], text: &RawName) -> Option<usize>
    ensures number { result ≡ dimension_number rowkey.now text.now }
    ensures bound { IfSome result (λ i. i < length rowkey.now) }
{
    rowkey.iter().position(|own| is_text(own, text))
}

/// The number of the text's dimension, or 0 where it has none.
fn number_or_0(rowkey: &[RawName], text: &RawName) -> u32
    requires { length rowkey.now ≤ most_dimensions }
    ensures { result ≡ unwrap_or (dimension_number rowkey.now text.now) 0 }
{
    match dimension_number(rowkey, text) {
        Some(i) => i as u32,
        None => 0,
    }
}

fn are_dimensions(rowkey: &[RawName], texts: &[RawName]) -> bool
    ensures { result ≡ are_dimensions rowkey.now texts.now }
{
    texts.iter().all(|t| dimension_number(rowkey, t).is_some())
}

fn all_are_dimensions(rowkey: &[RawName], lists: &[Items<RawName>]) -> bool
    ensures { result ≡ list_all (are_dimensions rowkey.now) lists.now }
{
    lists
        .iter()
        .all(|texts| are_dimensions(rowkey, texts.as_slice()))
}

fn has_dimensions(rowkey: &[RawName], group: &RawGroup) -> bool
    ensures { result ≡ has_dimensions rowkey.now group.now }
{
    let rule = &group.rule;
    are_dimensions(rowkey, group.includes.as_slice())
        && are_dimensions(rowkey, rule.mandatory.as_slice())
        && all_are_dimensions(rowkey, rule.hierarchies.as_slice())
        && all_are_dimensions(rowkey, rule.joints.as_slice())
}

fn dimensions_of(
    alloc: Global,
    rowkey: &[RawName],
    texts: &[RawName],
) -> Result<DimList, AllocError>
    requires { length rowkey.now ≤ most_dimensions }
    ensures { IfOk result (λ v. v.items ≡ dimensions_of rowkey.now texts.now) }
{
    let mut numbers = DimList::new(alloc);
    for text in texts {
        numbers.push(number_or_0(rowkey, text))?;
    }
    Ok(numbers)
}

fn lists_of(
    alloc: Global,
    rowkey: &[RawName],
    lists: &[Items<RawName>],
) -> Result<Vec<DimList>, AllocError>
    requires { length rowkey.now ≤ most_dimensions }
    ensures { IfOk result (λ v. lists_of v.items ≡ map (dimensions_of rowkey.now) lists.now) }
{
    let mut numbers = Vec::new(alloc);
    for texts in lists {
        numbers.push(dimensions_of(alloc, rowkey, texts.as_slice())?)?;
    }
    Ok(numbers)
}

// The cap, or 0, which is none, for a number that isn't whole.
fn cap_of(cap: Option<RawNumber>) -> Option<u32>
    ensures { result ≡ cap_of cap }
{
    match cap {
        None => None,
        Some(RawNumber::Whole(most)) => Some(most),
        Some(RawNumber::Other) => Some(0),
    }
}

/// The group, or none where it names a column that isn't in the rowkey, or its lists have a fault.
fn group_of(
    alloc: Global,
    rowkey: &[RawName],
    group: &RawGroup,
) -> Result<Option<Group>, AllocError>
    requires some { 0 < length rowkey.now }
    requires few { length rowkey.now ≤ most_dimensions }
    ensures { IfOk result (λ o. MatchOption o (is_group rowkey.now group.now ≡ false)
        (λ g. (is_group rowkey.now group.now ≡ true) × (g ≡ rules_of rowkey.now group.now))) }
{
    if !has_dimensions(rowkey, group) {
        return Ok(None);
    }
    let rule = &group.rule;
    let includes = dimensions_of(alloc, rowkey, group.includes.as_slice())?;
    let mandatory = dimensions_of(alloc, rowkey, rule.mandatory.as_slice())?;
    let hierarchies = lists_of(alloc, rowkey, rule.hierarchies.as_slice())?;
    let joints = lists_of(alloc, rowkey, rule.joints.as_slice())?;
    match Group::new(
        alloc,
        includes.as_slice(),
        mandatory.as_slice(),
        hierarchies.as_slice(),
        joints.as_slice(),
        cap_of(rule.cap),
    ) {
        Ok(group) => Ok(Some(group)),
        Err(GroupFault::Memory) => Err(AllocError),
        Err(_) => Ok(None),
    }
}

fn add_group(groups: &mut Vec<Group>, group: Group) -> Result<(), AllocError>
    ensures { OnOk result (groups.new.items ≡ groups.old.items ++ group ∷ []) }
{
    groups.push(group)?;
    Ok(())
}

/// The groups, with numbers for their dimensions.
pub(crate) fn groups_of(alloc: Global, raw: &RawDesc) -> Result<Vec<Group>, GroupStop>
    requires some { 0 < length raw.now.rowkey.items }
    requires few { length raw.now.rowkey.items ≤ most_dimensions }
    ensures groups { IfOk result (λ v. v.items ≡ groups_of raw.now) }
    ensures none_bad { IfOk result (λ v. first (bad_groups raw.now) ≡ None) }
    ensures bad { (p : List ℕ) → result ≡ Err (GroupStop.At p) → first (bad_groups raw.now) ≡ Some p }
{
    let (rowkey, groups) = (&raw.rowkey, &raw.groups);
    let keys = rowkey.items.as_slice();
    let mut made = Vec::new(alloc);
    for group in groups.items.as_slice() {
        match group_of(alloc, keys, group)? {
            Some(group) => add_group(&mut made, group)?,
            None => return Err(GroupStop::At(group.place.copy(alloc)?)),
        }
    }
    Ok(made)
}

/// The masks of the cuboids that the groups give, rising, or none where they are too many.
pub(crate) fn masks_of(
    alloc: Global,
    raw: &RawDesc,
    groups: &[Group],
) -> Result<Option<Vec<Mask>>, AllocError>
    requires some { 0 < length raw.now.rowkey.items }
    requires few { length raw.now.rowkey.items ≤ most_dimensions }
    requires groups { groups.now ≡ groups_of raw.now }
    ensures { IfOk result (λ o. MatchOption o (first (too_many_cuboids raw.now) ≡ Some raw.now.groups.place)
        (λ v. (first (too_many_cuboids raw.now) ≡ None) × (v.items ≡ masks_of raw.now))) }
{
    let rowkey = &raw.rowkey;
    let n = rowkey.items.len() as u32;
    match valid_masks(alloc, n, groups) {
        Ok(masks) => Ok(Some(masks)),
        Err(MaskFault::TooManyCuboids) => Ok(None),
        Err(MaskFault::Memory) => Err(AllocError),
    }
}
