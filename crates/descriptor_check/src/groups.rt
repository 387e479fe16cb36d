// The lines of aggregation groups and of the cuboids that they give.

ghost use Rattle.std.specs.Prelude.{◌≡◌, ◌<◌, All, IsTrue};
ghost use Rattle.agg_group.specs.Rules.{lists_of, AreDimensions};

use crate::words::{number, parted};
use agg_group::{DimList, Group, GroupFault, Mask, MaskFault, valid_masks};
use check_lines::{out_of_memory, unknown_line};
use cuboid_tree::SpanTree;
use std::alloc::Global;
use std::io;
use std::io::Write;

/// Whether each dimension is below n.
pub fn are_below(dims: &[u32], n: u32) -> bool
    ensures { IsTrue result → All (λ d. d < n) dims.now }
{
    dims.iter().all(|d| *d < n)
}

fn are_small(lists: &[DimList]) -> bool
    ensures { IsTrue result → All AreDimensions (lists_of lists.now) }
{
    for list in lists {
        if !are_below(list.as_slice(), 64) {
            return false;
        }
    }
    true
}

fn include_below(groups: &[Group], n: u32) -> bool
    ensures { IsTrue result → All (λ g. All (λ d. d < n) g.includes) groups.now }
{
    for group in groups {
        if !are_below(group.includes(), n) {
            return false;
        }
    }
    true
}

/// Dimensions with a comma between two.
pub fn dims(alloc: Global, text: &str) -> io::Result<DimList> {
    let mut list = DimList::new(alloc);
    if text.is_empty() {
        return Ok(list);
    }
    for word in text.split(',') {
        list.push(number(word)?)?;
    }
    Ok(list)
}

// Lists with a semicolon between two; none for the empty text.
fn lists(alloc: Global, text: &str) -> io::Result<Vec<DimList>> {
    let mut lists = Vec::new(alloc);
    if text.is_empty() {
        return Ok(lists);
    }
    for list in text.split(';') {
        lists.push(dims(alloc, list)?)?;
    }
    Ok(lists)
}

// No cap for the empty text.
fn most(text: &str) -> io::Result<Option<u32>> {
    if text.is_empty() {
        return Ok(None);
    }
    Ok(Some(number(text)?))
}

// The lists of a group, before they are tested.
#[derive(Drop)]
struct GroupLists {
    includes: DimList,
    mandatory: DimList,
    hierarchies: Vec<DimList>,
    joints: Vec<DimList>,
    cap: Option<u32>,
}

fn group_lists(alloc: Global, text: &str) -> io::Result<GroupLists> {
    let mut fields = text.split('|');
    let includes = dims(alloc, fields.next().unwrap_or(""))?;
    let mandatory = dims(alloc, fields.next().unwrap_or(""))?;
    let hierarchies = lists(alloc, fields.next().unwrap_or(""))?;
    let joints = lists(alloc, fields.next().unwrap_or(""))?;
    let cap = most(fields.next().unwrap_or(""))?;
    Ok(GroupLists {
        includes,
        mandatory,
        hierarchies,
        joints,
        cap,
    })
}

fn group_of(alloc: Global, lists: &GroupLists) -> Result<Group, GroupFault> {
    let (includes, mandatory) = (lists.includes.as_slice(), lists.mandatory.as_slice());
    let (hierarchies, joints) = (lists.hierarchies.as_slice(), lists.joints.as_slice());
    if !are_below(includes, 64) {
        return Err(GroupFault::Memory);
    }
    if !are_below(mandatory, 64) {
        return Err(GroupFault::Memory);
    }
    if !are_small(hierarchies) {
        return Err(GroupFault::Memory);
    }
    if !are_small(joints) {
        return Err(GroupFault::Memory);
    }
    Group::new(alloc, includes, mandatory, hierarchies, joints, lists.cap)
}

fn read_group(alloc: Global, text: &str) -> io::Result<Result<Group, GroupFault>> {
    let lists = group_lists(alloc, text)?;
    Ok(group_of(alloc, &lists))
}

pub fn answer_group<W: Write>(alloc: Global, text: &str, out: &mut W) -> io::Result<()> {
    match read_group(alloc, text)? {
        Ok(_) => out.write_all(b"no fault\n"),
        Err(GroupFault::Memory) => Err(out_of_memory()),
        Err(fault) => writeln!(out, "{fault:?}"),
    }
}

fn add_group(alloc: Global, text: &str, groups: &mut Vec<Group>) -> io::Result<()> {
    match read_group(alloc, text)? {
        Ok(group) => Ok(groups.push(group)?),
        Err(_) => Err(unknown_line()),
    }
}

fn groups_of(alloc: Global, text: &str) -> io::Result<Vec<Group>> {
    let mut groups = Vec::new(alloc);
    for group in text.split('/') {
        add_group(alloc, group, &mut groups)?;
    }
    Ok(groups)
}

fn masks_of(alloc: Global, n: u32, groups: &[Group]) -> io::Result<Result<Vec<Mask>, MaskFault>> {
    if n < 1 || n > 40 {
        return Err(unknown_line());
    }
    if !include_below(groups, n) {
        return Err(unknown_line());
    }
    Ok(valid_masks(alloc, n, groups))
}

fn read_masks(alloc: Global, rest: &str) -> io::Result<Result<Vec<Mask>, MaskFault>> {
    let (word, text) = parted(rest)?;
    let n = number(word)?;
    let groups = groups_of(alloc, text)?;
    masks_of(alloc, n, groups.as_slice())
}

fn put_masks<W: Write>(masks: &[Mask], out: &mut W) -> io::Result<()> {
    out.write_all(b"masks")?;
    for mask in masks {
        let number = mask.0;
        write!(out, " {number}")?;
    }
    out.write_all(b"\n")
}

fn put_mask_fault<W: Write>(fault: MaskFault, out: &mut W) -> io::Result<()> {
    match fault {
        MaskFault::Memory => Err(out_of_memory()),
        MaskFault::TooManyCuboids => out.write_all(b"TooManyCuboids\n"),
    }
}

pub fn answer_masks<W: Write>(alloc: Global, rest: &str, out: &mut W) -> io::Result<()> {
    match read_masks(alloc, rest)? {
        Ok(masks) => put_masks(masks.as_slice(), out),
        Err(fault) => put_mask_fault(fault, out),
    }
}

pub fn answer_count<W: Write>(alloc: Global, rest: &str, out: &mut W) -> io::Result<()> {
    match read_masks(alloc, rest)? {
        Ok(masks) => {
            let count = masks.len();
            writeln!(out, "count {count}")
        }
        Err(fault) => put_mask_fault(fault, out),
    }
}

// The tree over the masks of a cube with n dimensions.
fn spanned(alloc: Global, n: u32, groups: &[Group]) -> io::Result<SpanTree> {
    if n < 1 || n > 40 {
        return Err(unknown_line());
    }
    if !include_below(groups, n) {
        return Err(unknown_line());
    }
    match valid_masks(alloc, n, groups) {
        Ok(masks) => Ok(SpanTree::build(alloc, masks.as_slice())?),
        Err(_) => Err(unknown_line()),
    }
}

/// The tree of the cuboids that `N GROUPS` give.
pub fn tree_of(alloc: Global, rest: &str) -> io::Result<SpanTree> {
    let (word, text) = parted(rest)?;
    let n = number(word)?;
    let groups = groups_of(alloc, text)?;
    spanned(alloc, n, groups.as_slice())
}
