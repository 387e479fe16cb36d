// Reading a descriptor.

ghost use Rattle.std.specs.Prelude.{◌≡◌, ◌<◌, ◌≤◌, ℕ, List, [], IfOk, Ok, Err, Some, None, Option, length};
ghost use Rattle.descriptor_json.specs.Bytes.{shaped, shape_of};
ghost use Rattle.desc_checks.specs.Firsts.{first};
ghost use Rattle.desc_checks.specs.Faults.{faults};
ghost use Rattle.desc_checks.specs.declared.kind.DescFault.{DescFault};
ghost use Rattle.cube_desc.specs.Meaning.{described, meaning, desc_of};
ghost use Rattle.cube_desc.specs.Groups.{bad_groups, too_many_cuboids, groups_of, masks_of};
ghost use Rattle.cube_desc.specs.Resolve.{cube_of};

use crate::desc::{CubeDesc, CubeParts};
use crate::groups::{GroupStop, groups_of, masks_of};
use crate::resolve::{derived_columns, join_plan, measure_descs, rowkey_columns, table_descs};
use agg_group::{Group, Mask};
use cube_val::{Items, NameText};
use desc_checks::{DescFault, DescKind, first_fault};
use descriptor_json::{JsonPointer, RawDesc, ShapeFault, read_raw};
use std::alloc::{AllocError, Global};
use std::sync::Arc;

/// Why bytes aren't read as a descriptor.
#[derive(Debug, Drop)]
pub enum DescRefusal {
    /// They aren't one: the first check that fails, and the first place where it fails.
    Fault(DescFault),
    /// There is no memory for the descriptor.
    Memory,
}

impl From<AllocError> for DescRefusal {
    ghost use Rattle.std.specs.Prelude.{◌≡◌};
    ghost use Rattle.cube_desc.specs.declared.read.DescRefusal.TheVariants as refusal;

    ghost from_gives = { λ _ r. r ≡ refusal.Memory };

    fn from(_error: AllocError) -> DescRefusal {
        DescRefusal::Memory
    }
}

fn refusal(alloc: Global, kind: DescKind, place: &JsonPointer) -> DescRefusal
    ensures { (f : DescFault) → result ≡ DescRefusal.Fault f → f ≡ record { kind = kind; place = place.now } }
{
    match NameText::new(alloc, place.bytes()) {
        Ok(place) => DescRefusal::Fault(DescFault { kind, place }),
        Err(_) => DescRefusal::Memory,
    }
}

/// What a descriptor without a fault says.
fn resolved(
    alloc: Global,
    raw: &RawDesc,
    groups: Vec<Group>,
    masks: Vec<Mask>,
) -> Result<CubeParts, AllocError>
    requires groups { groups.items ≡ groups_of raw.now }
    requires masks { masks.items ≡ masks_of raw.now }
    ensures { IfOk result (λ c. c ≡ cube_of raw.now) }
{
    let own = &raw.name;
    let name = own.text.copy()?;
    let tables = table_descs(alloc, raw)?;
    let measures = measure_descs(alloc, raw)?;
    let rowkey = rowkey_columns(alloc, raw)?;
    let derived = derived_columns(alloc, raw)?;
    let plan = join_plan(alloc, raw)?;
    let plan = Arc::new(alloc, plan)?;
    Ok(CubeParts {
        name,
        tables,
        measures,
        rowkey: Items::of(rowkey),
        derived: Items::of(derived),
        groups: Items::of(groups),
        masks: Items::of(masks),
        plan,
    })
}

fn bad_group(alloc: Global, raw: &RawDesc, place: &JsonPointer) -> DescRefusal
    requires passed { first (faults raw.now) ≡ None }
    requires bad { first (bad_groups raw.now) ≡ Some place.now }
    ensures { (f : DescFault) → result ≡ DescRefusal.Fault f → described (shaped raw.now) ≡ Err f }
{
    refusal(alloc, DescKind::BadGroup, place)
}

fn too_many(alloc: Global, raw: &RawDesc) -> DescRefusal
    requires passed { first (faults raw.now) ≡ None }
    requires grouped { first (bad_groups raw.now) ≡ None }
    requires many { first (too_many_cuboids raw.now) ≡ Some raw.now.groups.place }
    ensures { (f : DescFault) → result ≡ DescRefusal.Fault f → described (shaped raw.now) ≡ Err f }
{
    let list = &raw.groups;
    refusal(alloc, DescKind::TooManyCuboids, &list.place)
}

fn accepted(
    alloc: Global,
    raw: &RawDesc,
    groups: Vec<Group>,
    masks: Vec<Mask>,
) -> Result<CubeParts, AllocError>
    requires passed { first (faults raw.now) ≡ None }
    requires grouped { first (bad_groups raw.now) ≡ None }
    requires few { first (too_many_cuboids raw.now) ≡ None }
    requires groups { groups.items ≡ groups_of raw.now }
    requires masks { masks.items ≡ masks_of raw.now }
    ensures { IfOk result (λ c. described (shaped raw.now) ≡ Ok c) }
{
    let parts = resolved(alloc, raw, groups, masks)?;
    Ok(parts)
}

/// Judges a descriptor that the checks of names and uses pass.
fn judge_groups(alloc: Global, raw: &RawDesc) -> Result<CubeParts, DescRefusal>
    requires { first (faults raw.now) ≡ None }
    ensures ok { IfOk result (λ c. described (shaped raw.now) ≡ Ok c) }
    ensures fault { (f : DescFault) → result ≡ Err (DescRefusal.Fault f) → described (shaped raw.now) ≡ Err f }
{
    let groups = match groups_of(alloc, raw) {
        Ok(groups) => groups,
        Err(GroupStop::At(place)) => return Err(bad_group(alloc, raw, &place)),
        Err(GroupStop::Memory) => return Err(DescRefusal::Memory),
    };
    let masks = match masks_of(alloc, raw, groups.as_slice()) {
        Ok(Some(masks)) => masks,
        Ok(None) => return Err(too_many(alloc, raw)),
        Err(_) => return Err(DescRefusal::Memory),
    };
    match accepted(alloc, raw, groups, masks) {
        Ok(parts) => Ok(parts),
        Err(_) => Err(DescRefusal::Memory),
    }
}

#[tactic(auto, using(crate::proofs::Judged::early))]
fn judge(alloc: Global, raw: &RawDesc) -> Result<CubeParts, DescRefusal>
    ensures ok { IfOk result (λ c. described (shaped raw.now) ≡ Ok c) }
    ensures fault { (f : DescFault) → result ≡ Err (DescRefusal.Fault f) → described (shaped raw.now) ≡ Err f }
{
    match first_fault(alloc, raw) {
        Ok(None) => judge_groups(alloc, raw),
        Ok(Some(fault)) => Err(DescRefusal::Fault(fault)),
        Err(_) => Err(DescRefusal::Memory),
    }
}

fn read_parts(alloc: Global, bytes: &[u8]) -> Result<CubeParts, DescRefusal>
    ensures ok { IfOk result (λ c. meaning bytes.now ≡ Ok c) }
    ensures fault { (f : DescFault) → result ≡ Err (DescRefusal.Fault f) → meaning bytes.now ≡ Err f }
{
    match read_raw(alloc, bytes) {
        Ok(raw) => judge(alloc, &raw),
        Err(ShapeFault::NotJson) => {
            Err(refusal(alloc, DescKind::NotJson, &JsonPointer::root(alloc)))
        }
        Err(ShapeFault::Shape(place)) => Err(refusal(alloc, DescKind::Shape, &place)),
        Err(ShapeFault::Memory) => Err(DescRefusal::Memory),
    }
}

/// Reads a descriptor. A refusal names the first check that fails, in the order of `DescKind`, and the first place where it
/// fails, in the order in which the descriptor's keys are listed; want of memory may stand in place of every answer.
pub fn read_desc(alloc: Global, bytes: &[u8]) -> Result<CubeDesc, DescRefusal>
    ensures ok { IfOk result (λ d. meaning bytes.now ≡ Ok d.cube) }
    ensures source { IfOk result (λ d. d.source ≡ bytes.now) }
    ensures fault { (f : DescFault) → result ≡ Err (DescRefusal.Fault f) → meaning bytes.now ≡ Err f }
{
    let parts = match read_parts(alloc, bytes) {
        Ok(parts) => parts,
        Err(refusal) => return Err(refusal),
    };
    match Vec::from_slice(alloc, bytes) {
        Ok(source) => Ok(CubeDesc::new(parts, source)),
        Err(_) => Err(DescRefusal::Memory),
    }
}
