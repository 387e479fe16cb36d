// Ready sets.

ghost use Rattle.std.specs.Prelude.{◌≡◌, ◌≤◌, ◌<◌, ◌+◌, ◌^◌, [], IfOk, insert, length, map};
ghost use Rattle.std.specs.Arc.{arc_value};
ghost use Rattle.range_list.specs.Ranges.{IsFree};
ghost use Rattle.run_history.specs.Invariants.{ranges_of};
ghost use Rattle.run_state.specs.Numbered.{after_swap};
ghost use Rattle.fixed_state.specs.Ready.{IsPlaced, as_segment, cells_in};

use crate::cells::SharedCells;
use crate::table::SharedTable;
use range_list::{Range, RangeList};
use run_state::ReadyHandle;
use std::alloc::{AllocError, Global};
use std::marker::Model;
use std::sync::Arc;

/// A ready segment: its range, the job that made it, the tables of that job's first claim, and its cells.
#[derive(Drop)]
pub struct KeptSegment {
    pub range: Range,
    pub job: u32,
    pub tables: Vec<Option<SharedTable>>,
    pub cells: SharedCells,
}

/// A ready set: segments in rising order of their ranges, which are apart, and the version. Contracts see the set, with what the rows of
/// each segment come from, and the cells of each.
#[derive(Drop)]
pub struct FixedReady {
    segments: Vec<Arc<KeptSegment>>,
    ranges: RangeList,
    version: u32,
}

impl Model for FixedReady {
    ghost use Rattle.std.specs.Prelude.{◌≡◌, map};
    ghost use Rattle.std.specs.Arc.{arc_value};
    ghost use Rattle.run_history.specs.Invariants.{ranges_of};
    ghost use Rattle.fixed_state.specs.Ready.{ReadyModel, ready_of};

    ghost Value = { ReadyModel };

    ghost view = { λ r. ready_of (map arc_value r.segments.items) r.version };

    ghost invariant = { λ r. r.ranges ≡ ranges_of (ready_of (map arc_value r.segments.items) r.version).set.segments };
}

impl ReadyHandle for FixedReady {
    ghost ready_set = { λ r. r.set };

    fn ranges(&self) -> &RangeList {
        &self.ranges
    }

    fn version(&self) -> u32 {
        self.version
    }
}

// The same ranges once more.
fn copied_ranges(alloc: Global, ranges: &RangeList) -> Result<RangeList, AllocError>
    ensures { IfOk result (λ copied. copied ≡ ranges.now) }
{
    let mut copied = RangeList::new(alloc);
    for place in 0..ranges.len() {
        let range = ranges.get(place);
        copied.insert(range)?;
    }
    Ok(copied)
}

// Other handles of the same segments.
fn copied(alloc: Global, segments: &[Arc<KeptSegment>]) -> Result<Vec<Arc<KeptSegment>>, AllocError>
    ensures { IfOk result (λ copied. map arc_value copied.items ≡ map arc_value segments.now) }
{
    let mut copied = Vec::new(alloc);
    for segment in segments {
        let copy = segment.clone()?;
        copied.push(copy)?;
    }
    Ok(copied)
}

fn shared(alloc: Global, segment: KeptSegment) -> Result<Arc<KeptSegment>, AllocError>
    ensures { IfOk result (λ shared. arc_value shared ≡ segment) }
{
    match Arc::new(alloc, segment) {
        Ok(shared) => Ok(shared),
        Err(_) => Err(AllocError),
    }
}

// The segments with one more at a place.
fn with_segment(
    alloc: Global,
    segments: &[Arc<KeptSegment>],
    place: usize,
    segment: KeptSegment,
) -> Result<Vec<Arc<KeptSegment>>, AllocError>
    requires { place ≤ length segments.now }
    ensures { IfOk result (λ next. map arc_value next.items ≡ insert (map arc_value segments.now) place segment) }
{
    let mut next = copied(alloc, segments)?;
    let shared = shared(alloc, segment)?;
    next.insert(place, shared)?;
    Ok(next)
}

impl FixedReady {
    /// The set of no segment, of version 0.
    pub fn new(alloc: Global) -> FixedReady
        ensures { result ≡ record { set = record { segments = []; version = 0 }; cells = [] } }
    {
        FixedReady {
            segments: Vec::new(alloc),
            ranges: RangeList::new(alloc),
            version: 0,
        }
    }

    /// How many segments there are.
    pub fn len(&self) -> usize
        ensures { result ≡ length self.now.set.segments }
    {
        self.segments.len()
    }

    /// The next set: this one with a segment more, in its place.
    pub fn with(&self, alloc: Global, segment: KeptSegment) -> Result<FixedReady, AllocError>
        requires free { IsFree (ranges_of self.now.set.segments) segment.range }
        requires version { self.now.set.version + 1 < 2 ^ 32 }
        ensures set { IfOk result (λ next. next.set ≡ after_swap (as_segment segment) self.now.set) }
        ensures placed { IfOk result (λ next. IsPlaced (as_segment segment) self.now.set.segments next.set.segments segment.cells self.now.cells next.cells) }
    {
        let mut ranges = copied_ranges(alloc, &self.ranges)?;
        let place = ranges.insert(segment.range)?;
        let segments = with_segment(alloc, self.segments.as_slice(), place, segment)?;
        Ok(FixedReady {
            segments,
            ranges,
            version: self.version + 1,
        })
    }

    /// The segments.
    pub(crate) fn segments(&self) -> &[Arc<KeptSegment>]
        ensures { map (λ segment. cells_in (arc_value segment)) result.now ≡ self.now.cells }
    {
        &self.segments
    }
}
