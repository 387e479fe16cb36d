// Ready sets.

ghost use Rattle.std.specs.Prelude.{◌≡◌, ◌≤◌, ◌<◌, ◌+◌, ◌++◌, ◌∷◌, ◌^◌, [], All, IfOk, OnOk, Some, length, map, remove, slice_get};
ghost use Rattle.std.specs.Arc.{arc_value};
ghost use Rattle.range_list.specs.Ranges.{IsApart};
ghost use Rattle.run_history.specs.Sets.{dropped, swapped};
ghost use Rattle.run_history.specs.Verdicts.{most_segments};
ghost use Rattle.segment_store.specs.declared.parts.SegmentParts.{SegmentParts};
ghost use Rattle.segment_store.specs.ReadySets.{AreReplaced, IsReady, ranges_of, segment_of, swapped_in};

use crate::segment::Segment;
use crate::staying::{segments_with, segments_without};
use outside::Honest;
use range_list::{Range, RangeList};
use std::alloc::{AllocError, Global};
use std::marker::Model;
use std::sync::Arc;

/// The segments that are ready at one moment, by rising ranges, with the number of the set. Contracts see both.
#[derive(Drop)]
pub struct ReadySet<H: Honest> {
    alloc: Global,
    version: u32,
    ranges: RangeList,
    segments: Vec<Arc<Segment<H>>>,
}

impl<H: Honest> Model for ReadySet<H> {
    ghost use Rattle.std.specs.Prelude.{◌≡◌, map};
    ghost use Rattle.std.specs.Arc.{arc_value};
    ghost use Rattle.segment_store.specs.ReadySets.{IsReady, Ready, ranges_of, ready_code};

    ghost Value = { Ready };

    ghost coded = { ready_code };

    ghost view = { λ s. record { version = s.version; segments = map arc_value s.segments.items } };

    ghost invariant = { λ s. IsReady (map arc_value s.segments.items) × (s.ranges ≡ ranges_of (map arc_value s.segments.items)) };
}

// Puts a range last that starts where the others end, or later.
fn add_last(ranges: &mut RangeList, range: Range) -> Result<(), AllocError>
    requires { All (λ earlier. earlier.end ≤ range.start) ranges.old }
    ensures { OnOk result (ranges.new ≡ ranges.old ++ range ∷ []) }
{
    ranges.insert(range)?;
    Ok(())
}

// The ranges of segments.
fn ranges_in<H: Honest>(
    alloc: Global,
    segments: &[Arc<Segment<H>>],
) -> Result<RangeList, AllocError>
    requires { IsApart (ranges_of (map arc_value segments.now)) }
    ensures { IfOk result (λ ranges. ranges ≡ ranges_of (map arc_value segments.now)) }
{
    let mut ranges = RangeList::new(alloc);
    for segment in segments {
        add_last(&mut ranges, segment.range())?;
    }
    Ok(ranges)
}

// The set of these segments.
fn set_of<H: Honest + Drop>(
    alloc: Global,
    version: u32,
    segments: Vec<Arc<Segment<H>>>,
) -> Result<ReadySet<H>, AllocError>
    requires { IsReady (map arc_value segments.items) }
    ensures { IfOk result (λ set. set ≡ record { version = version; segments = map arc_value segments.items }) }
{
    let ranges = ranges_in(alloc, segments.as_slice())?;
    Ok(ReadySet {
        alloc,
        version,
        ranges,
        segments,
    })
}

// The segments behind pointers that are shared.
fn shared<H: Honest + Drop>(
    alloc: Global,
    segments: Vec<Segment<H>>,
) -> Result<Vec<Arc<Segment<H>>>, AllocError>
    ensures { IfOk result (λ list. map arc_value list.items ≡ segments.items) }
{
    let mut list = Vec::new(alloc);
    for segment in segments {
        list.push(Arc::new(alloc, segment)?)?;
    }
    Ok(list)
}

impl<H: Honest> ReadySet<H> {
    /// The number of the set.
    pub fn version(&self) -> u32
        ensures { result ≡ self.now.version }
    {
        self.version
    }

    /// How many segments there are, at most 128.
    pub fn len(&self) -> usize
        ensures len { result ≡ length self.now.segments }
        ensures ready { IsReady self.now.segments }
    {
        self.segments.len()
    }

    /// Their ranges.
    pub fn ranges(&self) -> &RangeList
        ensures { result.now ≡ ranges_of self.now.segments }
    {
        &self.ranges
    }

    /// The segment at a place.
    pub fn segment(&self, i: usize) -> &Segment<H>
        requires { i < length self.now.segments }
        ensures { slice_get self.now.segments i ≡ Some result.now }
    {
        &self.segments[i]
    }
}

impl<H: Honest + Drop> ReadySet<H> {
    /// The set number 0 of no segment.
    pub fn empty(alloc: Global) -> ReadySet<H>
        ensures { result ≡ record { version = 0; segments = [] } }
    {
        ReadySet {
            alloc,
            version: 0,
            ranges: RangeList::new(alloc),
            segments: Vec::new(alloc),
        }
    }

    /// The set number 0 of these segments, which a run starts with.
    pub fn of(alloc: Global, segments: Vec<Segment<H>>) -> Result<ReadySet<H>, AllocError>
        requires { IsReady segments.items }
        ensures { IfOk result (λ set. set ≡ record { version = 0; segments = segments.items }) }
    {
        let list = shared(alloc, segments)?;
        set_of(alloc, 0, list)
    }

    /// The next set: the segments inside the new one's range go, and it comes. This set stays as it is.
    pub fn swap_in(&self, segment: Segment<H>) -> Result<ReadySet<H>, AllocError>
        requires replaced { AreReplaced segment.range self.now.segments }
        requires few { length (swapped_in segment self.now.segments) ≤ most_segments }
        requires version { self.now.version + 1 < 2 ^ 32 }
        ensures version { IfOk result (λ set. set.version ≡ self.now.version + 1) }
        ensures segments { IfOk result (λ set. set.segments ≡ swapped_in segment self.now.segments) }
        ensures history { IfOk result (λ set. map segment_of set.segments ≡ swapped (segment_of segment) (map segment_of self.now.segments)) }
    {
        let new = Arc::new(self.alloc, segment)?;
        let list = segments_with(self.alloc, self.segments.as_slice(), &new)?;
        let next = self.version + 1;
        let set = set_of(self.alloc, next, list)?;
        Ok(set)
    }

    /// The next set, without the segment at a place. This set stays as it is.
    pub fn without(&self, i: usize) -> Result<ReadySet<H>, AllocError>
        requires place { i < length self.now.segments }
        requires version { self.now.version + 1 < 2 ^ 32 }
        ensures version { IfOk result (λ set. set.version ≡ self.now.version + 1) }
        ensures segments { IfOk result (λ set. set.segments ≡ remove self.now.segments i) }
        ensures history { IfOk result (λ set. (gone : SegmentParts) → slice_get self.now.segments i ≡ Some gone → map segment_of set.segments ≡ dropped gone.range (map segment_of self.now.segments)) }
    {
        let list = segments_without(self.alloc, self.segments.as_slice(), i)?;
        let set = set_of(self.alloc, self.version + 1, list)?;
        Ok(set)
    }
}
