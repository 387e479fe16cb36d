// The segments of the next set.

ghost use Rattle.std.specs.Prelude.{◌≡◌, ◌<◌, ◌++◌, ◌∷◌, [], IfOk, OnOk, false, filter, length, map, remove, true};
ghost use Rattle.std.specs.Arc.{arc_value};
ghost use Rattle.range_list.specs.Ranges.{IsRange};
ghost use Rattle.segment_store.specs.ReadySets.{stays, swapped_in};

use crate::segment::Segment;
use outside::Honest;
use range_list::Range;
use std::alloc::{AllocError, Global};
use std::sync::Arc;

/// On which side of a new segment others stay.
#[derive(Clone, Copy)]
pub(crate) enum Side {
    /// Those that start earlier.
    Before,
    /// Those that start later.
    Behind,
}

// Whether a segment stays on a side of a new range.
fn stays_at<H: Honest>(side: Side, range: Range, segment: &Segment<H>) -> bool
    ensures { result ≡ stays side range segment.now }
{
    let own = segment.range();
    let is_inside = range.start() <= own.start() && own.end() <= range.end();
    let is_earlier = own.start() < range.start();
    match side {
        Side::Before => !is_inside && is_earlier,
        Side::Behind => !is_inside && !is_earlier,
    }
}

// Puts a segment last, where it stays.
fn add_if<H: Honest + Drop>(
    kept: &mut Vec<Arc<Segment<H>>>,
    segment: &Arc<Segment<H>>,
    stays: bool,
) -> Result<(), AllocError>
    ensures stays { OnOk result (stays ≡ true → map arc_value kept.new.items ≡ map arc_value kept.old.items ++ arc_value segment.now ∷ []) }
    ensures goes { OnOk result (stays ≡ false → map arc_value kept.new.items ≡ map arc_value kept.old.items) }
{
    if stays {
        kept.push(segment.clone()?)?;
    }
    Ok(())
}

// Adds the segments that stay on a side of a new range, in their order. They are shared.
fn add_staying<H: Honest + Drop>(
    kept: &mut Vec<Arc<Segment<H>>>,
    segments: &[Arc<Segment<H>>],
    range: Range,
    side: Side,
) -> Result<(), AllocError>
    ensures { OnOk result (map arc_value kept.new.items ≡ map arc_value kept.old.items ++ filter (stays side range) (map arc_value segments.now)) }
{
    for segment in segments {
        add_if(kept, segment, stays_at(side, range, segment))?;
    }
    Ok(())
}

// Adds segments, in their order. They are shared.
fn add_all<H: Honest + Drop>(
    kept: &mut Vec<Arc<Segment<H>>>,
    segments: &[Arc<Segment<H>>],
) -> Result<(), AllocError>
    ensures { OnOk result (map arc_value kept.new.items ≡ map arc_value kept.old.items ++ map arc_value segments.now) }
{
    for segment in segments {
        add_if(kept, segment, true)?;
    }
    Ok(())
}

/// The segments after a swap: those that stay are shared.
pub(crate) fn segments_with<H: Honest + Drop>(
    alloc: Global,
    segments: &[Arc<Segment<H>>],
    new: &Arc<Segment<H>>,
) -> Result<Vec<Arc<Segment<H>>>, AllocError>
    ensures list { IfOk result (λ list. map arc_value list.items ≡ swapped_in (arc_value new.now) (map arc_value segments.now)) }
    ensures range { IfOk result (λ _. IsRange (arc_value new.now).range) }
{
    let range = new.range();
    let mut list = Vec::new(alloc);
    add_staying(&mut list, segments, range, Side::Before)?;
    add_if(&mut list, new, true)?;
    add_staying(&mut list, segments, range, Side::Behind)?;
    Ok(list)
}

/// The segments but that at a place. They are shared.
pub(crate) fn segments_without<H: Honest + Drop>(
    alloc: Global,
    segments: &[Arc<Segment<H>>],
    i: usize,
) -> Result<Vec<Arc<Segment<H>>>, AllocError>
    requires { i < length segments.now }
    ensures { IfOk result (λ list. map arc_value list.items ≡ remove (map arc_value segments.now) i) }
{
    let front = segments.split_at(i);
    let back = segments.split_at(i + 1);
    let mut list = Vec::new(alloc);
    add_all(&mut list, front.0)?;
    add_all(&mut list, back.1)?;
    Ok(list)
}
