//! How the ranges of a list cover another range.

ghost use Rattle.std.specs.Prelude.{◌≡◌, ◌≢◌, ◌≤◌, ◌<◌, ◌+◌, ℕ, All, length, slice_index_or, IfSome, IfNone};
ghost use Rattle.range_list.specs.Ranges.{Interval, IsRange, IsApart, AreJoined};
ghost use Rattle.range_list.specs.Covers.{Covers};

use crate::list::ended_by;
use crate::range::Range;
use calendar::Day;

/// How the ranges of a list cover a range.
#[derive(Clone, Copy, PartialEq, Eq, Debug)]
pub enum Cover {
    /// No range of the list starts where the range starts, or none ends where it ends.
    NotOnBounds,
    /// The first day in the range that no range of the list holds.
    Hole(Day),
    /// The `count` ranges from the place `first` on fill the range end to end.
    Parts { first: usize, count: usize },
}

// The place of the range that starts on the day.
fn start_place(ranges: &[Range], day: Day) -> Option<usize>
    requires { IsApart ranges.now }
    ensures within { IfSome result (λ i. i < length ranges.now) }
    ensures there { IfSome result (λ i. (d : Interval) → (slice_index_or ranges.now i d).start ≡ day) }
    ensures none { IfNone result (All (λ s. s.start ≢ day) ranges.now) }
{
    let i = ended_by(ranges, day);
    if i == ranges.len() {
        return None;
    }
    let range = &ranges[i];
    if range.start() == day { Some(i) } else { None }
}

// The place of the range that ends on the day.
fn end_place(ranges: &[Range], day: Day) -> Option<usize>
    requires { IsApart ranges.now }
    ensures within { IfSome result (λ i. i < length ranges.now) }
    ensures there { IfSome result (λ i. (d : Interval) → (slice_index_or ranges.now i d).end ≡ day) }
    ensures none { IfNone result (All (λ s. s.end ≢ day) ranges.now) }
{
    let after = ended_by(ranges, day);
    if after == 0 {
        return None;
    }
    let range = &ranges[after - 1];
    if range.end() == day {
        Some(after - 1)
    } else {
        None
    }
}

// The first place from `first` to before `last` whose range ends before the next one starts.
fn first_gap(ranges: &[Range], first: usize, last: usize) -> Option<usize>
    requires { last < length ranges.now }
    ensures within { IfSome result (λ k. (first ≤ k) × (k < last)) }
    ensures joined { IfSome result (λ k. AreJoined ranges.now first k) }
    ensures gap { IfSome result (λ k. (d : Interval) → (slice_index_or ranges.now k d).end ≢ (slice_index_or ranges.now (k + 1) d).start) }
    ensures none { IfNone result (AreJoined ranges.now first last) }
{
    for k in first..last {
        let range = &ranges[k];
        let next = &ranges[k + 1];
        if range.end() != next.start() {
            return Some(k);
        }
    }
    None
}

/// How the ranges cover `r`.
pub fn covered_by(ranges: &[Range], r: &Range) -> Cover
    requires { IsApart ranges.now }
    ensures covers { Covers ranges.now r.now result }
    ensures range { IsRange r.now }
{
    let Some(first) = start_place(ranges, r.start()) else {
        return Cover::NotOnBounds;
    };
    let Some(last) = end_place(ranges, r.end()) else {
        return Cover::NotOnBounds;
    };
    match first_gap(ranges, first, last) {
        Some(k) => {
            let range = &ranges[k];
            Cover::Hole(range.end())
        }
        None => Cover::Parts {
            first,
            count: last + 1 - first,
        },
    }
}
