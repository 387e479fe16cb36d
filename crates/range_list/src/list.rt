//! Lists of ranges that rise and have no day in common.

ghost use Rattle.std.specs.Prelude.{◌≡◌, ◌↔◌, ◌≤◌, ◌<◌, ℕ, [], length, slice_get, slice_index_or, insert, remove, Some, IsNone, IfSome, IfNone, IfOk, OnErr};
ghost use Rattle.range_list.specs.Ranges.{Interval, IsApart, IsFree, IsFirstOverlap, IsOffBounds, IsOnBounds, IsFirstFreeDay, Fills};
ghost use Rattle.range_list.specs.declared.cover.Cover.TheVariants.{NotOnBounds, Hole, Parts};

use crate::cover::{Cover, covered_by};
use crate::range::Range;
use calendar::Day;
use std::alloc::{AllocError, Global};
use std::marker::Model;

/// Ranges that rise strictly and of which no two overlap. Contracts see the list of them.
#[derive(Drop)]
pub struct RangeList {
    ranges: Vec<Range>,
}

impl Model for RangeList {
    ghost use Rattle.std.specs.Prelude.{List};
    ghost use Rattle.range_list.specs.Ranges.{Interval, IsApart};

    ghost Value = { List Interval };

    ghost view = { λ l. l.ranges.items };

    ghost invariant = { λ l. IsApart l.ranges.items };
}

/// How many ranges end at or before the day.
pub fn ended_by(ranges: &[Range], day: Day) -> usize
    requires { IsApart ranges.now }
    ensures within { result ≤ length ranges.now }
    ensures ended { (k : ℕ) (d : Interval) → k < result → (slice_index_or ranges.now k d).end ≤ day }
    ensures later { (k : ℕ) (d : Interval) → result ≤ k → k < length ranges.now → day < (slice_index_or ranges.now k d).end }
{
    let mut low = 0;
    let mut high = ranges.len();
    while low < high {
        let middle = low + (high - low) / 2;
        let range = &ranges[middle];
        if range.end() <= day {
            low = middle + 1;
        } else {
            high = middle;
        }
    }
    low
}

// The least place of a range that overlaps r.
fn overlap_place(ranges: &[Range], r: &Range) -> Option<usize>
    requires { IsApart ranges.now }
    ensures found { IfSome result (λ i. IsFirstOverlap ranges.now r.now i) }
    ensures free { IfNone result (IsFree ranges.now r.now) }
    ensures only_free { IsFree ranges.now r.now → IsNone result }
{
    let i = ended_by(ranges, r.start());
    if i == ranges.len() {
        return None;
    }
    let range = &ranges[i];
    if range.start() < r.end() {
        Some(i)
    } else {
        None
    }
}

impl RangeList {
    /// The empty list.
    pub fn new(alloc: Global) -> RangeList
        ensures { result ≡ [] }
    {
        RangeList {
            ranges: Vec::new(alloc),
        }
    }

    /// How many ranges the list has.
    pub fn len(&self) -> usize
        ensures count { result ≡ length self.now }
        ensures apart { IsApart self.now }
    {
        self.ranges.len()
    }

    /// The range at the place.
    pub fn get(&self, i: usize) -> Range
        requires { i < length self.now }
        ensures { slice_get self.now i ≡ Some result }
    {
        self.ranges[i]
    }

    /// The least place of a range that overlaps `r`; `None` exactly where none does.
    pub fn find_overlap(&self, r: &Range) -> Option<usize>
        ensures found { IfSome result (λ i. IsFirstOverlap self.now r.now i) }
        ensures free { IfNone result (IsFree self.now r.now) }
        ensures only_free { IsFree self.now r.now → IsNone result }
    {
        overlap_place(self.ranges.as_slice(), r)
    }

    /// How the ranges of the list cover `r`: whether it starts and ends where ranges of the list do, and
    /// then whether they fill it.
    pub fn covering(&self, r: &Range) -> Cover
        ensures off_bounds { (result ≡ NotOnBounds) ↔ IsOffBounds self.now r.now }
        ensures hole { (day : ℕ) → (result ≡ Hole day) ↔ (IsOnBounds self.now r.now × IsFirstFreeDay self.now r.now day) }
        ensures parts { (first count : ℕ) → (result ≡ Parts first count) ↔ Fills self.now r.now first count }
    {
        covered_by(self.ranges.as_slice(), r)
    }

    /// Puts a range that overlaps none of the list into its place, which is returned. Where memory is
    /// refused, the list is as before.
    pub fn insert(&mut self, r: Range) -> Result<usize, AllocError>
        requires { IsFree self.old r }
        ensures place { IfOk result (λ i. i ≤ length self.old) }
        ensures inserted { IfOk result (λ i. self.new ≡ insert self.old i r) }
        ensures apart { IsApart self.new }
        ensures refused { OnErr result (self.new ≡ self.old) }
    {
        let i = ended_by(self.ranges.as_slice(), r.start());
        self.ranges.insert(i, r)?;
        Ok(i)
    }

    /// Takes the range at the place out of the list.
    pub fn remove(&mut self, i: usize) -> Range
        requires { i < length self.old }
        ensures range { slice_get self.old i ≡ Some result }
        ensures rest { self.new ≡ remove self.old i }
        ensures apart { IsApart self.new }
    {
        self.ranges.remove(i)
    }
}
