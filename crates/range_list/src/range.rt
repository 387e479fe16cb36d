//! One range of days.

ghost use Rattle.std.specs.Prelude.{◌≡◌, ◌↔◌, ◌≤◌, ◌<◌, IsTrue, IsNone, IfSome};
ghost use Rattle.range_list.specs.Ranges.{Interval, Holds, Overlaps};

use calendar::Day;
use std::marker::Model;

/// A range of days, from its start to the day before its end. The start comes before the end.
#[derive(Clone, Copy, PartialEq, Eq, Debug)]
pub struct Range {
    start: Day,
    end: Day,
}

impl Model for Range {
    ghost use Rattle.range_list.specs.Ranges.{Interval, IsRange};

    ghost Value = { Interval };

    ghost view = { λ r. record { start = r.start; end = r.end } };

    ghost invariant = { λ r. IsRange (record { start = r.start; end = r.end }) };

    ghost inverse = { λ r. record { start = r.start; end = r.end } };
}

impl Range {
    /// The days from `start` to the day before `end`; `None` exactly where the start isn't before the end.
    pub fn new(start: Day, end: Day) -> Option<Range>
        ensures none { IsNone result ↔ (end ≤ start) }
        ensures range { IfSome result (λ r. (r.start ≡ start) × (r.end ≡ end)) }
    {
        if start < end {
            Some(Range { start, end })
        } else {
            None
        }
    }

    /// The first day.
    pub fn start(&self) -> Day
        ensures value { result ≡ self.now.start }
        ensures before { result < self.now.end }
    {
        self.start
    }

    /// The day after the last one.
    pub fn end(&self) -> Day
        ensures value { result ≡ self.now.end }
        ensures after { self.now.start < result }
    {
        self.end
    }

    /// Whether the day lies in the range.
    pub fn holds(&self, d: Day) -> bool
        ensures { IsTrue result ↔ Holds self.now d }
    {
        self.start <= d && d < self.end
    }

    /// Whether some day lies in both ranges. Ranges that only touch have none.
    pub fn overlaps(&self, o: &Range) -> bool
        ensures { IsTrue result ↔ Overlaps self.now o.now }
    {
        self.start < o.end && o.start < self.end
    }
}
