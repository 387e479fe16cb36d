//! The definitions at single dates.

ghost use Rattle.std.specs.Prelude.{◌≡◌, Some, None, codes};
ghost use Rattle.calendar.specs.Dates.{day_of, day_number};
ghost use Rattle.calendar.specs.DayTexts.{day_text};

/// The first and the last day, leap days, and what is no date.
pub fn worked_examples()
    ensures first { day_of (codes "0000-01-01") ≡ Some 0 }
    ensures last { day_of (codes "9999-12-31") ≡ Some 3_652_424 }
    ensures leap { day_of (codes "2000-02-29") ≡ Some 730_544 }
    ensures leap_year { day_of (codes "2012-03-01") ≡ Some 734_928 }
    ensures century { day_of (codes "1900-02-29") ≡ None }
    ensures february { day_of (codes "2012-02-30") ≡ None }
    ensures month { day_of (codes "2012-13-01") ≡ None }
    ensures short { day_of (codes "2012-1-1") ≡ None }
    ensures leap_text { day_text 734_927 ≡ codes "2012-02-29" }
    ensures last_text { day_text 3_652_424 ≡ codes "9999-12-31" }
    ensures sign { day_of (codes "+012-01-01") ≡ None }
{}
