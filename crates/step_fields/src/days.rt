// Days and ranges.

ghost use Rattle.std.specs.Prelude.{◌≡◌, ◌++◌, OnOk};
ghost use Rattle.calendar.specs.DayTexts.{day_text};
ghost use Rattle.step_fields.specs.Reading.{Finds, day_at, range_at};
ghost use Rattle.step_fields.specs.Spelling.{range_text};

use byte_frame::{FieldReader, put_bytes};
use calendar::Day;
use range_list::Range;
use std::alloc::AllocError;

/// A day; `None` exactly where its ten bytes don't stand in front.
pub fn take_day(r: &mut FieldReader) -> Option<Day>
    ensures { Finds result r.new (day_at r.old) }
{
    match r.take_bytes(10) {
        Some(bytes) => Day::read(bytes),
        None => None,
    }
}

/// A range; `None` exactly where two days, the first before the second, don't stand in front.
pub fn take_range(r: &mut FieldReader) -> Option<Range>
    ensures { Finds result r.new (range_at r.old) }
{
    let Some(start) = take_day(r) else {
        return None;
    };
    let Some(end) = take_day(r) else {
        return None;
    };
    Range::new(start, end)
}

/// Puts a day.
pub fn put_day(out: &mut Vec<u8>, day: Day) -> Result<(), AllocError>
    ensures { OnOk result (out.new.items ≡ out.old.items ++ day_text day) }
{
    put_bytes(out, &day.text())
}

/// Puts a range.
pub fn put_range(out: &mut Vec<u8>, range: &Range) -> Result<(), AllocError>
    ensures { OnOk result (out.new.items ≡ out.old.items ++ range_text range.now) }
{
    put_day(out, range.start())?;
    put_day(out, range.end())
}
