//! What holds of all dates.

ghost use Rattle.calendar.specs.Laws.{DatesAreRead, DatesAreCounted, DaysHaveTexts};

/// The function that readers of formats cite gives a day exactly where the bytes are its text.
pub fn dates_are_read()
    ensures { DatesAreRead }
{}

/// A day has one text, a text is of one day, and no day comes after 9999-12-31.
pub fn dates_are_counted()
    ensures { DatesAreCounted }
{}

/// The text of a day is a function of its number: its ten bytes in the calendar.
pub fn days_have_texts()
    ensures { DaysHaveTexts }
{}
