//! A day, its text and its number.

ghost use Rattle.std.specs.Prelude.{◌≡◌, ◌↔◌, ◌≤◌, ◌+◌, ◌+ℤ◌, ◌≤ℤ◌, pos, IsSome, IfSome, Some};
ghost use Rattle.jiff.specs.Words.{epoch_day, IsYmd, IsDate as IsJiffDate};
ghost use Rattle.calendar.specs.Dates.{IsCalendarDate, IsDate, IsDateText, day_of, day_with, day_number, last_day};
ghost use Rattle.calendar.specs.DayTexts.{day_text};

use crate::form::{byte_of_digit, is_date_form, number_at};
use jiff::civil::Date;
use jiff_core::civil;
use std::marker::Model;

/// A day of the years 0000 to 9999. Contracts see its number.
#[derive(Clone, Copy, PartialEq, Eq, PartialOrd, Ord, Debug)]
pub struct Day {
    number: u32,
}

impl Model for Day {
    ghost use Rattle.std.specs.Prelude.{ℕ, ◌≤◌};
    ghost use Rattle.calendar.specs.Dates.{last_day};

    ghost Value = { ℕ };

    ghost view = { λ d. d.number };

    ghost invariant = { λ d. d.number ≤ last_day };

    ghost inverse = { λ n. record { number = n } };
}

// The days from the first day that `jiff` has, -9999-01-01, to 0000-01-01.
const YEAR_ZERO: u32 = 3_652_059;

// The date with these parts, if the calendar has it.
fn date_of(year: u16, month: u8, day: u8) -> Option<Date>
    requires year { year ≤ 9999 }
    requires month { month ≤ 99 }
    requires day { day ≤ 99 }
    ensures there { IsSome result ↔ IsJiffDate (pos year) (pos month) (pos day) }
    ensures value { IfSome result (λ d. IsYmd (pos year) (pos month) (pos day) d) }
{
    Date::new(year as i16, month as i8, day as i8).ok()
}

fn year_of(date: Date) -> u16
    requires { pos 0 ≤ℤ date.year }
    ensures { date.year ≡ pos result }
{
    date.year() as u16
}

fn month_of(date: Date) -> u16
    ensures { result ≡ date.month }
{
    date.month() as u16
}

fn day_of_month(date: Date) -> u16
    ensures { result ≡ date.day }
{
    date.day() as u16
}

impl Day {
    /// The day whose text the bytes are; `None` exactly where they are not the ten bytes `YYYY-MM-DD` of
    /// a date that the calendar has.
    pub fn read(bytes: &[u8]) -> Option<Day>
        ensures exactly { IsSome result ↔ IsDate bytes.now }
        ensures text { IfSome result (λ day. IsDateText bytes.now day) }
        ensures computed { result ≡ day_of bytes.now }
    {
        if !is_date_form(bytes) {
            return None;
        }
        let year = number_at(bytes, 0) as u16 * 100 + number_at(bytes, 2) as u16;
        Day::with_parts(year, number_at(bytes, 5), number_at(bytes, 8))
    }

    // The day with these parts, if the calendar has it.
    fn with_parts(year: u16, month: u8, day: u8) -> Option<Day>
        requires year { year ≤ 9999 }
        requires month { month ≤ 99 }
        requires day { day ≤ 99 }
        ensures { result ≡ day_with year month day }
    {
        match date_of(year, month, day) {
            Some(date) => Some(Day::of_date(date)),
            None => None,
        }
    }

    // The number of a date that is not before 0000-01-01.
    fn of_date(date: Date) -> Day
        requires { pos 0 ≤ℤ date.year }
        ensures { epoch_day date +ℤ pos 719_528 ≡ pos result }
    {
        Day {
            number: date.to_plain().days_since_min() - YEAR_ZERO,
        }
    }

    /// The ten bytes `YYYY-MM-DD`, which are read again as the same day.
    pub fn text(&self) -> [u8; 10]
        ensures text { IsDateText result self.now }
        ensures again { day_of result ≡ Some self.now }
        ensures value { result ≡ day_text self.now }
    {
        let (year, month, day) = self.parts();
        [
            byte_of_digit(year / 1000),
            byte_of_digit(year / 100 % 10),
            byte_of_digit(year / 10 % 10),
            byte_of_digit(year % 10),
            b'-',
            byte_of_digit(month / 10),
            byte_of_digit(month % 10),
            b'-',
            byte_of_digit(day / 10),
            byte_of_digit(day % 10),
        ]
    }

    // The year, the month and the day of the month.
    fn parts(&self) -> (u16, u16, u16)
        ensures calendar { IsCalendarDate result.0 result.1 result.2 }
        ensures number { self.now ≡ day_number result.0 result.1 result.2 }
    {
        let date = self.date();
        (year_of(date), month_of(date), day_of_month(date))
    }

    // The date of the day.
    fn date(&self) -> Date
        ensures year { pos 0 ≤ℤ result.year }
        ensures number { epoch_day result +ℤ pos 719_528 ≡ pos self.now }
    {
        Date::from_plain(civil::Date::from_days_since_min(self.number + YEAR_ZERO))
    }

    /// The days since 0000-01-01.
    pub fn number(&self) -> u32
        ensures value { result ≡ self.now }
        ensures last { result ≤ last_day }
    {
        self.number
    }
}
