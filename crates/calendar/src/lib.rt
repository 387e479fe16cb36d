//! Days of the years 0000 to 9999.
//!
//! A [`Day`] is read from the ten bytes `YYYY-MM-DD` and written as them. The bytes are checked here, the
//! calendar is `jiff`'s. Contracts see a day as its number, the count of days since 0000-01-01, so days are
//! compared and ordered as numbers are. The crate stands on no other crate of the engine: values, ranges,
//! scripts and step files all take their dates from it.
//!
//! - `day`: the type with its calls.
//! - `form`: the ten bytes as digits and dashes.
//! - `laws`: what holds of all dates.
//! - `examples`: the definitions at single dates.
#![tactic(auto)]

mod day;
mod examples;
mod form;
mod laws;

pub use day::Day;
pub use examples::worked_examples;
pub use laws::{dates_are_counted, dates_are_read};
