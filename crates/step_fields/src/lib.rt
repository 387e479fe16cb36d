//! The fields that step files are put together from: values, rows, lists of rows, days and ranges.
//!
//! The crate stands on `byte_frame`, whose readers and laws it uses, and on the types that it writes: the values of
//! `cube_val`, the days of `calendar`, the ranges of `range_list`. It holds no format of a whole file. A crate that has
//! one joins these fields with those of `byte_frame`, as the text of that crate's root says.
//!
//! Each field has four parts: the bytes that it is written as (`specs/Spelling.antt`), its reader
//! (`specs/Reading.antt`), what may stand in it (`specs/Fits.antt`), and the law that ties the three, by which a field is
//! read exactly ([`fields_are_exact`]). The terms of these laws are in `proofs/Exact.antt`, for the laws of the formats.
//!
//! At its boundary:
//!
//! - A value is read by its [`Column`]: its type, and whether a null may stand there. A value of another type is
//!   malformed, and so is a null where there may be none.
//! - A list of rows has a limit, and a count above it is malformed, whatever follows.
//! - A day is a date of the years 0000 to 9999, and a range has its first day before its second.
//! - The `put_` calls add exactly the bytes of the field. Where memory is refused, a part of them may have been added.
//!
//! The modules: `column`, `values`, `rows`, `days`, and `laws` and `examples`.
#![tactic(auto)]

mod column;
mod days;
mod examples;
mod laws;
mod rows;
mod values;

pub use column::Column;
pub use days::{put_day, put_range, take_day, take_range};
pub use examples::worked_examples;
pub use laws::fields_are_exact;
pub use rows::{RowOf, put_row, put_rows, read_rows};
pub use values::put_val;
