//! Dictionaries: the distinct values of a column in their order, numbered 0, 1, 2 and so on.
//!
//! A segment numbers the values of each rowkey column, and of each column whose different values it counts, by such a
//! dictionary; all layers above compare numbers where a reader of the answer sees values. Null is a value like any other
//! and comes first. The crate stands on the values of `cube_val` and on the definition of distinct keys; it knows neither
//! columns nor segments.
//!
//! At its boundary: a `Dict` is strictly rising and has fewer than 2^32 values, so a smaller value has a smaller number;
//! a `Remap` rises strictly, so a key that is renumbered by it keeps its order.
//!
//! The modules: `dict`: a dictionary and its look-ups; `merge`: the dictionary of all parts, with the new number of each
//! old one; `lists`: lists of dictionaries and of new numbers; `sorting`: the distinct values among references;
//! `laws`: what holds of all dictionaries; `examples`: the definitions on a few values.
#![tactic(auto)]

mod dict;
mod examples;
mod laws;
mod lists;
mod merge;
mod sorting;

pub use dict::Dict;
pub use examples::worked_examples;
pub use laws::{dictionaries_are_distinct_values, numbers_keep_order};
pub use lists::{DictSet, Remap};
