//! The meaning of a query, as a slow program whose contract is the definition.
//!
//! An `Ask` is a bound query over rows of columns: a condition on rows, the columns to group by, the aggregates, a
//! condition on groups, an order and a limit. `plain` answers it from a list of rows by the definition itself: a filter
//! and folds over the whole list, with no state and no index. Whatever answers faster (cuboids, dictionaries, segments
//! scanned one by one and combined) is proved equal to this. `aggregate` gives the projections of rows on a set of dimensions
//! in the same way.
//!
//! The crate stands on `cube_val`, `agg_group`, `measure_laws` and `aggregation`. At its boundary:
//!
//! - `Ask`, `AnswerTable` and their parts are plain data in contracts: numbers, lists, and no pointers.
//! - Any ask has an answer. `IsSound` in `specs/Asks.antt` says which asks have a meaning in the query language; `plain`
//!   doesn't need it, since a column or an aggregate that isn't there reads as null.
//! - Numbers are compared in units of 1/10000, so whole numbers, decimals and averages stand in one order.
#![tactic(auto)]

mod aggregates;
mod answer;
mod answering;
mod ask;
mod cond;
mod eval;
mod examples;
mod grouped_table;
mod groups;
mod kinds;
mod laws;
mod out_ref;
mod projections;
mod rows;
mod terms;
mod truth;

pub use answer::{AnswerRow, AnswerTable, OutVal, PlainRow};
pub use answering::plain;
pub use ask::{Agg, AggKind, Ask, OrderKey, Out};
pub use cond::{Cond, Lit, Term, Test};
pub use eval::evaluate;
pub use examples::{examples_with_nulls, worked_examples};
pub use grouped_table::table;
pub use laws::groups_are_grouped;
pub use out_ref::OutRef;
pub use projections::aggregate;
pub use rows::FlatRows;
pub use terms::{GroupTerms, Terms};
pub use truth::Truth;
