//! Measures: what the items of a group of rows come to: their count, their sum, the least or the greatest of them, or the
//! set of the different ones.
//!
//! A bottom layer: it stands on `std` alone, and every crate that aggregates stands on it. The invariant at its
//! boundary is the record of laws that each `Measure` proves: merging is associative and commutative, the measure of
//! no item is neutral, and the measure of two lists joined is the merge of their measures. So rows may be aggregated
//! in any parts and in any order. The laws have no premise, since the value of a measure is a canonical form: equal
//! measures have equal values.
//!
//! What a form of measure is of, rows, values, numbers or the numbers of a dictionary, is said once: `MeasureForm::item_kind`.
#![tactic(auto)]

mod count;
mod examples;
mod id_set;
mod id_union;
mod kinds;
mod laws;
mod max;
mod measure;
mod min;
mod sum;

pub use count::Count;
pub use examples::{examples_of_extremes_and_sets, examples_of_kinds, worked_examples};
pub use id_set::IdSet;
pub use id_union::IdUnion;
pub use kinds::ItemKind;
pub use laws::laws_of_measure;
pub use max::Max;
pub use measure::{Measure, MeasureForm};
pub use min::Min;
pub use sum::Sum;
