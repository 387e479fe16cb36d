// The trait of measures.

ghost use Rattle.std.specs.Prelude.{◌≡◌, ◌≤◌, ◌+◌, ℕ, List, [], ◌∷◌, OnOk, OnErr};
ghost use Rattle.measure_laws.specs.Measures.{MeasureLaws, most_items};

use std::alloc::{AllocError, Global};

/// The forms of measure that a cube keeps. But a count of rows, each is of the values of a column, and passes over nulls.
#[derive(Clone, Copy, Debug, PartialEq, Eq)]
pub enum MeasureForm {
    /// How many rows there are.
    Count,
    /// How many values of a column aren't null.
    Known,
    /// The sum of the items.
    Sum,
    /// The least item.
    Min,
    /// The greatest item.
    Max,
    /// The different items.
    Distinct,
}

/// The measure of a list of items, which is kept as they come and merged with the measures of other lists.
/// A measure is of at most 2^40 items.
pub trait Measure: Sized {
    /// What is measured.
    type Item: Copy;

    // How many items a measure is of.
    ghost items: { Self → ℕ };

    // The measure of a list of items.
    ghost of_items: { List Self.Item → Self };

    // The measure of two lists joined, from the measure of each.
    ghost merged: { Self → Self → Self };

    /// The measure of no item. It takes no memory; the allocator is for what is added later.
    fn zero(alloc: Global) -> Self
        ensures { result ≡ of_items [] };

    /// Takes one more item.
    fn add(&mut self, v: Self::Item) -> Result<(), AllocError>
        requires { items self.old + 1 ≤ most_items }
        ensures ok { OnOk result (self.new ≡ merged self.old (of_items (v ∷ []))) }
        ensures err { OnErr result (self.new ≡ self.old) };

    /// Takes the items of another measure.
    fn merge(&mut self, o: &Self) -> Result<(), AllocError>
        requires { items self.old + items o.now ≤ most_items }
        ensures ok { OnOk result (self.new ≡ merged self.old o.now) }
        ensures err { OnErr result (self.new ≡ self.old) };

    // The laws of measures, which each `impl` proves.
    ghost laws: { MeasureLaws items of_items merged };
}
