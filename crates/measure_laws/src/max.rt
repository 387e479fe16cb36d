// The greatest item.

ghost use Rattle.std.specs.Prelude.{◌≡◌, ◌≤◌, ◌<◌, ◌+◌, ◌∷◌, ◌↔◌, [], IsNone, Ok, Some};
ghost use Rattle.std.specs.Int.{int_max};
ghost use Rattle.measure_laws.specs.Extremes.{greatest_of, merged_greatest, picked};
ghost use Rattle.measure_laws.specs.ExtremeFacts.{greatest_laws};
ghost use Rattle.measure_laws.specs.Measures.{most_items};

use crate::measure::Measure;
use std::alloc::{AllocError, Global};
use std::marker::Model;

/// The greatest of the items, and how many there are.
#[derive(Drop)]
pub struct Max {
    items: u64,
    greatest: Option<i64>,
}

impl Model for Max {
    ghost use Rattle.measure_laws.specs.Extremes.{Extreme, IsExtreme};

    ghost Value = { Extreme };

    ghost view = { λ m. record { items = m.items; value = m.greatest } };

    ghost invariant = { λ m. IsExtreme (record { items = m.items; value = m.greatest }) };
}

// The greatest of two numbers; where there is but one, that one.
fn greater(a: Option<i64>, b: Option<i64>) -> Option<i64>
    ensures { result ≡ picked int_max a b }
{
    match (a, b) {
        (None, b) => b,
        (Some(x), None) => Some(x),
        (Some(x), Some(y)) => Some(x.max(y)),
    }
}

impl Max {
    /// The greatest `greatest` of this many items; of no item there is none.
    pub fn of(items: u64, greatest: i64) -> Max
        requires { items ≤ most_items }
        ensures items { result.items ≡ items }
        ensures some { 0 < items → result.value ≡ Some greatest }
        ensures none { items ≡ 0 → result ≡ greatest_of [] }
    {
        let greatest = if items == 0 { None } else { Some(greatest) };
        Max { items, greatest }
    }

    /// The greatest of the items, if there is one.
    pub fn value(&self) -> Option<i64>
        ensures value { result ≡ self.now.value }
        ensures none { IsNone result ↔ (self.now.items ≡ 0) }
    {
        self.greatest
    }

    /// How many items there are.
    pub fn items(&self) -> u64
        ensures items { result ≡ self.now.items }
        ensures bound { self.now.items ≤ most_items }
    {
        self.items
    }
}

impl Measure for Max {
    type Item = i64;

    ghost items = { λ m. m.items };

    ghost of_items = { greatest_of };

    ghost merged = { merged_greatest };

    ghost laws = { greatest_laws };

    fn zero(_alloc: Global) -> Max {
        Max {
            items: 0,
            greatest: None,
        }
    }

    fn add(&mut self, v: i64) -> Result<(), AllocError>
        requires { self.old.items + 1 ≤ most_items }
        ensures always { result ≡ Ok tt }
        ensures value { self.new ≡ merged_greatest self.old (greatest_of (v ∷ [])) }
    {
        self.items += 1;
        self.greatest = greater(self.greatest, Some(v));
        Ok(())
    }

    fn merge(&mut self, o: &Max) -> Result<(), AllocError>
        requires { self.old.items + o.now.items ≤ most_items }
        ensures always { result ≡ Ok tt }
        ensures value { self.new ≡ merged_greatest self.old o.now }
    {
        self.items += o.items;
        self.greatest = greater(self.greatest, o.greatest);
        Ok(())
    }
}
