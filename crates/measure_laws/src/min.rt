// The least item.

ghost use Rattle.std.specs.Prelude.{◌≡◌, ◌≤◌, ◌<◌, ◌+◌, ◌∷◌, ◌↔◌, [], IsNone, Ok, Some};
ghost use Rattle.std.specs.Int.{int_min};
ghost use Rattle.measure_laws.specs.Extremes.{least_of, merged_least, picked};
ghost use Rattle.measure_laws.specs.ExtremeFacts.{least_laws};
ghost use Rattle.measure_laws.specs.Measures.{most_items};

use crate::measure::Measure;
use std::alloc::{AllocError, Global};
use std::marker::Model;

/// The least of the items, and how many there are.
#[derive(Drop)]
pub struct Min {
    items: u64,
    least: Option<i64>,
}

impl Model for Min {
    ghost use Rattle.measure_laws.specs.Extremes.{Extreme, IsExtreme};

    ghost Value = { Extreme };

    ghost view = { λ m. record { items = m.items; value = m.least } };

    ghost invariant = { λ m. IsExtreme (record { items = m.items; value = m.least }) };
}

// The least of two numbers; where there is but one, that one.
fn lesser(a: Option<i64>, b: Option<i64>) -> Option<i64>
    ensures { result ≡ picked int_min a b }
{
    match (a, b) {
        (None, b) => b,
        (Some(x), None) => Some(x),
        (Some(x), Some(y)) => Some(x.min(y)),
    }
}

impl Min {
    /// The least `least` of this many items; of no item there is none.
    pub fn of(items: u64, least: i64) -> Min
        requires { items ≤ most_items }
        ensures items { result.items ≡ items }
        ensures some { 0 < items → result.value ≡ Some least }
        ensures none { items ≡ 0 → result ≡ least_of [] }
    {
        let least = if items == 0 { None } else { Some(least) };
        Min { items, least }
    }

    /// The least of the items, if there is one.
    pub fn value(&self) -> Option<i64>
        ensures value { result ≡ self.now.value }
        ensures none { IsNone result ↔ (self.now.items ≡ 0) }
    {
        self.least
    }

    /// How many items there are.
    pub fn items(&self) -> u64
        ensures items { result ≡ self.now.items }
        ensures bound { self.now.items ≤ most_items }
    {
        self.items
    }
}

impl Measure for Min {
    type Item = i64;

    ghost items = { λ m. m.items };

    ghost of_items = { least_of };

    ghost merged = { merged_least };

    ghost laws = { least_laws };

    fn zero(_alloc: Global) -> Min {
        Min {
            items: 0,
            least: None,
        }
    }

    fn add(&mut self, v: i64) -> Result<(), AllocError>
        requires { self.old.items + 1 ≤ most_items }
        ensures always { result ≡ Ok tt }
        ensures value { self.new ≡ merged_least self.old (least_of (v ∷ [])) }
    {
        self.items += 1;
        self.least = lesser(self.least, Some(v));
        Ok(())
    }

    fn merge(&mut self, o: &Min) -> Result<(), AllocError>
        requires { self.old.items + o.now.items ≤ most_items }
        ensures always { result ≡ Ok tt }
        ensures value { self.new ≡ merged_least self.old o.now }
    {
        self.items += o.items;
        self.least = lesser(self.least, o.least);
        Ok(())
    }
}
