// The sum of the items.

ghost use Rattle.std.specs.Prelude.{◌≡◌, ◌≤◌, ◌+◌, ◌∷◌, [], Ok};
ghost use Rattle.measure_laws.specs.Measures.{IsSum, Summed, merged_sum, most_items, summed};
ghost use Rattle.measure_laws.specs.MeasureFacts.{sum_laws};

use crate::measure::Measure;
use std::alloc::{AllocError, Global};
use std::marker::Model;

/// The sum of the items, and how many there are. It is exact: an `i128` has room for 2^40 items.
#[derive(Debug, Drop)]
pub struct Sum {
    items: u64,
    total: i128,
}

impl Model for Sum {
    ghost use Rattle.measure_laws.specs.Measures.{Summed, IsSum};

    ghost Value = { Summed };

    ghost view = { λ s. record { items = s.items; total = s.total } };

    ghost invariant = { λ s. IsSum (record { items = s.items; total = s.total }) };
}

impl Sum {
    /// The sum `total` of this many items; of no item it is zero.
    pub fn of(items: u64, total: i128) -> Sum
        requires { IsSum (record { items = items; total = total }) }
        ensures sum { result ≡ record { items = items; total = total } }
        ensures none { items ≡ 0 → result ≡ summed [] }
    {
        Sum { items, total }
    }

    /// The sum of the items.
    pub fn value(&self) -> i128
        ensures value { result ≡ self.now.total }
        ensures bound { IsSum self.now }
    {
        self.total
    }

    /// How many items there are.
    pub fn items(&self) -> u64
        ensures { result ≡ self.now.items }
    {
        self.items
    }
}

impl Measure for Sum {
    type Item = i64;

    ghost items = { λ s. s.items };

    ghost of_items = { summed };

    ghost merged = { merged_sum };

    ghost laws = { sum_laws };

    fn zero(_alloc: Global) -> Sum {
        Sum { items: 0, total: 0 }
    }

    fn add(&mut self, v: i64) -> Result<(), AllocError>
        requires { self.old.items + 1 ≤ most_items }
        ensures always { result ≡ Ok tt }
        ensures value { self.new ≡ merged_sum self.old (summed (v ∷ [])) }
    {
        self.items += 1;
        self.total += i128::from(v);
        Ok(())
    }

    fn merge(&mut self, o: &Sum) -> Result<(), AllocError>
        requires { self.old.items + o.now.items ≤ most_items }
        ensures always { result ≡ Ok tt }
        ensures value { self.new ≡ merged_sum self.old o.now }
    {
        self.items += o.items;
        self.total += o.total;
        Ok(())
    }
}
