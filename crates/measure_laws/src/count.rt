// The number of items.

ghost use Rattle.std.specs.Prelude.{◌≡◌, ◌≤◌, ◌+◌, length, Ok};
ghost use Rattle.measure_laws.specs.Measures.{most_items};
ghost use Rattle.measure_laws.specs.MeasureFacts.{count_laws};

use crate::measure::Measure;
use std::alloc::{AllocError, Global};
use std::marker::Model;

/// How many items there are. Contracts see it as that number.
#[derive(Debug, Drop)]
pub struct Count {
    items: u64,
}

impl Model for Count {
    ghost use Rattle.std.specs.Prelude.{ℕ, ◌≤◌};
    ghost use Rattle.measure_laws.specs.Measures.{most_items};

    ghost Value = { ℕ };

    ghost view = { λ c. c.items };

    ghost invariant = { λ c. c.items ≤ most_items };
}

impl Count {
    /// The count of this many items.
    pub fn of(items: u64) -> Count
        requires { items ≤ most_items }
        ensures { result ≡ items }
    {
        Count { items }
    }

    /// How many items there are.
    pub fn value(&self) -> u64
        ensures value { result ≡ self.now }
        ensures bound { self.now ≤ most_items }
    {
        self.items
    }
}

impl Measure for Count {
    type Item = ();

    ghost items = { λ c. c };

    ghost of_items = { length };

    ghost merged = { λ a b. a + b };

    ghost laws = { count_laws };

    fn zero(_alloc: Global) -> Count {
        Count { items: 0 }
    }

    fn add(&mut self, _v: ()) -> Result<(), AllocError>
        requires { self.old + 1 ≤ most_items }
        ensures always { result ≡ Ok tt }
        ensures value { self.new ≡ self.old + 1 }
    {
        self.items += 1;
        Ok(())
    }

    fn merge(&mut self, o: &Count) -> Result<(), AllocError>
        requires { self.old + o.now ≤ most_items }
        ensures always { result ≡ Ok tt }
        ensures value { self.new ≡ self.old + o.now }
    {
        self.items += o.items;
        Ok(())
    }
}
