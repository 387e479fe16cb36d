// Calls that are numbered from 1, some of which fail.

ghost use Rattle.std.specs.Prelude.{◌≡◌, ◌==◌, ◌↔◌, Contains, IsTrue};
ghost use Rattle.outside.specs.Numbering.{after_call, next_number};

use std::marker::Model;

/// How many calls were made, and the numbers of those that fail. The first call has the number 1.
#[derive(Drop)]
pub struct NumberedCalls {
    failing: Vec<u32>,
    made: u64,
}

impl Model for NumberedCalls {
    ghost use Rattle.outside.specs.Numbering.{Numbering};

    ghost Value = { Numbering };

    ghost view = { λ c. record { failing = c.failing.items; made = c.made } };
}

impl NumberedCalls {
    /// No call yet, with these numbers of calls that fail.
    pub fn new(failing: Vec<u32>) -> NumberedCalls
        ensures { result ≡ record { failing = failing.items; made = 0 } }
    {
        NumberedCalls { failing, made: 0 }
    }

    /// Counts one call, and says whether it is one that fails.
    pub fn next_fails(&mut self) -> bool
        ensures counted { self.new ≡ after_call self.old }
        ensures fails { IsTrue result ↔ Contains self.old.failing (next_number self.old) }
    {
        self.made = self.made.saturating_add(1);
        self.failing
            .iter()
            .any(|number| u64::from(*number) == self.made)
    }
}
