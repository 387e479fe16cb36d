// How a piece of work learns that it is to stop.

ghost use base.Fml.{GName};
ghost use Rattle.std.specs.Prelude.{◌≡◌, ◌≤◌, ◌<◌, ◌^◌, ℕ, Bool, Option, Some, None, IsTrue, false};
ghost use Rattle.outside.specs.Counts.{Rose};
ghost use Rattle.outside.specs.Watches.{Held, HoldsIfTold, KeepsHeld};

/// Looks whether a piece of work is to stop. A look changes nothing outside but what it costs to look.
pub trait Watch {
    // How often a stop was seen.
    ghost seen: { Self → ℕ };

    // Whether a stop is there to be seen, where that is told. No call changes it.
    ghost there: { Self → Option Bool };

    // What the files that it looks in hold, or None where it looks in none.
    ghost held: { Self → Option Held };

    // Which files it looks in, or None where it looks in none.
    ghost place: { Self → Option GName };

    /// Whether a stop is asked for.
    fn asked(&mut self) -> bool
        ensures saw { IsTrue result → Rose (seen self.old) (seen self.new) }
        ensures saw_there { IsTrue result → HoldsIfTold (there self.old) }

        ensures seen { seen self.old ≤ seen self.new }
        ensures bounded { seen self.new < 2 ^ 64 }
        ensures there { there self.new ≡ there self.old }
        ensures held { KeepsHeld (held self.old) (held self.new) }
        ensures place { place self.new ≡ place self.old };
}

/// A watch that looks nowhere, so no stop is ever asked for.
#[derive(Clone, Copy)]
pub struct NoWatch;

impl Watch for NoWatch {
    ghost seen = { λ _. 0 };

    ghost there = { λ _. Some false };

    ghost held = { λ _. None };

    ghost place = { λ _. None };

    fn asked(&mut self) -> bool {
        false
    }
}
