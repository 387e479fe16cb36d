// Products of steps done.

ghost use Rattle.std.specs.Prelude.{◌≡◌};

use std::marker::Model;

/// The product of a step that is done, as the hand gave it. Contracts see its bytes.
#[derive(Drop)]
pub struct KeptProduct {
    bytes: Vec<u8>,
}

impl Model for KeptProduct {
    ghost use Rattle.std.specs.Prelude.{List, ℕ};

    ghost Value = { List ℕ };

    ghost view = { λ p. p.bytes.items };
}

impl KeptProduct {
    /// The product of these bytes.
    pub fn of(bytes: Vec<u8>) -> KeptProduct
        ensures { result ≡ bytes.items }
    {
        KeptProduct { bytes }
    }

    /// Its bytes.
    pub fn bytes(&self) -> &[u8]
        ensures { result.now ≡ self.now }
    {
        self.bytes.as_slice()
    }
}
