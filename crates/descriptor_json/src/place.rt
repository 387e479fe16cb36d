// Where a value stands in a JSON text.

ghost use Rattle.std.specs.Prelude.{◌≡◌, ℕ, List, [], IfOk};
ghost use Rattle.descriptor_json.specs.Places.{at_key, at_index};

use std::alloc::{AllocError, Global};
use std::marker::Model;

/// A JSON pointer: for each step down a slash, and then the key or the index. The whole text has the empty one.
/// No key of a descriptor has a slash or a tilde, so none is escaped.
#[derive(Debug, Drop)]
pub struct JsonPointer {
    bytes: Vec<u8>,
}

impl Model for JsonPointer {
    ghost use Rattle.std.specs.Prelude.{ℕ, List};

    ghost Value = { List ℕ };

    ghost view = { λ p. p.bytes.items };
}

impl JsonPointer {
    /// The place of the whole text. It takes no memory.
    pub fn root(alloc: Global) -> JsonPointer
        ensures { result ≡ [] }
    {
        JsonPointer {
            bytes: Vec::new(alloc),
        }
    }

    /// The bytes of the pointer.
    pub fn bytes(&self) -> &[u8]
        ensures { result.now ≡ self.now }
    {
        self.bytes.as_slice()
    }

    /// The place of the value at a key.
    pub fn key(&self, alloc: Global, key: &str) -> Result<JsonPointer, AllocError>
        ensures { IfOk result (λ p. p ≡ at_key self.now key.now) }
    {
        let mut bytes = Vec::from_slice(alloc, self.bytes.as_slice())?;
        bytes.push(b'/')?;
        bytes.extend_from_slice(key.as_bytes())?;
        Ok(JsonPointer { bytes })
    }

    /// The place of an item of a list.
    pub fn index(&self, alloc: Global, i: usize) -> Result<JsonPointer, AllocError>
        ensures { IfOk result (λ p. p ≡ at_index self.now i) }
    {
        let digits = i.to_string(alloc)?;
        self.key(alloc, digits.as_str())
    }

    /// An equal place.
    pub fn copy(&self, alloc: Global) -> Result<JsonPointer, AllocError>
        ensures { IfOk result (λ p. p ≡ self.now) }
    {
        let bytes = Vec::from_slice(alloc, self.bytes.as_slice())?;
        Ok(JsonPointer { bytes })
    }
}
