// The bytes of a descriptor.

ghost use Rattle.std.specs.Prelude.{◌≡◌, ℕ, List, [], IfOk, Some, None, Err};
ghost use Rattle.serde_json.specs.View.{view};
ghost use Rattle.descriptor_json.specs.Bytes.{json_of, shape_of, shape_of_json, no_json, wrong_at, shaped};

use crate::place::JsonPointer;
use crate::raw::RawDesc;
use crate::reading::{Shaped, Stop};
use serde_json::Value;
use std::alloc::Global;

/// Why bytes are not the texts of a descriptor.
#[derive(Drop)]
pub enum ShapeFault {
    /// They are no JSON value.
    NotJson,
    /// This place is missing, or its value is of another kind; no place before it in the walk is so.
    Shape(JsonPointer),
    /// There is no memory for the texts.
    Memory,
}

fn parse(alloc: Global, bytes: &[u8]) -> Result<Value, ShapeFault>
    ensures ok { IfOk result (λ v. json_of bytes.now ≡ Some (view v)) }
    ensures no_json { result ≡ Err ShapeFault.NotJson → json_of bytes.now ≡ None }
    ensures no_place { (p : List ℕ) → result ≡ Err (ShapeFault.Shape p) → ⊥ }
{
    match Value::from_slice(alloc, bytes) {
        Ok(value) => Ok(value),
        Err(error) => {
            if error.is_memory() {
                Err(ShapeFault::Memory)
            } else {
                Err(ShapeFault::NotJson)
            }
        }
    }
}

/// Reads the texts of a descriptor, walking over the JSON value once.
pub fn read_raw(alloc: Global, bytes: &[u8]) -> Result<RawDesc, ShapeFault>
    ensures ok { IfOk result (λ raw. shape_of bytes.now ≡ shaped raw) }
    ensures no_json { result ≡ Err ShapeFault.NotJson → shape_of bytes.now ≡ no_json }
    ensures wrong { (p : List ℕ) → result ≡ Err (ShapeFault.Shape p) → shape_of bytes.now ≡ wrong_at p }
{
    let value = match parse(alloc, bytes) {
        Ok(value) => value,
        Err(fault) => return Err(fault),
    };
    match RawDesc::read(alloc, &value, JsonPointer::root(alloc)) {
        Ok(raw) => Ok(raw),
        Err(Stop::At(place)) => Err(ShapeFault::Shape(place)),
        Err(Stop::Memory) => Err(ShapeFault::Memory),
    }
}
