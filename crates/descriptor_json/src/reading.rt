// Readers of JSON values, and how they are put together.

ghost use Rattle.std.specs.Prelude.{◌≡◌, ℕ, List, [], map, IfOk};
ghost use Rattle.std.specs.Char.{to_ascii_uppercase};
ghost use Rattle.serde_json.specs.Data.{Data};
ghost use Rattle.serde_json.specs.View.{view, items_view};
ghost use Rattle.descriptor_json.specs.Readings.{Reading, name_at, word_at, member_at, member_or, items_at, list_at, placed_at};
ghost use Rattle.descriptor_json.specs.Tells.{Tells};

use crate::place::JsonPointer;
use crate::raw::{RawList, RawName, RawWord};
use cube_val::{Items, NameText};
use serde_json::Value;
use std::alloc::{AllocError, Global};

/// Why a value isn't read.
#[derive(Drop)]
pub enum Stop {
    /// This place is missing or wrong, and none before it.
    At(JsonPointer),
    /// There is no memory for what is read.
    Memory,
}

impl From<AllocError> for Stop {
    ghost use Rattle.std.specs.Prelude.{◌≡◌};
    ghost use Rattle.descriptor_json.specs.declared.reading.Stop.TheVariants as stop;

    ghost from_gives = { λ _ s. s ≡ stop.Memory };

    fn from(_error: AllocError) -> Stop {
        Stop::Memory
    }
}

/// What is read of a JSON value at a place.
pub trait Shaped {
    /// The reading, in the definitions.
    ghost shape: { List ℕ → Data → Reading Self };

    /// Reads the value, which stands at the place.
    fn read(alloc: Global, value: &Value, place: JsonPointer) -> Result<Self, Stop>
        ensures { Tells result (shape place (view value.now)) };
}

/// The value at a key that has to be there.
pub fn read_member<T: Shaped>(
    alloc: Global,
    value: &Value,
    place: &JsonPointer,
    key: &str,
) -> Result<T, Stop>
    ensures { Tells result (member_at T.shape key.now place.now (view value.now)) }
{
    let here = match place.key(alloc, key) {
        Ok(here) => here,
        Err(_) => return Err(Stop::Memory),
    };
    match value.get(key) {
        Some(member) => T::read(alloc, member, here),
        None => Err(Stop::At(here)),
    }
}

/// The value at a key, or what stands for it where the key is absent.
pub fn read_or<T: Shaped + Drop>(
    alloc: Global,
    value: &Value,
    place: &JsonPointer,
    key: &str,
    absent: T,
) -> Result<T, Stop>
    ensures { Tells result (member_or T.shape absent key.now place.now (view value.now)) }
{
    let here = match place.key(alloc, key) {
        Ok(here) => here,
        Err(_) => return Err(Stop::Memory),
    };
    match value.get(key) {
        Some(member) => T::read(alloc, member, here),
        None => Ok(absent),
    }
}

fn read_items<T: Shaped + Drop>(
    alloc: Global,
    items: &[Value],
    place: &JsonPointer,
) -> Result<Items<T>, Stop>
    ensures { Tells result (items_at T.shape place.now 0 (items_view items.now)) }
{
    let mut read = Items::new(alloc);
    for (i, item) in items.iter().enumerate() {
        let here = match place.index(alloc, i) {
            Ok(here) => here,
            Err(_) => return Err(Stop::Memory),
        };
        match T::read(alloc, item, here) {
            Ok(one) => match read.push(one) {
                Ok(()) => {}
                Err(_) => return Err(Stop::Memory),
            },
            Err(stop) => return Err(stop),
        }
    }
    Ok(read)
}

impl<T: Shaped + Drop> Shaped for Items<T> {
    ghost use Rattle.descriptor_json.specs.Readings.{list_at};

    ghost shape = { list_at T.shape };

    fn read(alloc: Global, value: &Value, place: JsonPointer) -> Result<Items<T>, Stop> {
        let Some(items) = value.as_array() else {
            return Err(Stop::At(place));
        };
        read_items(alloc, items.as_slice(), &place)
    }
}

impl<T: Shaped + Drop> Shaped for RawList<T> {
    ghost use Rattle.descriptor_json.specs.Readings.{placed_at};

    ghost shape = { placed_at T.shape };

    fn read(alloc: Global, value: &Value, place: JsonPointer) -> Result<RawList<T>, Stop> {
        let Some(items) = value.as_array() else {
            return Err(Stop::At(place));
        };
        match read_items(alloc, items.as_slice(), &place) {
            Ok(items) => Ok(RawList { place, items }),
            Err(stop) => Err(stop),
        }
    }
}

fn upper_case(alloc: Global, text: &str) -> Result<NameText, AllocError>
    ensures { IfOk result (λ name. name ≡ map to_ascii_uppercase text.now) }
{
    let bytes: Vec<u8> = text
        .as_bytes()
        .iter()
        .map(|b| b.to_ascii_uppercase())
        .collect(alloc)?;
    NameText::new(alloc, bytes.as_slice())
}

impl Shaped for RawName {
    ghost shape = { name_at };

    fn read(alloc: Global, value: &Value, place: JsonPointer) -> Result<RawName, Stop> {
        let Some(text) = value.as_str() else {
            return Err(Stop::At(place));
        };
        match upper_case(alloc, text) {
            Ok(text) => Ok(RawName { text, place }),
            Err(_) => Err(Stop::Memory),
        }
    }
}

impl Shaped for RawWord {
    ghost shape = { word_at };

    fn read(alloc: Global, value: &Value, place: JsonPointer) -> Result<RawWord, Stop> {
        let Some(text) = value.as_str() else {
            return Err(Stop::At(place));
        };
        match NameText::new(alloc, text.as_bytes()) {
            Ok(text) => Ok(RawWord { text, place }),
            Err(_) => Err(Stop::Memory),
        }
    }
}
