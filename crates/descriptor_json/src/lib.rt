//! The shape of a cube descriptor: its JSON text read into typed texts, each with its place in the file.
//!
//! The descriptor is a JSON object whose keys, and the kinds of whose values, are fixed. `read_raw` walks over the value
//! once, in a fixed order, and gives the typed raw descriptor, or the first place that is missing or wrong. It judges no
//! name and follows none: that is the work of the crates above, which see no JSON any more.
//!
//! At its boundary:
//!
//! - What bytes are read as is a function of the bytes (`specs/Walk.antt`, `specs/Bytes.antt`): the walk is one definition, in
//!   which each key has one line.
//! - Names are in ASCII upper case from here on. Words (types, functions) keep their case.
//! - Every text, and every entry that a fault may point at, carries its place as a JSON pointer.
#![tactic(auto)]

mod examples;
mod parse;
mod place;
mod raw;
mod reading;
mod walk;
mod whole;

pub use examples::worked_examples;
pub use parse::{ShapeFault, read_raw};
pub use place::JsonPointer;
pub use raw::{
    RawColumn, RawDesc, RawDimension, RawFunction, RawGroup, RawJoin, RawList, RawLookup,
    RawMeasure, RawName, RawNamed, RawNumber, RawParameter, RawRule, RawTable, RawWord,
};
