//! The cube descriptor: a JSON file that says which tables a cube has, how they are joined, which dimensions and measures
//! it has and which cuboids it builds; read exactly, or refused with the first fault and its place.
//!
//! `read_desc` is the whole: it reads the shape (`descriptor_json`), runs the checks (`desc_checks`) and resolves names to numbers.
//! What bytes mean is a function of the bytes (`meaning` in `specs/Meaning.antt`), so formats that hold a descriptor go on
//! from it.
//!
//! At its boundary:
//!
//! - A `CubeDesc` keeps its bytes, and its type keeps that it is what they mean, so nobody reads or checks them again.
//! - Tables, columns and dimensions are numbers from here on: the fact table is 0, the lookups follow in their order, a
//!   dimension is the place of its column in the rowkey.
//! - Each number is that of something that is there (`IsSound` in `specs/Sound.antt`), so nobody tests it again.
//!
//! The modules: `desc` (the descriptor), `resolve` (names to numbers), `groups` (aggregation groups and cuboids), `flat_row` (the
//! places of flat rows), `kept` (the measures that cuboids keep, which nobody else works out), `read`,
//! `laws` (what holds of all descriptors).
#![tactic(auto)]

mod desc;
pub mod flat_row;
mod groups;
pub mod kept;
mod laws;
mod read;
mod resolve;

pub use desc::{CubeDesc, CubeParts, DerivedDesc, MeasureDesc, TableDesc};
pub use desc_checks::{DescFault, DescKind};
pub use laws::descriptors_are_sound;
pub use read::{DescRefusal, read_desc};
