//! What each step of a job makes: flat rows, their dictionaries, the base cuboid, and the cuboids of a number of dimensions.
//!
//! The crate stands on the calls that make them (`flat_join`, `dim_dictionary`, `layer_builder`) and on the tree of cuboids
//! (`cuboid_tree`); from a descriptor (`cube_desc`) it takes which columns, aggregates and cuboids there are. It knows
//! neither files nor bytes.
//!
//! At its boundary: each call gives the value that the definitions of `specs/Values.antt` give, or wants memory, or was
//! stopped. A stop is answered only where one was seen. A look is taken before each thousand rows that a step goes through
//! (of the fact table, of a column that a dictionary is made of, of the flat rows that a base cuboid is made of) and before
//! each batch of at most eight cuboids; no contract counts them.
//!
//! The modules: `columns`: which aggregates are kept; `flat`, `dicts`, `base_step`,
//! `layer_step`: a step each; `watching`: looks at a watch; `fault`; `examples`: the definitions on a few sales.
#![tactic(auto)]

mod base_step;
mod columns;
mod dicts;
mod examples;
mod fault;
mod flat;
mod layer_step;
mod watching;

pub use base_step::base_value;
pub use dicts::dict_value;
pub use examples::worked_examples;
pub use fault::StepFault;
pub use flat::flat_value;
pub use layer_step::layer_value;
pub use watching::look;
