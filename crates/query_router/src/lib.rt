//! Which cuboid a query reads.
//!
//! Every cuboid that has the needed dimensions gives the same answer; the one with the fewest rows is
//! the cheapest. It stands on `agg_group` and knows cuboids by mask and number of rows alone. The
//! masks rise strictly, and one of them has every needed dimension: the base always has.
#![tactic(auto)]

mod examples;
mod least;

pub use examples::worked_examples;
pub use least::route;
