//! A row of published sets that only grows, and tokens of the sets in it.
//!
//! One thread publishes: each set gets a place in the row, and is never changed or taken out. Any thread that holds the row pins
//! the newest set that it finds, and reads it for as long as the row stands; neither takes a lock or waits. The row doesn't know what a
//! set is: of a set it asks its version, and what it means that it is built for a descriptor ([`Published`]).
//!
//! At its boundary: [`VersionRow::set`] of a token is exactly the set that was published with it; two tokens that agree show one set;
//! the version that [`Session::pin`] gives is at least that of the token that it was told and that of the session's last pin; each set that the row
//! shows is built for the row's descriptor. That a pin finds a set which was published before it is tested, and not promised.
//!
//! The modules: `published`: what a set is to the row; `row`: the row and its tokens; `session`: what a reader keeps from one pin to the next.
#![tactic(auto)]

mod published;
mod row;
mod session;

pub use published::Published;
pub use row::{Shown, VersionRow};
pub use session::Session;
