//! Pieces of work on the board and in the pool together: what is claimed or taken on the board goes to a hand of the pool, and what comes back
//! from there is recorded on the board.
//!
//! The pool always has exactly what the board has in flight (`specs/InFlight.antt`). The modules: `pieces`: one start and one end; `gather`: the
//! hands of a pool that is done with.
#![tactic(auto)]

mod gather;
mod pieces;

pub use gather::gathered;
pub use pieces::{PieceTurn, finish_piece, start_piece};
