//! Hands that run pieces of work in threads of their own: steps beside each other, and beside queries.
//!
//! A [`Pool`] has hands, and pieces of work in flight. A piece is a claimed step, which a hand runs, or a query, which is answered over the set
//! that it was given; each takes a free hand, so that there are never more pieces than hands. The pool is generic in the kind of work, in the
//! hands, and in what a query is ([`QueryPiece`]) and how it may end.
//!
//! At its boundary:
//!
//! - Contracts see a pool as its free hands and the pieces in flight, each with its hand as it was when it was given the piece
//!   (`specs/Pools.antt`). A start takes one free hand away and changes nothing else (`IsStarted`); an end brings one back (`IsLanded`).
//! - The end of a step is the hand's answer to exactly that task, by one call with its job and attempt; the end of a query is one that it may
//!   have over exactly its set, and its hand was not called (`HasAnswered`).
//! - A piece for which no thread can be had is run by whoever starts it, and handed on before any other.
//! - Nothing is said of the order in which pieces end.
//!
//! The modules: `piece`: pieces and their ends; `gate`: where threads say that they are done; `list`: moves in lists; `flight`: a piece in its thread; `pool`: the pool; `examples`: the definitions, computed.
#![tactic(auto)]

mod examples;
mod flight;
mod gate;
mod list;
mod piece;
mod pool;

pub use examples::worked_examples;
pub use piece::{Piece, PieceEnd, QueryPiece, Work};
pub use pool::Pool;
