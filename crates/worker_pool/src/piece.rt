// Pieces of work, and how they end.

ghost use Rattle.std.specs.Prelude.{◌≡◌, ℕ};

use outside::HandFault;
use std::alloc::Global;

/// A step to run: its job, the attempt, and the bytes of its task.
#[derive(Drop)]
pub struct Work {
    pub job: u32,
    pub attempt: u32,
    pub task: Vec<u8>,
}

/// A piece of work.
#[derive(Drop)]
pub enum Piece<Q> {
    /// A claimed step.
    Step(Work),
    /// A query that was taken.
    Query(Q),
}

/// The end of a piece.
#[derive(Drop)]
pub enum PieceEnd<E> {
    /// What the hand answered to this attempt of this job.
    Step {
        job: u32,
        attempt: u32,
        result: Result<Vec<u8>, HandFault>,
    },
    /// How the query of this line ended.
    Query {
        line: u32,
        end: E,
    },
}

/// A query with all that it needs to be answered, in whatever thread. It ends as an `E`.
pub trait QueryPiece<E> {
    // The line of the query.
    ghost line_of: { Self → ℕ };

    // It may be run.
    ghost can_run: { Self → Type 0 };

    // It may end so.
    ghost ends: { Self → E → Type 0 };

    /// The line of the query.
    fn line(&self) -> u32
        ensures { result ≡ line_of self.now };

    /// Answers the query. Want of memory is an end of its own.
    fn run(self, alloc: Global) -> E
        requires { can_run self }
        ensures { ends self result };
}
