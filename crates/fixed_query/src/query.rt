// The query, and how it ends.

ghost use Rattle.std.specs.Prelude.{◌≡◌, ⊤};

use fixed_cube::SmallWork;
use fixed_state::ReadyCells;
use plain_answer::AnswerTable;
use std::alloc::Global;
use worker_pool::{Pool, QueryPiece};

/// A query that was taken: its line, the version of the ready set over which it is to be answered, and the cells of the segments of this set.
#[derive(Drop)]
pub struct FixedQuery {
    pub line: u32,
    pub version: u32,
    pub cells: ReadyCells,
}

/// How a query ends.
#[derive(Drop)]
pub enum QueryEnd {
    /// It was answered over the set of this version.
    Answered { version: u32, table: AnswerTable },
    /// No memory was found for the answer.
    Memory,
}

/// The pool over the fixed cube.
pub type FixedPool<H> = Pool<SmallWork, H, QueryEnd, FixedQuery>;

impl QueryPiece<QueryEnd> for FixedQuery {
    ghost use Rattle.fixed_query.specs.QueryEnds.{EndsQuery};

    ghost line_of = { λ query. query.line };

    ghost can_run = { λ _. ⊤ };

    ghost ends = { EndsQuery };

    fn line(&self) -> u32 {
        self.line
    }

    fn run(self, alloc: Global) -> QueryEnd {
        match self.cells.answer(alloc) {
            Ok(table) => QueryEnd::Answered {
                version: self.version,
                table,
            },
            Err(_) => QueryEnd::Memory,
        }
    }
}
