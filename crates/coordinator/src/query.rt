// A query, from its command to its end.

ghost use Rattle.std.specs.Prelude.{◌≡◌, ◌<◌, ◌++◌, ◌∷◌, [], ℕ, IfOk, OnErr, OnOk, take};
ghost use Rattle.job_board.specs.Ledger.{only_query};
ghost use Rattle.job_board.specs.BoardModel.{IsAdded, IsSame, now};
ghost use Rattle.run_history.specs.Commands.{Command as command};
ghost use Rattle.run_history.specs.Commands.Turn.{QueryEnds, QueryTakes, Takes};
ghost use Rattle.run_history.specs.declared.event.QueryOut.{QueryOut};
ghost use Rattle.coordinator.specs.Answers.{CanEnd, IsAccepted, IsAnswerOf, IsAnswerOver, IsTakenQuery};
ghost use Rattle.coordinator.specs.Coordinator.{IsGrown, IsIdle, asked_turns};

use job_board::{Board, QueryWork, SmallWork};
use outside::Hand;
use run_history::QueryOut;
use script_text::Block;
use std::alloc::{AllocError, Global};

// The query of a line is accepted.
fn accept_query<H: Hand<SmallWork> + Drop>(
    board: &mut Board<H>,
    line: u32,
    session: u32,
) -> Result<(), AllocError>
    requires above { (now board.old).line < line }
    ensures ok { OnOk result (IsAdded board.old (Takes line (command.Ask session only_query)) board.new) }
    ensures err { OnErr result (IsSame board.old board.new) }
{
    board.reserve_turn()?;
    board.ask(line, session)
}

// The one query that waits is taken.
fn take_accepted<H: Hand<SmallWork> + Drop>(
    board: &mut Board<H>,
    line: u32,
) -> Result<QueryWork, AllocError>
    requires { IsAccepted (now board.old) line }
    ensures ok { IfOk result (λ work. IsAdded board.old (QueryTakes line) board.new) }
    ensures work { IfOk result (λ work. IsTakenQuery H.honest (now board.old) line work) }
    ensures err { OnErr result (IsSame board.old board.new) }
{
    board.reserve_turn()?;
    match board.take_query()? {
        Some(work) => Ok(work),
        None => unreachable!(),
    }
}

// The query that was taken ends with its answer, or with none where memory is wanting.
fn end_taken<H: Hand<SmallWork> + Drop>(
    alloc: Global,
    board: &mut Board<H>,
    work: &QueryWork,
) -> Result<Block, AllocError>
    requires { CanEnd (now board.old) work.now.line work.now.version }
    ensures ok { IfOk result (λ block. (out : QueryOut) × IsAdded board.old (QueryEnds work.now.line out) board.new × IsAnswerOf work.now out block) }
    ensures err { OnErr result (IsSame board.old board.new) }
{
    board.reserve_turn()?;
    match work.cells.answer(alloc) {
        Ok(table) => {
            board.end_query(work.line, QueryOut::Answered(work.version));
            Ok(Block::Answer(table))
        }
        Err(_) => {
            board.end_query(work.line, QueryOut::Memory);
            Ok(Block::OutOfMemory)
        }
    }
}

/// A query: it is accepted, taken over the last ready set, and ends with its answer, or with none where memory is wanting.
pub fn answer_query<H: Hand<SmallWork> + Drop>(
    alloc: Global,
    board: &mut Board<H>,
    line: u32,
    session: u32,
) -> Result<Block, AllocError>
    requires above { (now board.old).line < line }
    requires idle { IsIdle (now board.old) }
    ensures ok { IfOk result (λ block. (out : QueryOut) × IsGrown board.old (asked_turns line session ++ QueryEnds line out ∷ []) board.new × IsAnswerOver H.honest (now board.old) out block) }
    ensures err { OnErr result ((count : ℕ) × IsGrown board.old (take count (asked_turns line session)) board.new) }
{
    accept_query(board, line, session)?;
    let work = take_accepted(board, line)?;
    end_taken(alloc, board, &work)
}
