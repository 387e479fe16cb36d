// Pieces of work, from the board to the pool and back.

ghost use Rattle.std.specs.Prelude.{◌≡◌, ◌≤◌, ◌<◌, ◌⊎◌, [], IfOk, None, Ok, OnErr, OnOk, Some, length};
ghost use Rattle.fixed_cube.specs.Cube.{fixed};
ghost use Rattle.job_board.specs.BoardModel.{IsAdded, IsSame, next_query, now, turns};
ghost use Rattle.run_history.specs.Commands.Turn.{QueryEnds, StepEnds};
ghost use Rattle.run_history.specs.Histories.{HasFreshAnswers, IsInFlight, IsLegal, claim_count};
ghost use Rattle.run_history.specs.World.{busy};
ghost use Rattle.run_history.specs.declared.event.Outcome.TheVariants.{Memory as NoMemory};
ghost use Rattle.run_history.specs.declared.event.QueryOut.TheVariants.{Memory as NoAnswer};
ghost use Rattle.worker_pool.specs.Pools.{hands};
ghost use Rattle.worker_pool.specs.declared.piece.Piece.TheVariants.{Query, Step};
ghost use Rattle.board_pieces.specs.HandLists.{HandsKeepUp};
ghost use Rattle.board_pieces.specs.InFlight.{HasPieces, HasPiecesWith};
ghost use Rattle.board_pieces.specs.Turns.{HasEnded, HasGivenQuery, HasGivenStep, HasStarted, IsRecorded, MayEnd, out_of};

use fixed_query::{FixedPool, FixedQuery, QueryEnd};
use job_board::{Board, SmallWork};
use outside::{Hand, HandFault};
use run_history::QueryOut;
use std::alloc::{AllocError, Global};
use std::sync::Wait;
use std::thread::Threads;
use worker_pool::{PieceEnd, Work};

/// What a turn did with a piece of work.
#[derive(Drop)]
pub enum PieceTurn {
    /// A piece was started.
    Started,
    /// A step ended. Of a step nothing is shown.
    StepEnded,
    /// The query of this line ended.
    QueryEnded { line: u32, end: QueryEnd },
}

// What the turns of a board are: a legal history with fresh answers. It does nothing.
fn note_history<H: Hand<SmallWork> + Drop>(board: &Board<H>)
    ensures legal { IsLegal fixed board.now.workers [] (turns board.now) }
    ensures fresh { HasFreshAnswers fixed board.now.workers [] (turns board.now) }
{
    let _history = board.history();
}

// A claimed step that no hand was given has its end, for want of memory.
fn refuse_step<H: Hand<SmallWork> + Drop>(
    board: &mut Board<H>,
    job: u32,
    attempt: u32,
) -> Result<Option<PieceTurn>, AllocError>
    requires { 0 < claim_count job attempt (now board.old).steps }
    ensures ended { OnOk result (IsAdded board.old (StepEnds job attempt NoMemory) board.new) }
    ensures turn { IfOk result (λ turn. turn ≡ Some PieceTurn.StepEnded) }
    ensures err { OnErr result (IsSame board.old board.new) }
{
    board.reserve_turn()?;
    let _ = board.end_step(job, attempt, Err(HandFault::Memory));
    Ok(Some(PieceTurn::StepEnded))
}

// A query that was taken and that no hand was given has its end, for want of memory.
fn refuse_query<H: Hand<SmallWork> + Drop>(
    board: &mut Board<H>,
    line: u32,
) -> Result<Option<PieceTurn>, AllocError>
    requires { IsInFlight (now board.old) line }
    ensures ended { OnOk result (IsAdded board.old (QueryEnds line NoAnswer) board.new) }
    ensures turn { IfOk result (λ turn. turn ≡ Some (PieceTurn.QueryEnded line QueryEnd.Memory)) }
    ensures err { OnErr result (IsSame board.old board.new) }
{
    board.reserve_turn()?;
    board.end_query(line, QueryOut::Memory);
    Ok(Some(PieceTurn::QueryEnded {
        line,
        end: QueryEnd::Memory,
    }))
}

// A claimed step goes to a hand; where no memory is found for that, it ends at once without a product.
fn give_step<R, H>(
    rt: &R,
    alloc: Global,
    board: &mut Board<H>,
    pool: &mut FixedPool<H>,
    work: Work,
) -> Result<Option<PieceTurn>, AllocError>
where
    R: Threads + Wait + Clone + Send + Sync + Drop + 'static,
    H: Hand<SmallWork> + Drop + Send + 'static,
    requires free { 0 < length pool.old.free }
    requires pieces { HasPiecesWith H.honest board.old (Step work) pool.old }
    ensures pieces { OnOk result (HasPieces H.honest board.new pool.new) }
    ensures turns { IfOk result (λ given. HasGivenStep work.job work.attempt board.old given board.new) }
    ensures err { OnErr result (IsSame board.old board.new) }
    ensures hands { HandsKeepUp H.honest H.runs H.faults H.fails H.calls (hands pool.old) board.old (hands pool.new) board.new }
{
    note_history(board);
    let job = work.job;
    let attempt = work.attempt;
    let refused = pool.start_step(rt, alloc, work);
    let started = refused.is_ok();
    if started {
        return Ok(Some(PieceTurn::Started));
    }
    refuse_step(board, job, attempt)
}

// A query that was taken goes to a hand; where no memory is found for that, it ends at once without an answer.
fn give_query<R, H>(
    rt: &R,
    alloc: Global,
    board: &mut Board<H>,
    pool: &mut FixedPool<H>,
    query: FixedQuery,
) -> Result<Option<PieceTurn>, AllocError>
where
    R: Threads + Wait + Clone + Send + Sync + Drop + 'static,
    H: Hand<SmallWork> + Drop + Send + 'static,
    requires free { 0 < length pool.old.free }
    requires pieces { HasPiecesWith H.honest board.old (Query query) pool.old }
    ensures pieces { OnOk result (HasPieces H.honest board.new pool.new) }
    ensures turns { IfOk result (λ given. HasGivenQuery query.line board.old given board.new) }
    ensures err { OnErr result (IsSame board.old board.new) }
    ensures hands { HandsKeepUp H.honest H.runs H.faults H.fails H.calls (hands pool.old) board.old (hands pool.new) board.new }
{
    note_history(board);
    let line = query.line;
    let refused = pool.start_query(rt, alloc, query);
    let started = refused.is_ok();
    if started {
        return Ok(Some(PieceTurn::Started));
    }
    refuse_query(board, line)
}

// The next query is taken and given to a hand; `None` where none may be taken.
fn start_query<R, H>(
    rt: &R,
    alloc: Global,
    board: &mut Board<H>,
    pool: &mut FixedPool<H>,
) -> Result<Option<PieceTurn>, AllocError>
where
    R: Threads + Wait + Clone + Send + Sync + Drop + 'static,
    H: Hand<SmallWork> + Drop + Send + 'static,
    requires worker { busy (now board.old) < (now board.old).workers }
    requires pieces { HasPieces H.honest board.old pool.old }
    ensures pieces { OnOk result (HasPieces H.honest board.new pool.new) }
    ensures turns { HasStarted board.old result board.new }
    ensures none { result ≡ Ok None → next_query (now board.old) ≡ None }
    ensures hands { HandsKeepUp H.honest H.runs H.faults H.fails H.calls (hands pool.old) board.old (hands pool.new) board.new }
{
    board.reserve_turn()?;
    note_history(board);
    let found = board.take_query()?;
    match found {
        None => Ok(None),
        Some(taken) => {
            let query = FixedQuery {
                line: taken.line,
                version: taken.version,
                cells: taken.cells,
            };
            give_query(rt, alloc, board, pool, query)
        }
    }
}

// The next step is claimed and given to a hand; `None` where the queue is empty.
fn start_step<R, H>(
    rt: &R,
    alloc: Global,
    board: &mut Board<H>,
    pool: &mut FixedPool<H>,
) -> Result<Option<PieceTurn>, AllocError>
where
    R: Threads + Wait + Clone + Send + Sync + Drop + 'static,
    H: Hand<SmallWork> + Drop + Send + 'static,
    requires worker { busy (now board.old) < (now board.old).workers }
    requires pieces { HasPieces H.honest board.old pool.old }
    ensures pieces { OnOk result (HasPieces H.honest board.new pool.new) }
    ensures turns { HasStarted board.old result board.new }
    ensures none { result ≡ Ok None → (now board.old).queue ≡ [] }
    ensures hands { HandsKeepUp H.honest H.runs H.faults H.fails H.calls (hands pool.old) board.old (hands pool.new) board.new }
{
    board.reserve_turn()?;
    note_history(board);
    let found = board.claim()?;
    match found {
        None => Ok(None),
        Some(claimed) => {
            let work = Work {
                job: claimed.job,
                attempt: claimed.attempt,
                task: claimed.task,
            };
            give_step(rt, alloc, board, pool, work)
        }
    }
}

/// The next piece is started, a query before a step; `None` exactly where no worker is free, or neither a query nor a step may be started. Where no
/// memory is found for a hand's thread, the piece ends at once, for want of memory. On an error what was claimed or taken stays on the board
/// without a piece.
pub fn start_piece<R, H>(
    rt: &R,
    alloc: Global,
    board: &mut Board<H>,
    pool: &mut FixedPool<H>,
) -> Result<Option<PieceTurn>, AllocError>
where
    R: Threads + Wait + Clone + Send + Sync + Drop + 'static,
    H: Hand<SmallWork> + Drop + Send + 'static,
    requires pieces { HasPieces H.honest board.old pool.old }
    ensures pieces { OnOk result (HasPieces H.honest board.new pool.new) }
    ensures turns { HasStarted board.old result board.new }
    ensures none { result ≡ Ok None → ((now board.old).workers ≤ busy (now board.old)) ⊎ (((now board.old).queue ≡ []) × (next_query (now board.old) ≡ None)) }
    ensures hands { HandsKeepUp H.honest H.runs H.faults H.fails H.calls (hands pool.old) board.old (hands pool.new) board.new }
{
    if !board.has_worker() {
        return Ok(None);
    }
    let started = start_query(rt, alloc, board, pool)?;
    match started {
        Some(turn) => Ok(Some(turn)),
        None => start_step(rt, alloc, board, pool),
    }
}

// What is recorded of the end of a query.
fn out_of(end: &QueryEnd) -> QueryOut
    ensures { result ≡ out_of end.now }
{
    match end {
        QueryEnd::Answered { version, .. } => QueryOut::Answered(*version),
        QueryEnd::Memory => QueryOut::Memory,
    }
}

// The end of a piece is recorded.
fn record_end<H: Hand<SmallWork> + Drop>(
    board: &mut Board<H>,
    ended: PieceEnd<QueryEnd>,
) -> PieceTurn
    requires room { 0 < board.old.room }
    requires may { MayEnd H.honest (now board.old) ended }
    ensures { IsRecorded H.honest board.old ended result board.new }
{
    match ended {
        PieceEnd::Step {
            job,
            attempt,
            result,
        } => {
            let _ = board.end_step(job, attempt, result);
            PieceTurn::StepEnded
        }
        PieceEnd::Query { line, end } => {
            board.end_query(line, out_of(&end));
            PieceTurn::QueryEnded { line, end }
        }
    }
}

/// Waits for the end of a piece, and records it; `None` exactly where nothing is in flight. Room for its turn is made before it is waited for, so
/// that no piece comes back whose end can't be recorded; want of memory for that leaves board and pool as they were.
pub fn finish_piece<R, H>(
    rt: &R,
    board: &mut Board<H>,
    pool: &mut FixedPool<H>,
) -> Result<Option<PieceTurn>, AllocError>
where
    R: Threads + Wait,
    H: Hand<SmallWork> + Drop,
    requires { HasPieces H.honest board.old pool.old }
    ensures pieces { HasPieces H.honest board.new pool.new }
    ensures turns { IfOk result (λ turned. HasEnded H.honest board.old turned board.new) }
    ensures none { result ≡ Ok None → busy (now board.old) ≡ 0 }
    ensures err { OnErr result (IsSame board.old board.new) }
    ensures err_pool { OnErr result (pool.new ≡ pool.old) }
    ensures hands { HandsKeepUp H.honest H.runs H.faults H.fails H.calls (hands pool.old) board.old (hands pool.new) board.new }
{
    board.reserve_turn()?;
    note_history(board);
    match pool.wait_any(rt) {
        None => Ok(None),
        Some(ended) => Ok(Some(record_end(board, ended))),
    }
}
