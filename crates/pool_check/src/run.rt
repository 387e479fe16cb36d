// Calls on a board and a pool.

ghost use Rattle.std.specs.Prelude.{IfOk};

use crate::board::{answer_command, has_room};
use crate::gate_hand::{GateHand, Turnstile};
use check_lines::{Words, out_of_memory, unknown_line};
use fixed_query::{FixedPool, FixedQuery, QueryEnd};
use job_board::Board;
use outside::HandFault;
use plain_answer::{AnswerTable, OutVal};
use run_history::QueryOut;
use std::alloc::{AllocError, Global};
use std::io;
use std::io::Write;
use std::sync::Wait;
use std::thread::Threads;
use worker_pool::{PieceEnd, Pool, Work};

// What the calls of a line are made on.
#[derive(Drop)]
struct Setting {
    board: Board<GateHand>,
    pool: FixedPool<GateHand>,
    turnstile: Turnstile,
}

// The next step of the board is claimed and started.
fn answer_claim<R: Threads + Wait + Clone + Send + Sync + Drop + 'static, W: Write>(
    rt: &R,
    alloc: Global,
    setting: &mut Setting,
    out: &mut W,
) -> io::Result<()> {
    has_room(&setting.board)?;
    if !setting.board.has_worker() || setting.pool.free() == 0 {
        return out.write_all(b"; busy");
    }
    let Some(claimed) = setting.board.claim()? else {
        return out.write_all(b"; none");
    };
    let (job, attempt) = (claimed.job, claimed.attempt);
    let work = Work {
        job,
        attempt,
        task: claimed.task,
    };
    if setting.pool.start_step(rt, alloc, work).is_err() {
        return Err(out_of_memory());
    }
    write!(out, "; step {job} {attempt}")
}

// The next query of the board is taken and started.
fn answer_take<R: Threads + Wait + Clone + Send + Sync + Drop + 'static, W: Write>(
    rt: &R,
    alloc: Global,
    setting: &mut Setting,
    out: &mut W,
) -> io::Result<()> {
    has_room(&setting.board)?;
    if !setting.board.has_worker() || setting.pool.free() == 0 {
        return out.write_all(b"; busy");
    }
    let Some(work) = setting.board.take_query()? else {
        return out.write_all(b"; none");
    };
    let line = work.line;
    let query = FixedQuery {
        line,
        version: work.version,
        cells: work.cells,
    };
    if setting.pool.start_query(rt, alloc, query).is_err() {
        return Err(out_of_memory());
    }
    write!(out, "; query {line}")
}

// The end of a step is recorded.
fn put_step_end<W: Write>(
    board: &mut Board<GateHand>,
    job: u32,
    attempt: u32,
    answer: Result<Vec<u8>, HandFault>,
    out: &mut W,
) -> io::Result<()> {
    has_room(board)?;
    if !board.is_claimed(job, attempt) {
        return Err(unknown_line());
    }
    let end = board.end_attempt(job, attempt, answer);
    write!(out, "; end {job} {attempt} {:?}", end.ended)
}

// The sum of the last column.
fn total(answer: &AnswerTable) -> i128 {
    let mut sum = 0i128;
    for row in answer.rows.as_slice() {
        if let Some(OutVal::Whole(value)) = row.as_slice().last() {
            sum = sum.wrapping_add(*value);
        }
    }
    sum
}

// The end of a query is recorded.
fn put_query_end<W: Write>(
    board: &mut Board<GateHand>,
    line: u32,
    end: &QueryEnd,
    out: &mut W,
) -> io::Result<()> {
    let QueryEnd::Answered { version, table } = end else {
        return Err(out_of_memory());
    };
    let recorded = QueryOut::Answered(*version);
    has_room(board)?;
    if !board.may_end(line, &recorded) {
        return Err(unknown_line());
    }
    board.end_query(line, recorded);
    write!(
        out,
        "; answer {line} version {version} sum {}",
        total(table)
    )
}

// The next end is recorded.
fn answer_wait<R: Threads + Wait, W: Write>(
    rt: &R,
    setting: &mut Setting,
    out: &mut W,
) -> io::Result<()> {
    match setting.pool.wait_any(rt) {
        None => out.write_all(b"; nothing"),
        Some(
            PieceEnd::Step {
                job,
                attempt,
                result,
            },
        ) => put_step_end(&mut setting.board, job, attempt, result, out),
        Some(PieceEnd::Query { line, end }) => put_query_end(&mut setting.board, line, &end, out),
    }
}

// Waits until an attempt has begun.
fn answer_begun<R: Wait, W: Write>(
    rt: &R,
    turnstile: &Turnstile,
    words: &mut Words<'_>,
    out: &mut W,
) -> io::Result<()> {
    let job = words.number()?;
    if !turnstile.waits_for(rt, job, words.number()?) {
        return Err(unknown_line());
    }
    out.write_all(b"; begun")
}

// Lets an attempt through.
fn answer_let<R: Wait, W: Write>(
    rt: &R,
    turnstile: &Turnstile,
    words: &mut Words<'_>,
    out: &mut W,
) -> io::Result<()> {
    let job = words.number()?;
    turnstile.pass(rt, job, words.number()?)?;
    out.write_all(b"; let")
}

// Makes one call.
fn answer_call<R: Threads + Wait + Clone + Send + Sync + Drop + 'static, W: Write>(
    rt: &R,
    alloc: Global,
    setting: &mut Setting,
    words: &mut Words<'_>,
    out: &mut W,
) -> io::Result<()> {
    setting.board.reserve_turn()?;
    match words.next()? {
        "claim" => answer_claim(rt, alloc, setting, out),
        "take" => answer_take(rt, alloc, setting, out),
        "wait" => answer_wait(rt, setting, out),
        "begun" => answer_begun(rt, &setting.turnstile, words, out),
        "let" => answer_let(rt, &setting.turnstile, words, out),
        word => answer_command(alloc, &mut setting.board, word, words, out),
    }
}

fn answer_calls<R: Threads + Wait + Clone + Send + Sync + Drop + 'static, W: Write>(
    rt: &R,
    alloc: Global,
    setting: &mut Setting,
    words: &mut Words<'_>,
    out: &mut W,
) -> io::Result<()> {
    for _ in 0..u64::MAX {
        if words.is_empty() {
            break;
        }
        answer_call(rt, alloc, setting, words, out)?;
    }
    Ok(())
}

// The hands of a pool, once all its pieces have ended.
fn gathered<R: Threads + Wait>(rt: &R, mut pool: FixedPool<GateHand>) -> Vec<GateHand> {
    for _ in rt.forever() {
        if pool.wait_any(rt).is_none() {
            return pool.into_hands();
        }
    }
    unreachable!()
}

// How many hands there are, and how many runs they had.
fn put_hands<W: Write>(out: &mut W, hands: &[GateHand]) -> io::Result<()> {
    let mut runs = 0u64;
    for hand in hands {
        runs = runs.wrapping_add(hand.run_count());
    }
    write!(out, "; {} hands {runs} runs", hands.len())
}

// So many hands.
fn hands_at(alloc: Global, turnstile: &Turnstile, count: u32) -> Result<Vec<GateHand>, AllocError> {
    let mut hands = Vec::new(alloc);
    for _ in 0..count {
        hands.push(turnstile.hand()?)?;
    }
    Ok(hands)
}

/// A board of so many workers, a pool of as many hands, and calls on them.
pub fn answer_pool<R: Threads + Wait + Clone + Send + Sync + Drop + 'static, W: Write>(
    rt: &R,
    alloc: Global,
    words: &mut Words<'_>,
    out: &mut W,
) -> io::Result<()> {
    let workers = words.number()?;
    if workers == 0 || workers > 8 {
        return Err(unknown_line());
    }
    let turnstile = Turnstile::new(alloc)?;
    let hands = hands_at(alloc, &turnstile, workers)?;
    let Ok(pool) = Pool::new(alloc, hands) else {
        return Err(out_of_memory());
    };
    let mut setting = Setting {
        board: Board::new(alloc, workers)?,
        pool,
        turnstile,
    };
    answer_calls(rt, alloc, &mut setting, words, out)?;
    setting.turnstile.pass_all(rt);
    put_hands(out, gathered(rt, setting.pool).as_slice())
}
