// Calls on one job board.

ghost use Rattle.std.specs.Prelude.{◌<◌, IfOk, OnOk};
ghost use Rattle.job_board.specs.BoardModel.{now};

use crate::calls::{put_history, put_refused, read_fault, read_noted, read_out};
use crate::facts::{range, rows_named};
use check_lines::{Words, known, out_of_memory, unknown_line};
use job_board::{Board, BoardRefusal, QueryWork, SmallWork};
use outside::{HandFault, Honest, NoWatch, StepWork};
use plain_answer::{AnswerTable, OutVal};
use run_history::Control;
use std::alloc::Global;
use std::io;
use std::io::Write;
use std::sync::Arc;
use std::thread::Threads;

// Hands of which nothing is known.
struct AnyHand;

impl Honest for AnyHand {
    ghost honest = { ⊥ };
}

// A claim, with its task.
#[derive(Drop)]
struct Claimed {
    job: u32,
    attempt: u32,
    task: Vec<u8>,
}

// Room for a turn, which was reserved before.
fn has_room(board: &Board<AnyHand>) -> io::Result<()>
    ensures { OnOk result (0 < board.now.room) }
{
    if board.room() == 0 {
        return Err(out_of_memory());
    }
    Ok(())
}

// The next line of a script, with room for its turn.
fn next_line(board: &Board<AnyHand>) -> io::Result<u32>
    ensures above { IfOk result (λ line. (now board.now).line < line) }
    ensures room { OnOk result (0 < board.now.room) }
{
    has_room(board)?;
    known(board.line().checked_add(1))
}

fn answer_load<W: Write>(
    alloc: Global,
    board: &mut Board<AnyHand>,
    words: &mut Words<'_>,
    out: &mut W,
) -> io::Result<()> {
    let rows = rows_named(alloc, words.next()?)?;
    let rows = Arc::new(alloc, rows)?;
    let line = next_line(board)?;
    board.load(line, 0, rows)?;
    out.write_all(b"; loaded")
}

fn answer_build<W: Write>(
    board: &mut Board<AnyHand>,
    words: &mut Words<'_>,
    out: &mut W,
) -> io::Result<()> {
    let range = range(words)?;
    let line = next_line(board)?;
    match board.submit(line, range) {
        Ok(number) => write!(out, "; job {number}"),
        Err(BoardRefusal::Refused(refused)) => put_refused(out, &refused),
        Err(BoardRefusal::Memory) => Err(out_of_memory()),
    }
}

fn answer_control<W: Write>(
    board: &mut Board<AnyHand>,
    control: Control,
    words: &mut Words<'_>,
    out: &mut W,
) -> io::Result<()> {
    let job = words.number()?;
    let line = next_line(board)?;
    match board.control(line, control, job) {
        Ok(controlled) => {
            write!(out, "; {}", controlled.state)?;
            match controlled.stop {
                Some(attempt) => write!(out, " stops {attempt}"),
                None => Ok(()),
            }
        }
        Err(refused) => put_refused(out, &refused),
    }
}

fn answer_await<W: Write>(
    board: &mut Board<AnyHand>,
    words: &mut Words<'_>,
    out: &mut W,
) -> io::Result<()> {
    let noted = read_noted(words)?;
    let line = next_line(board)?;
    if !board.may_take(&noted) {
        return out.write_all(b"; waits");
    }
    board.note(line, noted);
    out.write_all(b"; noted")
}

fn answer_ask<W: Write>(
    board: &mut Board<AnyHand>,
    words: &mut Words<'_>,
    out: &mut W,
) -> io::Result<()> {
    let session = words.number()?;
    let line = next_line(board)?;
    board.ask(line, session)?;
    out.write_all(b"; asked")
}

// The number of the step that is claimed is the first byte of its task.
fn answer_claim<W: Write>(
    board: &mut Board<AnyHand>,
    claims: &mut Vec<Claimed>,
    out: &mut W,
) -> io::Result<()> {
    has_room(board)?;
    if !board.has_worker() {
        return Err(unknown_line());
    }
    let Some(work) = board.claim()? else {
        return out.write_all(b"; none");
    };
    let step = work.task.first().copied().unwrap_or(0);
    claims.push(Claimed {
        job: work.job,
        attempt: work.attempt,
        task: work.task,
    })?;
    write!(out, "; step {step}")
}

// The product of a task.
fn product_of<R: Threads + Sync>(rt: &R, alloc: Global, task: &[u8]) -> io::Result<Vec<u8>> {
    match SmallWork::work(rt, alloc, task, &mut NoWatch) {
        Ok(product) => Ok(product),
        Err(_) => Err(unknown_line()),
    }
}

// The product of the task of a claim.
fn product_at<R: Threads + Sync>(
    rt: &R,
    alloc: Global,
    claims: &[Claimed],
    job: u32,
    attempt: u32,
) -> io::Result<Vec<u8>> {
    for claim in claims {
        if claim.job == job && claim.attempt == attempt {
            return product_of(rt, alloc, claim.task.as_slice());
        }
    }
    Err(unknown_line())
}

// Without its last byte.
fn cut(mut bytes: Vec<u8>) -> Vec<u8> {
    let _ = bytes.pop();
    bytes
}

// What the hand answers to an attempt: the product of its task, the product without its last byte, no byte, or a fault.
fn read_given<R: Threads + Sync>(
    rt: &R,
    alloc: Global,
    claims: &[Claimed],
    job: u32,
    attempt: u32,
    words: &mut Words<'_>,
) -> io::Result<Result<Vec<u8>, HandFault>> {
    match words.next()? {
        "product" => Ok(Ok(product_at(rt, alloc, claims, job, attempt)?)),
        "cut" => Ok(Ok(cut(product_at(rt, alloc, claims, job, attempt)?))),
        "nothing" => Ok(Ok(Vec::new(alloc))),
        name => Ok(Err(read_fault(name, words)?)),
    }
}

fn answer_end<R: Threads + Sync, W: Write>(
    rt: &R,
    alloc: Global,
    board: &mut Board<AnyHand>,
    claims: &[Claimed],
    words: &mut Words<'_>,
    out: &mut W,
) -> io::Result<()> {
    let job = words.number()?;
    let attempt = words.number()?;
    has_room(board)?;
    if !board.is_claimed(job, attempt) {
        return Err(unknown_line());
    }
    let given = read_given(rt, alloc, claims, job, attempt, words)?;
    let end = board.end_attempt(job, attempt, given);
    write!(out, "; {:?}", end.ended)
}

// The sum of the last column.
fn total(answer: &AnswerTable) -> i128 {
    let mut sum = 0i128;
    for row in answer.rows.as_slice() {
        if let Some(OutVal::Whole(value)) = row.as_slice().last() {
            sum = sum.wrapping_add(*value);
        }
    }
    sum
}

// Writes the line of a query, the version, and the sum of what is answered.
fn put_query<W: Write>(alloc: Global, work: &QueryWork, out: &mut W) -> io::Result<()> {
    let answer = work.cells.answer(alloc)?;
    let (line, version, sum) = (work.line, work.version, total(&answer));
    write!(out, "; line {line} version {version} sum {sum}")
}

// A query is taken.
fn answer_take<W: Write>(alloc: Global, board: &mut Board<AnyHand>, out: &mut W) -> io::Result<()> {
    has_room(board)?;
    if !board.has_worker() {
        return Err(unknown_line());
    }
    let Some(work) = board.take_query()? else {
        return out.write_all(b"; none");
    };
    put_query(alloc, &work, out)
}

fn answer_query_end<W: Write>(
    board: &mut Board<AnyHand>,
    words: &mut Words<'_>,
    out: &mut W,
) -> io::Result<()> {
    let line = words.number()?;
    let query = read_out(words)?;
    has_room(board)?;
    if !board.may_end(line, &query) {
        return out.write_all(b"; unlawful");
    }
    board.end_query(line, query);
    out.write_all(b"; ended")
}

fn answer_state<W: Write>(
    board: &Board<AnyHand>,
    words: &mut Words<'_>,
    out: &mut W,
) -> io::Result<()> {
    match board.job(words.number()?) {
        Some(job) => write!(out, "; {} {} done", job.state, job.done),
        None => out.write_all(b"; no job"),
    }
}

// A call that asks what the board holds.
fn answer_look<W: Write>(
    board: &Board<AnyHand>,
    word: &str,
    words: &mut Words<'_>,
    out: &mut W,
) -> io::Result<()> {
    match word {
        "worker" if board.has_worker() => out.write_all(b"; free"),
        "worker" => out.write_all(b"; busy"),
        "state" => answer_state(board, words, out),
        "settled" if board.settled() => out.write_all(b"; yes"),
        "settled" => out.write_all(b"; no"),
        "history" => put_history(out, board.history()),
        _ => Err(unknown_line()),
    }
}

// A command.
fn answer_command<W: Write>(
    alloc: Global,
    board: &mut Board<AnyHand>,
    word: &str,
    words: &mut Words<'_>,
    out: &mut W,
) -> io::Result<()> {
    match word {
        "load" => answer_load(alloc, board, words, out),
        "build" => answer_build(board, words, out),
        "pause" => answer_control(board, Control::Pause, words, out),
        "resume" => answer_control(board, Control::Resume, words, out),
        "discard" => answer_control(board, Control::Discard, words, out),
        "await" => answer_await(board, words, out),
        "ask" => answer_ask(board, words, out),
        "take" => answer_take(alloc, board, out),
        "end-query" => answer_query_end(board, words, out),
        _ => answer_look(board, word, words, out),
    }
}

// Makes one call.
fn answer_call<R: Threads + Sync, W: Write>(
    rt: &R,
    alloc: Global,
    board: &mut Board<AnyHand>,
    claims: &mut Vec<Claimed>,
    words: &mut Words<'_>,
    out: &mut W,
) -> io::Result<()> {
    board.reserve_turn()?;
    match words.next()? {
        "claim" => answer_claim(board, claims, out),
        "end" => answer_end(rt, alloc, board, claims, words, out),
        word => answer_command(alloc, board, word, words, out),
    }
}

fn answer_calls<R: Threads + Sync, W: Write>(
    rt: &R,
    alloc: Global,
    board: &mut Board<AnyHand>,
    claims: &mut Vec<Claimed>,
    words: &mut Words<'_>,
    out: &mut W,
) -> io::Result<()> {
    for _ in 0..u64::MAX {
        if words.is_empty() {
            break;
        }
        answer_call(rt, alloc, board, claims, words, out)?;
    }
    Ok(())
}

/// A board of two workers, and calls on it.
pub fn answer_board<R: Threads + Sync, W: Write>(
    rt: &R,
    alloc: Global,
    words: &mut Words<'_>,
    out: &mut W,
) -> io::Result<()> {
    let mut board = Board::new(alloc, 2)?;
    let mut claims = Vec::new(alloc);
    answer_calls(rt, alloc, &mut board, &mut claims, words, out)
}
