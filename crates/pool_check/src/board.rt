// Commands on the board.

ghost use Rattle.std.specs.Prelude.{◌<◌, IfOk, OnOk};
ghost use Rattle.job_board.specs.BoardModel.{now};

use crate::facts::{range, rows_named};
use crate::gate_hand::GateHand;
use check_lines::{Words, known, out_of_memory, unknown_line};
use job_board::{Board, BoardRefusal};
use run_history::{Control, Event};
use std::alloc::Global;
use std::io;
use std::io::Write;
use std::sync::Arc;

/// Room for a turn, which was reserved before.
pub fn has_room(board: &Board<GateHand>) -> io::Result<()>
    ensures { OnOk result (0 < board.now.room) }
{
    if board.room() == 0 {
        return Err(out_of_memory());
    }
    Ok(())
}

// The next line of a script, with room for its turn.
fn next_line(board: &Board<GateHand>) -> io::Result<u32>
    ensures above { IfOk result (λ line. (now board.now).line < line) }
    ensures room { OnOk result (0 < board.now.room) }
{
    has_room(board)?;
    known(board.line().checked_add(1))
}

fn answer_load<W: Write>(
    alloc: Global,
    board: &mut Board<GateHand>,
    words: &mut Words<'_>,
    out: &mut W,
) -> io::Result<()> {
    let rows = rows_named(alloc, words.next()?)?;
    let rows = Arc::new(alloc, rows)?;
    let line = next_line(board)?;
    board.load(line, 0, rows)?;
    out.write_all(b"; loaded")
}

fn answer_build<W: Write>(
    board: &mut Board<GateHand>,
    words: &mut Words<'_>,
    out: &mut W,
) -> io::Result<()> {
    let range = range(words)?;
    let line = next_line(board)?;
    match board.submit(line, range) {
        Ok(number) => write!(out, "; job {number}"),
        Err(BoardRefusal::Refused(_)) => out.write_all(b"; refused"),
        Err(BoardRefusal::Memory) => Err(out_of_memory()),
    }
}

fn answer_control<W: Write>(
    board: &mut Board<GateHand>,
    control: Control,
    words: &mut Words<'_>,
    out: &mut W,
) -> io::Result<()> {
    let job = words.number()?;
    let line = next_line(board)?;
    match board.control(line, control, job) {
        Ok(controlled) => write!(out, "; {}", controlled.state),
        Err(_) => out.write_all(b"; refused"),
    }
}

fn answer_ask<W: Write>(
    board: &mut Board<GateHand>,
    words: &mut Words<'_>,
    out: &mut W,
) -> io::Result<()> {
    let session = words.number()?;
    let line = next_line(board)?;
    board.ask(line, session)?;
    out.write_all(b"; asked")
}

// Writes the events, in their order.
fn put_history<W: Write>(out: &mut W, history: &[Event]) -> io::Result<()> {
    out.write_all(b";")?;
    for event in history {
        write!(out, " {event:?}")?;
    }
    Ok(())
}

/// A command, or `history`.
pub fn answer_command<W: Write>(
    alloc: Global,
    board: &mut Board<GateHand>,
    word: &str,
    words: &mut Words<'_>,
    out: &mut W,
) -> io::Result<()> {
    match word {
        "load" => answer_load(alloc, board, words, out),
        "build" => answer_build(board, words, out),
        "pause" => answer_control(board, Control::Pause, words, out),
        "resume" => answer_control(board, Control::Resume, words, out),
        "discard" => answer_control(board, Control::Discard, words, out),
        "ask" => answer_ask(board, words, out),
        "history" => put_history(out, board.history()),
        _ => Err(unknown_line()),
    }
}
