// Turns, and the log of them.

ghost use Rattle.std.specs.Prelude.{◌≡◌, ◌+◌, ◌<◌, ◌≤◌, ◌++◌, ◌∷◌, [], OnOk, vec_capacity, vec_len};
ghost use Rattle.run_history.specs.Commands.{event_of};
ghost use Rattle.job_board.specs.Turns.{IsLog, IsRecorded, turn_of};

use fixed_state::SharedTable;
use range_list::Range;
use run_history::{Control, Event, Noted, Outcome, QueryOut};
use std::alloc::AllocError;

/// A turn of the coordinator, with its command where it is one. A command has its line first.
#[derive(Drop)]
pub enum BoardTurn {
    /// Rows were loaded into the table of this place.
    Loads(u32, usize, SharedTable),
    /// A BUILD of a range was submitted.
    Builds(u32, Range),
    /// A job was steered.
    Steers(u32, Control, u32),
    /// A query of this session was accepted.
    Asks(u32, u32),
    /// A command that changes nothing.
    Notes(u32, Noted),
    /// This job's next step was claimed, under this attempt.
    Claims(u32, u32),
    /// This attempt of this job ended.
    StepEnds(u32, u32, Outcome),
    /// The query of this line was taken.
    QueryTakes(u32),
    /// The query of this line ended.
    QueryEnds(u32, QueryOut),
}

/// The turns so far, and their events.
#[derive(Drop)]
pub(crate) struct Log {
    pub(crate) turns: Vec<BoardTurn>,
    pub(crate) history: Vec<Event>,
}

/// The event of a turn.
pub(crate) fn event(turn: &BoardTurn) -> Event
    ensures { result ≡ event_of (turn_of turn.now) }
{
    match turn {
        BoardTurn::Loads(line, _, _) => Event::Command(*line),
        BoardTurn::Builds(line, _) => Event::Command(*line),
        BoardTurn::Steers(line, _, _) => Event::Command(*line),
        BoardTurn::Asks(line, _) => Event::Command(*line),
        BoardTurn::Notes(line, _) => Event::Command(*line),
        BoardTurn::Claims(job, attempt) => Event::Claim(*job, *attempt),
        BoardTurn::StepEnds(job, attempt, outcome) => Event::StepEnd(*job, *attempt, *outcome),
        BoardTurn::QueryTakes(line) => Event::QueryTake(*line),
        BoardTurn::QueryEnds(line, out) => Event::QueryEnd(*line, *out),
    }
}

// Puts an item last, where there is room.
fn put<T: Drop>(list: &mut Vec<T>, item: T)
    requires { vec_len list.old < vec_capacity list.old }
    ensures items { list.new.items ≡ list.old.items ++ item ∷ [] }
    ensures len { vec_len list.new ≡ vec_len list.old + 1 }
    ensures capacity { vec_capacity list.old ≤ vec_capacity list.new }
{
    let _ = list.push(item);
}

/// Records a turn. It takes no memory.
pub(crate) fn record_turn(log: &mut Log, turn: BoardTurn)
    requires turns { vec_len log.old.turns < vec_capacity log.old.turns }
    requires history { vec_len log.old.history < vec_capacity log.old.history }
    ensures { IsRecorded log.old turn log.new }
{
    let event = event(&turn);
    put(&mut log.turns, turn);
    put(&mut log.history, event);
}

/// Room for one turn. There are never more than four thousand million.
pub(crate) fn reserve_log(log: &mut Log) -> Result<(), AllocError>
    requires { IsLog 0 log.old }
    ensures room { OnOk result (IsLog 1 log.new) }
    ensures same { IsLog 0 log.new }
    ensures turns { log.new.turns.items ≡ log.old.turns.items }
{
    if log.turns.len() >= 4_000_000_000 {
        return Err(AllocError);
    }
    log.turns.reserve(1)?;
    log.history.reserve(1)
}
