// Queries, and their ends.

ghost use Rattle.std.specs.Prelude.{◌≡◌, ◌==◌, ◌+◌, ◌<◌, ◌^◌, ℕ, true, false, Some, None, IfSome, IfOk, OnOk, OnErr, List, if◌then◌else◌, filter, not, option_map, position, find, map, length, slice_get};
ghost use Rattle.std.specs.List.{list_any};
ghost use Rattle.run_history.specs.Commands.Command.{Ask};
ghost use Rattle.run_history.specs.Histories.{IsNextOfSession};
ghost use Rattle.run_history.specs.Steps.{accepted, answered_as, query_ended, query_taken};
ghost use Rattle.run_history.specs.World.{World};
ghost use Rattle.run_state.specs.States.{IsStateOf, answered_in};
ghost use Rattle.run_state.specs.Orderly.{AreListed, has_session};
ghost use Rattle.run_state.specs.Orders.{KeepsData, is_asking};
ghost use Rattle.run_state.specs.declared.parts.WaitingQuery.{WaitingQuery};
ghost use Rattle.run_state.specs.declared.parts.QueryInFlight.{QueryInFlight};

use crate::parts::{QueryInFlight, RunState, Session, WaitingQuery};
use crate::ready::ReadyHandle;
use crate::room::put;
use crate::table::TableHandle;
use run_history::QueryOut;
use std::alloc::AllocError;

// Lists a session that is not listed yet, with no answer.
fn list_session(sessions: &mut Vec<Session>, session: u32) -> Result<(), AllocError>
    ensures listed { OnOk result (has_session sessions.new.items session ≡ true) }
    ensures answers { (other : ℕ) → answered_in sessions.new.items other ≡ answered_in sessions.old.items other }
    ensures others { (listed : List ℕ) → AreListed sessions.old.items listed → AreListed sessions.new.items listed }
{
    if !sessions.iter().any(|listed| listed.session == session) {
        sessions.push(Session {
            session,
            answered: 0,
        })?;
    }
    Ok(())
}

/// Accepts a query of a session. Where no memory is found nothing is recorded.
pub fn ask<T: TableHandle, P: Drop, R: ReadyHandle, Q: Drop>(
    state: &mut RunState<T, P, R, Q>,
    line: u32,
    session: u32,
    query: Q,
) -> Result<(), AllocError>
    requires above { state.old.line < line }
    requires few { state.old.accepted + 1 < 2 ^ 32 }
    ensures state { OnOk result ((w : World Q) → IsStateOf T.rows R.ready_set w state.old → IsStateOf T.rows R.ready_set (accepted 0 (record w { line = line }) (Ask session query)) state.new) }
    ensures kept { KeepsData state.old state.new }
    ensures err { OnErr result ((w : World Q) → IsStateOf T.rows R.ready_set w state.old → IsStateOf T.rows R.ready_set w state.new) }
{
    list_session(&mut state.sessions, session)?;
    let at_command = state.ready.version();
    state.waiting.push(WaitingQuery {
        line,
        session,
        query,
        at_command,
    })?;
    state.line = line;
    state.accepted += 1;
    Ok(())
}

// Whether a query of the session is in flight.
fn asking(asked: &[QueryInFlight], session: u32) -> bool
    ensures { result ≡ is_asking asked.now session }
{
    asked.iter().any(|q| q.session == session)
}

// The place of the first waiting query of whose session none is in flight.
fn first_free<Q>(waiting: &[WaitingQuery<Q>], asked: &[QueryInFlight]) -> Option<usize>
    ensures { result ≡ position (λ q. not (is_asking asked.now q.session)) waiting.now }
{
    waiting.iter().position(|q| !asking(asked, q.session))
}

/// The place of the first waiting query of whose session none is in flight; `None` exactly where there is no such query.
pub fn next_query<T: TableHandle, P: Drop, R: ReadyHandle, Q: Drop>(
    state: &RunState<T, P, R, Q>,
) -> Option<usize>
    ensures place { result ≡ position (λ q. not (is_asking state.now.asked.items q.session)) state.now.waiting.items }
    ensures next { IfSome result (λ place. (q : WaitingQuery Q) → slice_get state.now.waiting.items place ≡ Some q → (w : World Q) → IsStateOf T.rows R.ready_set w state.now → IsNextOfSession w (find (λ other. other.line == q.line) w.waiting)) }
{
    first_free(&state.waiting, &state.asked)
}

/// Takes the query at a place. Where no memory is found nothing is recorded.
pub fn take_query<T: TableHandle, P: Drop, R: ReadyHandle, Q: Drop>(
    state: &mut RunState<T, P, R, Q>,
    place: usize,
) -> Result<WaitingQuery<Q>, AllocError>
    requires { place < length state.old.waiting.items }
    ensures query { IfOk result (λ q. slice_get state.old.waiting.items place ≡ Some q) }
    ensures state { IfOk result (λ q. (w : World Q) → IsStateOf T.rows R.ready_set w state.old → IsStateOf T.rows R.ready_set (query_taken w q.line (find (λ other. other.line == q.line) w.waiting)) state.new) }
    ensures kept { KeepsData state.old state.new }
    ensures err { OnErr result ((w : World Q) → IsStateOf T.rows R.ready_set w state.old → IsStateOf T.rows R.ready_set w state.new) }
{
    state.asked.reserve(1)?;
    let query = state.waiting.remove(place);
    let at_take = state.ready.version();
    let flight = QueryInFlight {
        line: query.line,
        session: query.session,
        at_command: query.at_command,
        at_take,
    };
    put(&mut state.asked, flight);
    Ok(query)
}

// The place of a session.
fn place_of_session(sessions: &[Session], session: u32) -> Option<usize>
    ensures { result ≡ position (λ listed. listed.session == session) sessions.now }
{
    sessions.iter().position(|listed| listed.session == session)
}

// Records the version of a session's last answer.
fn set_answered(sessions: &mut Vec<Session>, session: u32, version: u32)
    requires { has_session sessions.old.items session ≡ true }
    ensures answers { (other : ℕ) → answered_in sessions.new.items other ≡ (if other == session then version else answered_in sessions.old.items other) }
    ensures others { (listed : List ℕ) → AreListed sessions.old.items listed → AreListed sessions.new.items listed }
{
    if let Some(place) = place_of_session(sessions, session) {
        sessions[place] = Session {
            session,
            answered: version,
        };
    }
}

// The session of the query in flight of this line.
fn session_of(asked: &[QueryInFlight], line: u32) -> Option<u32>
    ensures { result ≡ option_map (λ q. q.session) (find (λ q. q.line == line) asked.now) }
{
    asked.iter().find(|q| q.line == line).map(|q| q.session)
}

// The queries in flight without that of this line.
fn drop_query(asked: &mut Vec<QueryInFlight>, line: u32)
    ensures { asked.new.items ≡ filter (λ q. not (q.line == line)) asked.old.items }
{
    asked.retain(move |q| q.line != line);
}

// What the end of a query is to its session.
fn note_answer(sessions: &mut Vec<Session>, asked: &[QueryInFlight], line: u32, out: QueryOut)
    requires { IfSome (find (λ q. q.line == line) asked.now) (λ q. has_session sessions.old.items q.session ≡ true) }
    ensures answers { (q : QueryInFlight) → find (λ other. other.line == line) asked.now ≡ Some q → (other : ℕ) → answered_in sessions.new.items other ≡ answered_as out q.session (answered_in sessions.old.items) other }
    ensures others { (listed : List ℕ) → AreListed sessions.old.items listed → AreListed sessions.new.items listed }
{
    let QueryOut::Answered(version) = out else {
        return;
    };
    let Some(session) = session_of(asked, line) else {
        return;
    };
    set_answered(sessions, session, version);
}

/// The query of this line has its end. It takes no memory.
pub fn end_query<T: TableHandle, P: Drop, R: ReadyHandle, Q: Drop>(
    state: &mut RunState<T, P, R, Q>,
    line: u32,
    out: QueryOut,
)
    requires { list_any (λ q. q.line == line) state.old.asked.items ≡ true }
    ensures state { (w : World Q) → IsStateOf T.rows R.ready_set w state.old → IsStateOf T.rows R.ready_set (query_ended w line out (find (λ q. q.waiting.line == line) w.asked)) state.new }
    ensures kept { KeepsData state.old state.new }
{
    note_answer(&mut state.sessions, &state.asked, line, out);
    drop_query(&mut state.asked, line);
}
