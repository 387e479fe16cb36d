// A text to a query.

ghost use Rattle.std.specs.Prelude.{◌≡◌, ◌≤◌, ◌<◌, length, IfOk, Ok, Err};
ghost use Rattle.query_faults.specs.declared.sql.SqlFault.{SqlFault};
ghost use Rattle.sql_reader.specs.declared.tree.Query.{Query};
ghost use Rattle.sql_reader.specs.Places.{answer_of, fault_at, kind_of_stop, place_left, tokens_left};
ghost use Rattle.sql_reader.specs.Sql.{GivesSql, IsFault, IsLeastFault, IsSql};

use crate::query::read_tokens;
use crate::stop::{Bar, ReadError, Stop};
use crate::tree::Query;
use sql_tokens::{SQL_MAX, SqlFault, SqlKind, Token, tokens_of};
use std::alloc::{AllocError, Global};

/// Why a text was not read.
#[derive(Drop)]
pub enum SqlRefusal {
    /// It is no query: the first fault, and where it is.
    Fault(SqlFault),
    /// Memory ran out. It says nothing of the text.
    Memory,
}

impl From<AllocError> for SqlRefusal {
    ghost use Rattle.sql_reader.specs.declared.sql.SqlRefusal.TheVariants.{Memory};

    ghost from_gives = { λ _ e. e ≡ Memory };

    fn from(_e: AllocError) -> SqlRefusal {
        SqlRefusal::Memory
    }
}

// The place of the token of which so many are left.
fn place_of(tokens: &[Token], left: usize) -> Option<u32>
    ensures { result ≡ place_left tokens.now left }
{
    if tokens.len() < left {
        return None;
    }
    match tokens.get(tokens.len() - left) {
        Some(token) => Some(token.place),
        None => None,
    }
}

fn left_of(stop: Stop) -> usize
    ensures { result ≡ tokens_left stop }
{
    match stop {
        Stop::Unexpected(left) => left,
        Stop::Barred(_, left) => left,
    }
}

fn kind_of(stop: Stop) -> SqlKind
    ensures { result ≡ kind_of_stop stop }
{
    match stop {
        Stop::Unexpected(_) => SqlKind::Unexpected,
        Stop::Barred(Bar::TooDeep, _) => SqlKind::TooDeep,
        Stop::Barred(Bar::BadNumber, _) => SqlKind::BadNumber,
    }
}

// The fault of tokens that stop so, before a byte at which no token starts, or before the end.
fn fault_of(tokens: &[Token], bad: Option<SqlFault>, end: u32, stop: Stop) -> SqlFault
    ensures { result ≡ fault_at tokens.now bad end stop }
{
    let kind = kind_of(stop);
    match place_of(tokens, left_of(stop)) {
        Some(place) => SqlFault { place, kind },
        None => match bad {
            Some(bad) => bad,
            None => SqlFault {
                place: end,
                kind: SqlKind::Unexpected,
            },
        },
    }
}

// What is answered where tokens were read so, before a byte at which no token starts, or before the end.
fn answer<T: Drop>(
    read: Result<T, ReadError>,
    tokens: &[Token],
    bad: Option<SqlFault>,
    end: u32,
) -> Result<T, SqlRefusal>
    ensures { result ≡ answer_of read tokens.now bad end }
{
    match read {
        Ok(tree) => match bad {
            None => Ok(tree),
            Some(bad) => Err(SqlRefusal::Fault(bad)),
        },
        Err(ReadError::Memory) => Err(SqlRefusal::Memory),
        Err(ReadError::Stop(stop)) => Err(SqlRefusal::Fault(fault_of(tokens, bad, end, stop))),
    }
}

// The query that a text spells which isn't too long.
fn read_short(alloc: Global, text: &[u8]) -> Result<Query, SqlRefusal>
    requires { length text.now ≤ SQL_MAX }
    ensures found { IfOk result (λ q. IsSql text.now q) }
    ensures only { (q : Query) → IsSql text.now q → GivesSql result q }
    ensures fault { (f : SqlFault) → result ≡ Err (SqlRefusal.Fault f) → IsLeastFault text.now f }
{
    let lexed = tokens_of(alloc, text)?;
    let tokens = lexed.tokens.as_slice();
    let read = read_tokens(alloc, tokens);
    answer(read, tokens, lexed.fault, text.len() as u32)
}

/// The query that a text spells. A text that is no query is refused by its first fault: TooLong, else the fault with the least place.
pub fn read_sql(alloc: Global, text: &[u8]) -> Result<Query, SqlRefusal>
    // What is read is a query, with its tree.
    ensures found { IfOk result (λ q. IsSql text.now q) }
    // Each query is read, unless memory runs out.
    ensures only { (q : Query) → IsSql text.now q → GivesSql result q }
    // A fault is the text's first one.
    ensures fault { (f : SqlFault) → result ≡ Err (SqlRefusal.Fault f) → IsFault text.now f }
{
    if text.len() > SQL_MAX {
        return Err(SqlRefusal::Fault(SqlFault {
            place: 0,
            kind: SqlKind::TooLong,
        }));
    }
    read_short(alloc, text)
}
