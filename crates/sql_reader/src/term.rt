// Columns and aggregates.

ghost use Rattle.std.specs.Prelude.{◌≡◌, Ok, Err};
ghost use Rattle.sql_reader.specs.Readers.{Gives};
ghost use Rattle.sql_reader.specs.Parsers.{read_count, read_counted, read_measure, read_term};

use crate::column::column;
use crate::stop::ReadError;
use crate::take::{ended_by, starts, take};
use crate::tree::{AggWord, ColRef, Name, SqlTerm};
use sql_tokens::{Kind, Token};
use std::alloc::Global;

#[tactic(auto, unfolding(crate::specs::Parsers::read_counted))]
fn counted(
    alloc: Global,
    tokens: &[Token],
) -> Result<((AggWord, Option<ColRef>), &[Token]), ReadError>
    ensures { Gives (λ x. (x.0, x.1.now)) result (read_counted tokens.now) }
{
    if starts(tokens, Kind::Star) {
        return ended_by((AggWord::CountRows, None), tokens, Kind::Star);
    }
    if starts(tokens, Kind::One) {
        return ended_by((AggWord::CountRows, None), tokens, Kind::One);
    }
    if starts(tokens, Kind::Distinct) {
        let (_, rest) = take(tokens, Kind::Distinct)?;
        let (column, rest) = column(alloc, rest)?;
        return Ok(((AggWord::CountDistinct, Some(column)), rest));
    }
    let (column, rest) = column(alloc, tokens)?;
    Ok(((AggWord::CountColumn, Some(column)), rest))
}

#[tactic(auto, unfolding(crate::specs::Parsers::read_count))]
fn count(alloc: Global, tokens: &[Token]) -> Result<(SqlTerm, &[Token]), ReadError>
    ensures { Gives (λ x. (x.0, x.1.now)) result (read_count tokens.now) }
{
    let (token, rest) = take(tokens, Kind::Count)?;
    let (_, rest) = take(rest, Kind::Open)?;
    let ((word, column), rest) = counted(alloc, rest)?;
    let (_, rest) = take(rest, Kind::Close)?;
    Ok((
        SqlTerm::Agg {
            place: token.place,
            word,
            column,
        },
        rest,
    ))
}

#[tactic(auto, unfolding(crate::specs::Parsers::read_measure))]
fn measure(
    alloc: Global,
    tokens: &[Token],
    kind: Kind,
    word: AggWord,
) -> Result<(SqlTerm, &[Token]), ReadError>
    ensures { Gives (λ x. (x.0, x.1.now)) result (read_measure kind word tokens.now) }
{
    let (token, rest) = take(tokens, kind)?;
    let (_, rest) = take(rest, Kind::Open)?;
    let (column, rest) = column(alloc, rest)?;
    let (_, rest) = take(rest, Kind::Close)?;
    Ok((
        SqlTerm::Agg {
            place: token.place,
            word,
            column: Some(column),
        },
        rest,
    ))
}

#[tactic(auto, unfolding(crate::specs::Parsers::read_term))]
pub(crate) fn term(alloc: Global, tokens: &[Token]) -> Result<(SqlTerm, &[Token]), ReadError>
    ensures { Gives (λ x. (x.0, x.1.now)) result (read_term tokens.now) }
{
    if starts(tokens, Kind::Name) {
        let (column, rest) = column(alloc, tokens)?;
        return Ok((SqlTerm::Col(column), rest));
    }
    if starts(tokens, Kind::Count) {
        return count(alloc, tokens);
    }
    if starts(tokens, Kind::Sum) {
        return measure(alloc, tokens, Kind::Sum, AggWord::Sum);
    }
    if starts(tokens, Kind::Min) {
        return measure(alloc, tokens, Kind::Min, AggWord::Min);
    }
    if starts(tokens, Kind::Max) {
        return measure(alloc, tokens, Kind::Max, AggWord::Max);
    }
    measure(alloc, tokens, Kind::Avg, AggWord::Avg)
}
