// Grouping, order and limit.

ghost use Rattle.std.specs.Prelude.{◌≡◌, ◌∷◌, false, [], Ok, Err};
ghost use Rattle.sql_tokens.specs.declared.kind.Kind.TheVariants as k;
ghost use Rattle.sql_reader.specs.Readers.{Gives, read_optional};
ghost use Rattle.sql_reader.specs.Parsers.{read_fall, read_grouping, read_key, read_keys, read_limit, read_ordering, read_place, read_rows};

use crate::column::columns;
use crate::stop::{Bar, ReadError, Stop};
use crate::take::{ended_by, place, starts, take};
use crate::term::term;
use crate::tree::{ColRef, SqlKey};
use cube_val::Items;
use sql_tokens::{Kind, Token};
use std::alloc::Global;

#[tactic(auto, unfolding(crate::specs::Parsers::read_fall))]
fn fall(tokens: &[Token]) -> Result<(bool, &[Token]), ReadError>
    ensures { Gives (λ x. (x.0, x.1.now)) result (read_fall tokens.now) }
{
    if starts(tokens, Kind::Asc) {
        return ended_by(false, tokens, Kind::Asc);
    }
    ended_by(true, tokens, Kind::Desc)
}

#[tactic(auto, unfolding(crate::specs::Parsers::read_key))]
fn key(alloc: Global, tokens: &[Token]) -> Result<(SqlKey, &[Token]), ReadError>
    ensures { Gives (λ x. (x.0, x.1.now)) result (read_key tokens.now) }
{
    let (term, rest) = term(alloc, tokens)?;
    if !starts(rest, Kind::Asc) && !starts(rest, Kind::Desc) {
        return Ok((
            SqlKey {
                term,
                falling: false,
            },
            rest,
        ));
    }
    let (falling, rest) = fall(rest)?;
    Ok((SqlKey { term, falling }, rest))
}

#[tactic(auto, unfolding(crate::specs::Parsers::read_keys))]
fn keys(alloc: Global, tokens: &[Token]) -> Result<(Items<SqlKey>, &[Token]), ReadError>
    ensures { Gives (λ x. (x.0, x.1.now)) result (read_keys tokens.now) }
{
    let (first, mut rest) = key(alloc, tokens)?;
    let mut keys = Items::new(alloc);
    keys.push(first)?;
    'more: while starts(rest, Kind::Comma) {
        let (_, after) = take(rest, Kind::Comma)?;
        let (next, after) = key(alloc, after)?;
        keys.push(next)?;
        rest = after;
    }
    Ok((keys, rest))
}

#[tactic(auto, unfolding(crate::specs::Parsers::read_grouping))]
pub(crate) fn grouping(
    alloc: Global,
    tokens: &[Token],
) -> Result<(Items<ColRef>, &[Token]), ReadError>
    ensures { Gives (λ x. (x.0, x.1.now)) result (read_grouping tokens.now) }
{
    if !starts(tokens, Kind::Group) {
        return Ok((Items::new(alloc), tokens));
    }
    let (_, rest) = take(tokens, Kind::Group)?;
    let (_, rest) = take(rest, Kind::By)?;
    columns(alloc, rest)
}

#[tactic(auto, unfolding(crate::specs::Parsers::read_ordering))]
pub(crate) fn ordering(
    alloc: Global,
    tokens: &[Token],
) -> Result<(Items<SqlKey>, &[Token]), ReadError>
    ensures { Gives (λ x. (x.0, x.1.now)) result (read_ordering tokens.now) }
{
    if !starts(tokens, Kind::Order) {
        return Ok((Items::new(alloc), tokens));
    }
    let (_, rest) = take(tokens, Kind::Order)?;
    let (_, rest) = take(rest, Kind::By)?;
    keys(alloc, rest)
}

#[tactic(auto, unfolding(crate::specs::Parsers::read_rows, crate::specs::Parsers::strict_rows))]
fn rows(tokens: &[Token]) -> Result<(u32, &[Token]), ReadError>
    ensures { Gives (λ x. (x.0, x.1.now)) result (read_rows false tokens.now) }
{
    if starts(tokens, Kind::Number) {
        return Err(ReadError::Stop(Stop::Barred(Bar::BadNumber, tokens.len())));
    }
    let kind = if starts(tokens, Kind::One) {
        Kind::One
    } else {
        Kind::Whole
    };
    let (token, rest) = take(tokens, kind)?;
    Ok((token.payload.rows(), rest))
}

#[tactic(auto, unfolding(crate::specs::Parsers::read_limit))]
pub(crate) fn limit(tokens: &[Token]) -> Result<(Option<u32>, &[Token]), ReadError>
    ensures { Gives (λ x. (x.0, x.1.now)) result (read_optional (k.Limit ∷ []) (read_limit false) tokens.now) }
{
    if !starts(tokens, Kind::Limit) {
        return Ok((None, tokens));
    }
    let (_, rest) = take(tokens, Kind::Limit)?;
    let (rows, rest) = rows(rest)?;
    Ok((Some(rows), rest))
}

pub(crate) fn semicolon(tokens: &[Token]) -> Result<(Option<u32>, &[Token]), ReadError>
    ensures { Gives (λ x. (x.0, x.1.now)) result (read_optional (k.Semicolon ∷ []) (read_place k.Semicolon) tokens.now) }
{
    if !starts(tokens, Kind::Semicolon) {
        return Ok((None, tokens));
    }
    let (place, rest) = place(tokens, Kind::Semicolon)?;
    Ok((Some(place), rest))
}
