// Literals.

ghost use Rattle.std.specs.Prelude.{◌≡◌, false, Ok, Err};
ghost use Rattle.sql_reader.specs.Readers.{Gives};
ghost use Rattle.sql_reader.specs.Parsers.{read_lit, read_lit_list, read_lits, read_number, read_sign, read_signed};

use crate::parts::Sign;
use crate::stop::ReadError;
use crate::take::{ended_by, starts, take};
use crate::tree::{SqlLit, SqlLitKind};
use cube_val::Items;
use sql_tokens::{Kind, Token};
use std::alloc::Global;

#[tactic(auto, unfolding(crate::specs::Parsers::read_number))]
fn number(tokens: &[Token]) -> Result<(&Token, &[Token]), ReadError>
    ensures { Gives (λ x. (x.0.now, x.1.now)) result (read_number tokens.now) }
{
    let kind = if starts(tokens, Kind::One) {
        Kind::One
    } else if starts(tokens, Kind::Whole) {
        Kind::Whole
    } else {
        Kind::Number
    };
    take(tokens, kind)
}

#[tactic(auto, unfolding(crate::specs::Parsers::read_sign))]
fn sign(tokens: &[Token]) -> Result<(Sign, &[Token]), ReadError>
    ensures { Gives (λ x. (x.0, x.1.now)) result (read_sign tokens.now) }
{
    if starts(tokens, Kind::Plus) {
        let (token, rest) = take(tokens, Kind::Plus)?;
        return Ok((
            Sign {
                negative: false,
                place: token.place,
            },
            rest,
        ));
    }
    let (token, rest) = take(tokens, Kind::Minus)?;
    Ok((
        Sign {
            negative: true,
            place: token.place,
        },
        rest,
    ))
}

#[tactic(auto, unfolding(crate::specs::Parsers::read_signed))]
fn signed(tokens: &[Token]) -> Result<(SqlLit, &[Token]), ReadError>
    ensures { Gives (λ x. (x.0, x.1.now)) result (read_signed tokens.now) }
{
    if !starts(tokens, Kind::Plus) && !starts(tokens, Kind::Minus) {
        let (number, rest) = number(tokens)?;
        return Ok((
            SqlLit {
                place: number.place,
                kind: SqlLitKind::Number(number.payload.units().signed(false)),
            },
            rest,
        ));
    }
    let (sign, rest) = sign(tokens)?;
    let (number, rest) = number(rest)?;
    Ok((
        SqlLit {
            place: sign.place,
            kind: SqlLitKind::Number(number.payload.units().signed(sign.negative)),
        },
        rest,
    ))
}

#[tactic(auto, unfolding(crate::specs::Parsers::read_lit))]
pub(crate) fn lit(alloc: Global, tokens: &[Token]) -> Result<(SqlLit, &[Token]), ReadError>
    ensures { Gives (λ x. (x.0, x.1.now)) result (read_lit tokens.now) }
{
    if starts(tokens, Kind::Text) {
        let (token, rest) = take(tokens, Kind::Text)?;
        let text = token.payload.text(alloc)?;
        return Ok((
            SqlLit {
                place: token.place,
                kind: SqlLitKind::Text(text),
            },
            rest,
        ));
    }
    if starts(tokens, Kind::Date) {
        let (date, rest) = take(tokens, Kind::Date)?;
        let (token, rest) = take(rest, Kind::Text)?;
        let text = token.payload.text(alloc)?;
        return Ok((
            SqlLit {
                place: date.place,
                kind: SqlLitKind::Date(text),
            },
            rest,
        ));
    }
    signed(tokens)
}

#[tactic(auto, unfolding(crate::specs::Parsers::read_lit_list))]
fn lit_list(alloc: Global, tokens: &[Token]) -> Result<(Items<SqlLit>, &[Token]), ReadError>
    ensures { Gives (λ x. (x.0, x.1.now)) result (read_lit_list tokens.now) }
{
    let (first, mut rest) = lit(alloc, tokens)?;
    let mut lits = Items::new(alloc);
    lits.push(first)?;
    'more: while starts(rest, Kind::Comma) {
        let (_, after) = take(rest, Kind::Comma)?;
        let (next, after) = lit(alloc, after)?;
        lits.push(next)?;
        rest = after;
    }
    Ok((lits, rest))
}

#[tactic(auto, unfolding(crate::specs::Parsers::read_lits))]
pub(crate) fn lits(alloc: Global, tokens: &[Token]) -> Result<(Items<SqlLit>, &[Token]), ReadError>
    ensures { Gives (λ x. (x.0, x.1.now)) result (read_lits tokens.now) }
{
    let (_, rest) = take(tokens, Kind::Open)?;
    let (lits, rest) = lit_list(alloc, rest)?;
    ended_by(lits, rest, Kind::Close)
}
