// Names and columns.

ghost use Rattle.std.specs.Prelude.{◌≡◌, Ok, Err};
ghost use Rattle.sql_reader.specs.Readers.{Gives};
ghost use Rattle.sql_reader.specs.Parsers.{read_col, read_cols, read_name};

use crate::stop::ReadError;
use crate::take::{starts, take};
use crate::tree::{ColRef, Name};
use cube_val::Items;
use sql_tokens::{Kind, Token};
use std::alloc::Global;

#[tactic(auto, unfolding(crate::specs::Parsers::read_name))]
pub(crate) fn name(alloc: Global, tokens: &[Token]) -> Result<(Name, &[Token]), ReadError>
    ensures { Gives (λ x. (x.0, x.1.now)) result (read_name tokens.now) }
{
    let (token, rest) = take(tokens, Kind::Name)?;
    let text = token.payload.name(alloc)?;
    Ok((
        Name {
            place: token.place,
            text,
        },
        rest,
    ))
}

#[tactic(auto, unfolding(crate::specs::Parsers::read_col))]
pub(crate) fn column(alloc: Global, tokens: &[Token]) -> Result<(ColRef, &[Token]), ReadError>
    ensures { Gives (λ x. (x.0, x.1.now)) result (read_col tokens.now) }
{
    let (first, rest) = name(alloc, tokens)?;
    if !starts(rest, Kind::Dot) {
        return Ok((
            ColRef {
                table: None,
                column: first,
            },
            rest,
        ));
    }
    let (_, rest) = take(rest, Kind::Dot)?;
    let (second, rest) = name(alloc, rest)?;
    Ok((
        ColRef {
            table: Some(first),
            column: second,
        },
        rest,
    ))
}

#[tactic(auto, unfolding(crate::specs::Parsers::read_cols))]
pub(crate) fn columns(
    alloc: Global,
    tokens: &[Token],
) -> Result<(Items<ColRef>, &[Token]), ReadError>
    ensures { Gives (λ x. (x.0, x.1.now)) result (read_cols tokens.now) }
{
    let (first, mut rest) = column(alloc, tokens)?;
    let mut columns = Items::new(alloc);
    columns.push(first)?;
    'more: while starts(rest, Kind::Comma) {
        let (_, after) = take(rest, Kind::Comma)?;
        let (next, after) = column(alloc, after)?;
        columns.push(next)?;
        rest = after;
    }
    Ok((columns, rest))
}
