// Select items.

ghost use Rattle.std.specs.Prelude.{◌≡◌, Ok, Err};
ghost use Rattle.sql_reader.specs.Readers.{Gives};
ghost use Rattle.sql_reader.specs.Parsers.{read_alias, read_item, read_items};

use crate::column::name;
use crate::stop::ReadError;
use crate::take::{starts, take};
use crate::term::term;
use crate::tree::{Item, Name};
use cube_val::Items;
use sql_tokens::{Kind, Token};
use std::alloc::Global;

#[tactic(auto, unfolding(crate::specs::Parsers::read_alias))]
fn alias(alloc: Global, tokens: &[Token]) -> Result<(Name, &[Token]), ReadError>
    ensures { Gives (λ x. (x.0, x.1.now)) result (read_alias tokens.now) }
{
    if starts(tokens, Kind::As) {
        let (_, rest) = take(tokens, Kind::As)?;
        return name(alloc, rest);
    }
    name(alloc, tokens)
}

#[tactic(auto, unfolding(crate::specs::Parsers::read_item))]
fn item(alloc: Global, tokens: &[Token]) -> Result<(Item, &[Token]), ReadError>
    ensures { Gives (λ x. (x.0, x.1.now)) result (read_item tokens.now) }
{
    let (term, rest) = term(alloc, tokens)?;
    if !starts(rest, Kind::As) && !starts(rest, Kind::Name) {
        return Ok((Item { term, alias: None }, rest));
    }
    let (alias, rest) = alias(alloc, rest)?;
    Ok((
        Item {
            term,
            alias: Some(alias.text),
        },
        rest,
    ))
}

#[tactic(auto, unfolding(crate::specs::Parsers::read_items))]
pub(crate) fn items(alloc: Global, tokens: &[Token]) -> Result<(Items<Item>, &[Token]), ReadError>
    ensures { Gives (λ x. (x.0, x.1.now)) result (read_items tokens.now) }
{
    let (first, mut rest) = item(alloc, tokens)?;
    let mut items = Items::new(alloc);
    items.push(first)?;
    'more: while starts(rest, Kind::Comma) {
        let (_, after) = take(rest, Kind::Comma)?;
        let (next, after) = item(alloc, after)?;
        items.push(next)?;
        rest = after;
    }
    Ok((items, rest))
}
