// The whole query.

ghost use Rattle.std.specs.Prelude.{◌≡◌, false, IfOk, Ok, Err};
ghost use Rattle.sql_reader.specs.Readers.{Gives};
ghost use Rattle.sql_reader.specs.Parsers.{read_query};
ghost use Rattle.sql_reader.specs.Whole.{read_whole, ended, IsQuery, IsFirstStop};
ghost use Rattle.sql_reader.specs.declared.tree.Query.{Query};
ghost use Rattle.sql_reader.specs.declared.stop.Stop.{Stop};

use crate::column::name;
use crate::cond::{filter, having};
use crate::item::items;
use crate::join::joins;
use crate::order::{grouping, limit, ordering, semicolon};
use crate::stop::ReadError;
use crate::take::{take, unexpected};
use crate::tree::Query;
use sql_tokens::{Kind, Token};
use std::alloc::Global;

#[tactic(auto, unfolding(crate::specs::Parsers::read_query))]
fn query(alloc: Global, depth: usize, tokens: &[Token]) -> Result<(Query, &[Token]), ReadError>
    ensures { Gives (λ x. (x.0, x.1.now)) result (read_query depth false tokens.now) }
{
    let (_, rest) = take(tokens, Kind::Select)?;
    let (items, rest) = items(alloc, rest)?;
    let (_, rest) = take(rest, Kind::From)?;
    let (table, rest) = name(alloc, rest)?;
    let (joins, rest) = joins(alloc, rest)?;
    let (filter, rest) = filter(alloc, depth, rest)?;
    let (group, rest) = grouping(alloc, rest)?;
    let (having, rest) = having(alloc, depth, rest)?;
    let (order, rest) = ordering(alloc, rest)?;
    let (limit, rest) = limit(rest)?;
    let (_, rest) = semicolon(rest)?;
    let query = Query {
        items,
        table,
        joins,
        filter,
        group,
        having,
        order,
        limit,
    };
    Ok((query, rest))
}

/// How deep parentheses and NOT may nest.
pub const DEPTH: usize = 64;

// What was read, where all tokens are.
fn at_end<T: Drop>(tree: T, rest: &[Token]) -> Result<T, ReadError>
    ensures { Gives (λ x. x) result (ended tree rest.now) }
{
    if rest.is_empty() {
        Ok(tree)
    } else {
        Err(unexpected(rest))
    }
}

#[tactic(auto, unfolding(crate::specs::Whole::read_whole))]
fn whole(alloc: Global, depth: usize, tokens: &[Token]) -> Result<Query, ReadError>
    ensures { Gives (λ x. x) result (read_whole depth false tokens.now) }
{
    let (query, rest) = query(alloc, depth, tokens)?;
    at_end(query, rest)
}

/// The query that the tokens spell.
pub fn read_tokens(alloc: Global, tokens: &[Token]) -> Result<Query, ReadError>
    // What is read is a query, and all of the tokens spell it.
    ensures found { IfOk result (λ q. IsQuery DEPTH q tokens.now) }
    // What is spelled so is read, unless memory runs out.
    ensures only { (q : Query) → IsQuery DEPTH q tokens.now → Gives (λ x. x) result (Ok q) }
    // The fault is the first one.
    ensures fault { (f : Stop) → result ≡ Err (ReadError.Stop f) → IsFirstStop DEPTH tokens.now f }
{
    whole(alloc, DEPTH, tokens)
}
