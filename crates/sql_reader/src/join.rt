// Joins.

ghost use Rattle.std.specs.Prelude.{◌≡◌, ◌∷◌, false, [], Ok, Err};
ghost use Rattle.sql_tokens.specs.declared.kind.Kind.TheVariants as k;
ghost use Rattle.sql_reader.specs.Kinds.{heads};
ghost use Rattle.sql_reader.specs.Readers.{Gives};
ghost use Rattle.sql_reader.specs.Parsers.{read_after, read_col, read_join, read_join_kind, read_join_pair, read_join_pairs, read_join_word, read_joins};

use crate::column::{column, name};
use crate::stop::ReadError;
use crate::take::{ended_by, place, starts, take};
use crate::tree::{ColRef, Join, JoinKind, JoinPair};
use cube_val::Items;
use sql_tokens::{Kind, Token};
use std::alloc::Global;

#[tactic(auto, unfolding(crate::specs::Parsers::read_join_word))]
fn join_word(tokens: &[Token]) -> Result<(JoinKind, &[Token]), ReadError>
    ensures { Gives (λ x. (x.0, x.1.now)) result (read_join_word tokens.now) }
{
    if starts(tokens, Kind::Inner) {
        return ended_by(JoinKind::Inner, tokens, Kind::Inner);
    }
    let (_, rest) = take(tokens, Kind::Left)?;
    if !starts(rest, Kind::Outer) {
        return Ok((JoinKind::Left, rest));
    }
    let (_, rest) = place(rest, Kind::Outer)?;
    Ok((JoinKind::Left, rest))
}

#[tactic(auto, unfolding(crate::specs::Parsers::read_join_kind))]
fn join_kind(tokens: &[Token]) -> Result<(JoinKind, &[Token]), ReadError>
    ensures { Gives (λ x. (x.0, x.1.now)) result (read_join_kind tokens.now) }
{
    if !starts(tokens, Kind::Inner) && !starts(tokens, Kind::Left) {
        return Ok((JoinKind::Inner, tokens));
    }
    join_word(tokens)
}

#[tactic(auto, unfolding(crate::specs::Parsers::read_join_pair))]
fn join_pair(alloc: Global, tokens: &[Token]) -> Result<(JoinPair, &[Token]), ReadError>
    ensures { Gives (λ x. (x.0, x.1.now)) result (read_join_pair tokens.now) }
{
    let (left, rest) = column(alloc, tokens)?;
    let (right, rest) = equal_column(alloc, rest)?;
    Ok((JoinPair { left, right }, rest))
}

// The column behind an equals sign.
fn equal_column(alloc: Global, tokens: &[Token]) -> Result<(ColRef, &[Token]), ReadError>
    ensures { Gives (λ x. (x.0, x.1.now)) result (read_after k.Equal read_col tokens.now) }
{
    let (_, rest) = take(tokens, Kind::Equal)?;
    column(alloc, rest)
}

#[tactic(auto, unfolding(crate::specs::Parsers::read_join_pairs))]
fn join_pairs(alloc: Global, tokens: &[Token]) -> Result<(Items<JoinPair>, &[Token]), ReadError>
    ensures { Gives (λ x. (x.0, x.1.now)) result (read_join_pairs tokens.now) }
{
    let (first, mut rest) = join_pair(alloc, tokens)?;
    let mut pairs = Items::new(alloc);
    pairs.push(first)?;
    'more: while starts(rest, Kind::And) {
        let (_, after) = take(rest, Kind::And)?;
        let (next, after) = join_pair(alloc, after)?;
        pairs.push(next)?;
        rest = after;
    }
    Ok((pairs, rest))
}

#[tactic(auto, unfolding(crate::specs::Parsers::read_join))]
fn one_join(alloc: Global, tokens: &[Token]) -> Result<(Join, &[Token]), ReadError>
    ensures { Gives (λ x. (x.0, x.1.now)) result (read_join tokens.now) }
{
    let (kind, rest) = join_kind(tokens)?;
    let (_, rest) = take(rest, Kind::Join)?;
    let (table, rest) = name(alloc, rest)?;
    let (pairs, rest) = on_pairs(alloc, rest)?;
    Ok((Join { kind, table, pairs }, rest))
}

// The pairs behind ON.
fn on_pairs(alloc: Global, tokens: &[Token]) -> Result<(Items<JoinPair>, &[Token]), ReadError>
    ensures { Gives (λ x. (x.0, x.1.now)) result (read_after k.On read_join_pairs tokens.now) }
{
    let (_, rest) = take(tokens, Kind::On)?;
    join_pairs(alloc, rest)
}

fn starts_join(tokens: &[Token]) -> bool
    ensures { result ≡ heads (k.Inner ∷ k.Left ∷ k.Join ∷ []) tokens.now }
{
    match tokens {
        [] => false,
        [first, ..] => first.kind.is(Kind::Inner)
            || first.kind.is(Kind::Left)
            || first.kind.is(Kind::Join),
    }
}

#[tactic(auto, unfolding(crate::specs::Parsers::read_joins))]
pub(crate) fn joins(alloc: Global, tokens: &[Token]) -> Result<(Items<Join>, &[Token]), ReadError>
    ensures { Gives (λ x. (x.0, x.1.now)) result (read_joins tokens.now) }
{
    let mut joins = Items::new(alloc);
    let mut rest = tokens;
    'more: while starts_join(rest) {
        let (join, after) = one_join(alloc, rest)?;
        joins.push(join)?;
        rest = after;
    }
    Ok((joins, rest))
}
