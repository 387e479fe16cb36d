// Conditions.

ghost use Rattle.std.specs.Prelude.{◌≡◌, ◌∷◌, [], Ok, Err};
ghost use Rattle.sql_tokens.specs.declared.kind.Kind.TheVariants as k;
ghost use Rattle.sql_reader.specs.Readers.{Beside, Gives, read_optional, read_seen};
ghost use Rattle.sql_reader.specs.Parsers.{read_after, read_before, read_conj, read_disj, read_filter, read_neg};

use crate::stop::{Bar, ReadError, Stop};
use crate::take::{ended_by, starts, take};
use crate::test::basic;
use crate::tree::SqlCond;
use sql_tokens::{Kind, Token};
use sqlite_items::Boxed;
use std::alloc::Global;

// A tree and what is read behind it, each in a box.
fn both_boxed<T: Drop>(
    alloc: Global,
    left: T,
    read: Result<(T, &[Token]), ReadError>,
) -> Result<((Boxed<T>, Boxed<T>), &[Token]), ReadError>
    ensures { Beside left read.entry result }
{
    let (right, rest) = read?;
    let left = Boxed::new(alloc, left)?;
    Ok(((left, Boxed::new(alloc, right)?), rest))
}

/// A condition in front, of which parentheses and NOT may nest `depth` deep.
#[cycle(cond)]
#[tactic(auto, unfolding(crate::specs::Parsers::read_disj))]
fn disj(alloc: Global, depth: usize, tokens: &[Token]) -> Result<(SqlCond, &[Token]), ReadError>
    ensures { Gives (λ x. (x.0, x.1.now)) result (read_disj (read_neg depth) tokens.now) }
{
    let (mut all, mut rest) = conj(alloc, depth, tokens)?;
    'ors: while starts(rest, Kind::Or) {
        let next = or_conj(alloc, depth, rest);
        let ((left, right), after) = both_boxed(alloc, all, next)?;
        all = SqlCond::Or(left, right);
        rest = after;
    }
    Ok((all, rest))
}

// What stands behind OR.
#[cycle(cond)]
fn or_conj(alloc: Global, depth: usize, tokens: &[Token]) -> Result<(SqlCond, &[Token]), ReadError>
    ensures { Gives (λ x. (x.0, x.1.now)) result (read_after k.Or (read_conj (read_neg depth)) tokens.now) }
{
    let (_, rest) = take(tokens, Kind::Or)?;
    conj(alloc, depth, rest)
}

#[cycle(cond)]
#[tactic(auto, unfolding(crate::specs::Parsers::read_conj))]
fn conj(alloc: Global, depth: usize, tokens: &[Token]) -> Result<(SqlCond, &[Token]), ReadError>
    ensures { Gives (λ x. (x.0, x.1.now)) result (read_conj (read_neg depth) tokens.now) }
{
    let (mut all, mut rest) = neg(alloc, depth, tokens)?;
    'ands: while starts(rest, Kind::And) {
        let next = and_neg(alloc, depth, rest);
        let ((left, right), after) = both_boxed(alloc, all, next)?;
        all = SqlCond::And(left, right);
        rest = after;
    }
    Ok((all, rest))
}

// What stands behind AND.
#[cycle(cond)]
fn and_neg(alloc: Global, depth: usize, tokens: &[Token]) -> Result<(SqlCond, &[Token]), ReadError>
    ensures { Gives (λ x. (x.0, x.1.now)) result (read_after k.And (read_neg depth) tokens.now) }
{
    let (_, rest) = take(tokens, Kind::And)?;
    neg(alloc, depth, rest)
}

#[cycle(cond)]
#[tactic(auto, unfolding(crate::specs::Parsers::read_neg))]
fn neg(alloc: Global, depth: usize, tokens: &[Token]) -> Result<(SqlCond, &[Token]), ReadError>
    ensures { Gives (λ x. (x.0, x.1.now)) result (read_neg depth tokens.now) }
{
    let is_not = starts(tokens, Kind::Not);
    let is_open = starts(tokens, Kind::Open);
    if depth == 0 {
        if is_not || is_open {
            return Err(ReadError::Stop(Stop::Barred(Bar::TooDeep, tokens.len())));
        }
        return basic(alloc, tokens);
    }
    if is_not {
        return not_neg(alloc, depth - 1, tokens);
    }
    if is_open {
        return nested(alloc, depth - 1, tokens);
    }
    basic(alloc, tokens)
}

// NOT and what stands behind it.
#[cycle(cond)]
fn not_neg(alloc: Global, depth: usize, tokens: &[Token]) -> Result<(SqlCond, &[Token]), ReadError>
    ensures { Gives (λ x. (x.0, x.1.now)) result (read_after k.Not (read_seen SqlCond.Not (read_neg depth)) tokens.now) }
{
    let (_, rest) = take(tokens, Kind::Not)?;
    let (inner, rest) = neg(alloc, depth, rest)?;
    Ok((SqlCond::Not(Boxed::new(alloc, inner)?), rest))
}

// A condition in parentheses.
#[cycle(cond)]
fn nested(alloc: Global, depth: usize, tokens: &[Token]) -> Result<(SqlCond, &[Token]), ReadError>
    ensures { Gives (λ x. (x.0, x.1.now)) result (read_after k.Open (read_before (read_disj (read_neg depth)) k.Close) tokens.now) }
{
    let (_, rest) = take(tokens, Kind::Open)?;
    let (inner, rest) = disj(alloc, depth, rest)?;
    ended_by(inner, rest, Kind::Close)
}

#[tactic(auto, unfolding(crate::specs::Parsers::read_filter))]
pub(crate) fn filter(
    alloc: Global,
    depth: usize,
    tokens: &[Token],
) -> Result<(Option<SqlCond>, &[Token]), ReadError>
    ensures { Gives (λ x. (x.0, x.1.now)) result (read_optional (k.Where ∷ []) (read_after k.Where (read_filter depth)) tokens.now) }
{
    if !starts(tokens, Kind::Where) {
        return Ok((None, tokens));
    }
    let (_, rest) = take(tokens, Kind::Where)?;
    let (cond, rest) = disj(alloc, depth, rest)?;
    Ok((Some(cond), rest))
}

#[tactic(auto, unfolding(crate::specs::Parsers::read_filter))]
pub(crate) fn having(
    alloc: Global,
    depth: usize,
    tokens: &[Token],
) -> Result<(Option<SqlCond>, &[Token]), ReadError>
    ensures { Gives (λ x. (x.0, x.1.now)) result (read_optional (k.Having ∷ []) (read_after k.Having (read_filter depth)) tokens.now) }
{
    if !starts(tokens, Kind::Having) {
        return Ok((None, tokens));
    }
    let (_, rest) = take(tokens, Kind::Having)?;
    let (cond, rest) = disj(alloc, depth, rest)?;
    Ok((Some(cond), rest))
}
