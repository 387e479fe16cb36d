// What is asked of a term.

ghost use Rattle.std.specs.Prelude.{◌≡◌, ◌∷◌, false, [], IfOk, Ok, Err};
ghost use Rattle.sql_tokens.specs.declared.kind.Kind.TheVariants as k;
ghost use Rattle.sql_reader.specs.Kinds.{heads};
ghost use Rattle.sql_reader.specs.Grammar;
ghost use Rattle.sql_reader.specs.Readers.{Gives};
ghost use Rattle.sql_reader.specs.Parsers.{read_after, read_basic, read_bounds, read_compare, read_comparison, read_lit, read_negated, read_null, read_test};

use crate::literal::{lit, lits};
use crate::parts::Tail;
use crate::stop::ReadError;
use crate::take::{ended_by, place, starts, take};
use crate::term::term;
use crate::tree::{SqlCond, SqlLit, SqlTerm, SqlTest};
use sql_tokens::{Kind, Token};
use sqlite_items::Boxed;
use std::alloc::{AllocError, Global};

#[tactic(auto, unfolding(crate::specs::Parsers::read_comparison))]
fn comparison(tokens: &[Token]) -> Result<(SqlTest, &[Token]), ReadError>
    ensures { Gives (λ x. (x.0, x.1.now)) result (read_comparison tokens.now) }
{
    if starts(tokens, Kind::Equal) {
        return ended_by(SqlTest::Eq, tokens, Kind::Equal);
    }
    if starts(tokens, Kind::NotEqual) {
        return ended_by(SqlTest::Ne, tokens, Kind::NotEqual);
    }
    if starts(tokens, Kind::Less) {
        return ended_by(SqlTest::Lt, tokens, Kind::Less);
    }
    if starts(tokens, Kind::LessEqual) {
        return ended_by(SqlTest::Le, tokens, Kind::LessEqual);
    }
    if starts(tokens, Kind::Greater) {
        return ended_by(SqlTest::Gt, tokens, Kind::Greater);
    }
    ended_by(SqlTest::Ge, tokens, Kind::GreaterEqual)
}

#[tactic(auto, unfolding(crate::specs::Parsers::read_bounds))]
fn bounds(alloc: Global, tokens: &[Token]) -> Result<((SqlLit, SqlLit), &[Token]), ReadError>
    ensures { Gives (λ x. (x.0, x.1.now)) result (read_bounds tokens.now) }
{
    let (_, rest) = take(tokens, Kind::Between)?;
    let (low, rest) = lit(alloc, rest)?;
    let (high, rest) = and_lit(alloc, rest)?;
    Ok(((low, high), rest))
}

// The literal behind AND.
fn and_lit(alloc: Global, tokens: &[Token]) -> Result<(SqlLit, &[Token]), ReadError>
    ensures { Gives (λ x. (x.0, x.1.now)) result (read_after k.And read_lit tokens.now) }
{
    let (_, rest) = take(tokens, Kind::And)?;
    lit(alloc, rest)
}

#[tactic(auto, unfolding(crate::specs::Parsers::read_negated))]
fn negated(alloc: Global, tokens: &[Token]) -> Result<(Tail, &[Token]), ReadError>
    ensures { Gives (λ x. (x.0, x.1.now)) result (read_negated tokens.now) }
{
    let (_, rest) = take(tokens, Kind::Not)?;
    if starts(rest, Kind::In) {
        let (_, rest) = take(rest, Kind::In)?;
        let (lits, rest) = lits(alloc, rest)?;
        return Ok((Tail::NoneOf(lits), rest));
    }
    let ((low, high), rest) = bounds(alloc, rest)?;
    Ok((Tail::NotBetween(low, high), rest))
}

#[tactic(auto, unfolding(crate::specs::Parsers::read_null))]
fn null(tokens: &[Token]) -> Result<(Tail, &[Token]), ReadError>
    ensures { Gives (λ x. (x.0, x.1.now)) result (read_null tokens.now) }
{
    let (_, rest) = take(tokens, Kind::Is)?;
    if !starts(rest, Kind::Not) {
        let (_, rest) = place(rest, Kind::Null)?;
        return Ok((Tail::IsNull, rest));
    }
    let (_, rest) = place(rest, Kind::Not)?;
    let (_, rest) = place(rest, Kind::Null)?;
    Ok((Tail::IsNotNull, rest))
}

#[tactic(auto, unfolding(crate::specs::Parsers::read_compare))]
fn compare(alloc: Global, tokens: &[Token]) -> Result<(Tail, &[Token]), ReadError>
    ensures { Gives (λ x. (x.0, x.1.now)) result (read_compare tokens.now) }
{
    let (test, rest) = comparison(tokens)?;
    let (lit, rest) = lit(alloc, rest)?;
    Ok((Tail::Compare(test, lit), rest))
}

fn starts_comparison(tokens: &[Token]) -> bool
    ensures { result ≡ heads (k.Equal ∷ k.NotEqual ∷ k.Less ∷ k.LessEqual ∷ k.Greater ∷ k.GreaterEqual ∷ []) tokens.now }
{
    match tokens {
        [] => false,
        [first, ..] => {
            first.kind.is(Kind::Equal)
                || first.kind.is(Kind::NotEqual)
                || first.kind.is(Kind::Less)
                || first.kind.is(Kind::LessEqual)
                || first.kind.is(Kind::Greater)
                || first.kind.is(Kind::GreaterEqual)
        }
    }
}

#[tactic(auto, unfolding(crate::specs::Parsers::read_test))]
fn test(alloc: Global, tokens: &[Token]) -> Result<(Tail, &[Token]), ReadError>
    ensures { Gives (λ x. (x.0, x.1.now)) result (read_test tokens.now) }
{
    if starts_comparison(tokens) {
        return compare(alloc, tokens);
    }
    if starts(tokens, Kind::In) {
        let (_, rest) = take(tokens, Kind::In)?;
        let (lits, rest) = lits(alloc, rest)?;
        return Ok((Tail::AnyOf(lits), rest));
    }
    if starts(tokens, Kind::Between) {
        let ((low, high), rest) = bounds(alloc, tokens)?;
        return Ok((Tail::Between(low, high), rest));
    }
    if starts(tokens, Kind::Not) {
        return negated(alloc, tokens);
    }
    null(tokens)
}

fn cond_of(alloc: Global, term: SqlTerm, tail: Tail) -> Result<SqlCond, AllocError>
    ensures { IfOk result (λ c. c ≡ Grammar.cond_of (term, tail)) }
{
    match tail {
        Tail::Compare(test, lit) => Ok(SqlCond::Compare(term, test, lit)),
        Tail::AnyOf(lits) => Ok(SqlCond::AnyOf(term, lits)),
        Tail::NoneOf(lits) => Ok(SqlCond::Not(Boxed::new(alloc, SqlCond::AnyOf(term, lits))?)),
        Tail::Between(low, high) => Ok(SqlCond::Between(term, low, high)),
        Tail::NotBetween(low, high) => Ok(SqlCond::Not(Boxed::new(
            alloc,
            SqlCond::Between(term, low, high),
        )?)),
        Tail::IsNull => Ok(SqlCond::IsNull(term)),
        Tail::IsNotNull => Ok(SqlCond::Not(Boxed::new(alloc, SqlCond::IsNull(term))?)),
    }
}

#[tactic(auto, unfolding(crate::specs::Parsers::read_basic))]
pub(crate) fn basic(alloc: Global, tokens: &[Token]) -> Result<(SqlCond, &[Token]), ReadError>
    ensures { Gives (λ x. (x.0, x.1.now)) result (read_basic tokens.now) }
{
    let (term, rest) = term(alloc, tokens)?;
    let (tail, rest) = test(alloc, rest)?;
    Ok((cond_of(alloc, term, tail)?, rest))
}
