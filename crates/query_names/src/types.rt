// The check of literals.
#![tactic(auto, using(crate::proofs::LeastLemmas::least_append))]

ghost use Rattle.std.specs.Prelude.{◌≡◌, ℕ, List, [], ◌++◌, map, Option};
ghost use Rattle.std.specs.List.{flat_map};
ghost use Rattle.query_names.specs.Least.{lesser, least, unless};
ghost use Rattle.query_names.specs.Parts.{cond_pairs, of_pairs};
ghost use Rattle.query_names.specs.Types.{term_type, is_day, fits_type, type_clash, type_clashes};

use crate::check::{Check, least_in, lesser, place_unless};
use crate::scope::Scope;
use calendar::Day;
use cube_val::ColType;
use sql_reader::{SqlCond, SqlLit, SqlLitKind, SqlTerm};

impl<'a> Scope<'a> {
    /// The type of a term: every aggregate is a number.
    pub(crate) fn term_type(&self, term: &SqlTerm) -> ColType
        ensures { result ≡ term_type self.now.parts.now self.now.query.now term.now }
    {
        match term {
            SqlTerm::Col(column) => self.column_type(column),
            SqlTerm::Agg { .. } => ColType::Int,
        }
    }
}

fn is_day(text: &[u8]) -> bool
    ensures { result ≡ is_day text.now }
{
    Day::read(text).is_some()
}

fn fits_type(ty: ColType, lit: &SqlLitKind) -> bool
    ensures { result ≡ fits_type ty lit.now }
{
    match ty {
        ColType::Int | ColType::Decimal => match lit {
            SqlLitKind::Number(_) => true,
            SqlLitKind::Text(_) | SqlLitKind::Date(_) => false,
        },
        ColType::Text => match lit {
            SqlLitKind::Text(_) => true,
            SqlLitKind::Number(_) | SqlLitKind::Date(_) => false,
        },
        ColType::Date => match lit {
            SqlLitKind::Number(_) => false,
            SqlLitKind::Text(text) | SqlLitKind::Date(text) => is_day(text.bytes()),
        },
    }
}

/// A literal that is compared with a term of another type.
#[derive(Clone, Copy)]
struct TypeClash<'a> {
    scope: &'a Scope<'a>,
    term: &'a SqlTerm,
}

impl<'s> Check<SqlLit> for TypeClash<'s> {
    ghost failing = { λ s lit. type_clash s.scope.now.parts.now s.scope.now.query.now (s.term.now, lit) };

    fn least(&self, lit: &SqlLit) -> Option<u32> {
        place_unless(
            fits_type(self.scope.term_type(self.term), &lit.kind),
            lit.place,
        )
    }
}

fn clash_in(scope: &Scope<'_>, cond: &SqlCond) -> Option<u32>
    ensures { result ≡ least (flat_map (type_clash scope.now.parts.now scope.now.query.now) (cond_pairs cond.now)) }
{
    match cond {
        SqlCond::Compare(term, _, lit) => TypeClash {
            scope: &*scope,
            term,
        }
        .least(lit),
        SqlCond::AnyOf(term, lits) => least_in(
            &TypeClash {
                scope: &*scope,
                term,
            },
            lits.as_slice(),
        ),
        SqlCond::Between(term, low, high) => {
            let check = TypeClash {
                scope: &*scope,
                term,
            };
            lesser(check.least(low), check.least(high))
        }
        SqlCond::IsNull(_) => None,
        SqlCond::And(a, b) => lesser(clash_in(scope, a.get()), clash_in(scope, b.get())),
        SqlCond::Or(a, b) => lesser(clash_in(scope, a.get()), clash_in(scope, b.get())),
        SqlCond::Not(a) => clash_in(scope, a.get()),
    }
}

fn clash_of(scope: &Scope<'_>, cond: &Option<SqlCond>) -> Option<u32>
    ensures { result ≡ least (of_pairs (type_clash scope.now.parts.now scope.now.query.now) cond.now) }
{
    match cond {
        Some(cond) => clash_in(scope, cond),
        None => None,
    }
}

pub(crate) fn type_clash_place(scope: &Scope<'_>) -> Option<u32>
    ensures { result ≡ least (type_clashes scope.now.parts.now scope.now.query.now) }
{
    let query = scope.query;
    lesser(
        clash_of(scope, &query.filter),
        clash_of(scope, &query.having),
    )
}
