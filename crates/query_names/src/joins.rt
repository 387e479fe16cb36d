// The checks of joins.
#![tactic(auto, using(crate::proofs::LeastLemmas::least_append))]

ghost use Rattle.std.specs.Prelude.{◌≡◌, ◌==◌, ◌&&◌, ◌<◌, ◌+◌, ℕ, suc, List, [], Option, Some, not, bytes_eq, zip, count_by};
ghost use Rattle.std.specs.List.{flat_map, list_all, list_any};
ghost use Rattle.query_names.specs.Least.{least, unless};
ghost use Rattle.query_names.specs.Joins.{lookups_of, is_there, joins_missing, is_column, are_sides, is_key_pair, same_pairs, same_kind, is_step, is_join_of, times_joined, not_in_model, joins_not_in_model};

use crate::check::{Check, least_in, place_unless};
use crate::names::is_joined;
use crate::scope::{Scope, table_number};
use cube_desc::TableDesc;
use cube_val::{JoinStep, WideCol};
use sql_reader::{Join, JoinKind, JoinPair, Query};

// ---- inner joins that aren't named

fn lookups_of(tables: &[TableDesc]) -> &[TableDesc]
    ensures { result.now ≡ lookups_of tables.now }
{
    match tables {
        [] => &[],
        [_, lookups @ ..] => lookups,
    }
}

fn is_there(query: &Query, step: &JoinStep, table: &TableDesc) -> bool
    ensures { result ≡ is_there query.now (step.now, table.now) }
{
    !step.inner || is_joined(query, table.name.bytes())
}

fn all_there(query: &Query, steps: &[JoinStep], lookups: &[TableDesc]) -> bool
    ensures { result ≡ list_all (is_there query.now) (zip steps.now lookups.now) }
{
    steps
        .iter()
        .zip(lookups.iter())
        .all(|(s, t)| is_there(query, s, t))
}

pub(crate) fn join_missing_place(scope: &Scope<'_>) -> Option<u32>
    ensures { result ≡ least (joins_missing scope.now.parts.now scope.now.query.now) }
{
    let (parts, query) = (scope.parts, scope.query);
    let plan = &parts.plan;
    let lookups = lookups_of(parts.tables.as_slice());
    place_unless(
        all_there(query, plan.joins.as_slice(), lookups),
        query.table.place,
    )
}

// ---- joins that are others than the descriptor's

fn is_column(table: usize, column: usize, found: Option<WideCol>) -> bool
    ensures { result ≡ is_column table column found }
{
    match found {
        Some(found) => found.table == table && found.column == column,
        None => false,
    }
}

fn are_sides(
    lookup: usize,
    left: Option<WideCol>,
    right: Option<WideCol>,
    foreign: usize,
    primary: usize,
) -> bool
    ensures { result ≡ are_sides lookup left right (foreign, primary) }
{
    (is_column(0, foreign, left) && is_column(lookup, primary, right))
        || (is_column(lookup, primary, left) && is_column(0, foreign, right))
}

/// A joined lookup.
#[derive(Clone, Copy)]
struct Joined<'a> {
    scope: &'a Scope<'a>,
    lookup: usize,
}

impl<'s> Joined<'s> {
    fn is_key_pair(&self, pair: &JoinPair, foreign: usize, primary: usize) -> bool
        ensures { result ≡ is_key_pair self.now.scope.now.parts.now self.now.scope.now.query.now self.now.lookup pair.now (foreign, primary) }
    {
        let scope = self.scope;
        are_sides(
            self.lookup,
            scope.found(&pair.left),
            scope.found(&pair.right),
            foreign,
            primary,
        )
    }

    fn is_key(&self, pair: &JoinPair, foreign: &[usize], primary: &[usize]) -> bool
        ensures { result ≡ list_any (is_key_pair self.now.scope.now.parts.now self.now.scope.now.query.now self.now.lookup pair.now) (zip foreign.now primary.now) }
    {
        foreign
            .iter()
            .zip(primary.iter())
            .any(|(f, p)| self.is_key_pair(pair, *f, *p))
    }

    fn is_pair(&self, pairs: &[JoinPair], foreign: usize, primary: usize) -> bool
        ensures { result ≡ list_any (λ pair. is_key_pair self.now.scope.now.parts.now self.now.scope.now.query.now self.now.lookup pair (foreign, primary)) pairs.now }
    {
        pairs
            .iter()
            .any(|pair| self.is_key_pair(pair, foreign, primary))
    }

    fn all_keys(&self, pairs: &[JoinPair], foreign: &[usize], primary: &[usize]) -> bool
        ensures { result ≡ list_all (λ pair. list_any (is_key_pair self.now.scope.now.parts.now self.now.scope.now.query.now self.now.lookup pair) (zip foreign.now primary.now)) pairs.now }
    {
        pairs.iter().all(|pair| self.is_key(pair, foreign, primary))
    }

    fn all_pairs(&self, pairs: &[JoinPair], foreign: &[usize], primary: &[usize]) -> bool
        ensures { result ≡ list_all (λ key. list_any (λ pair. is_key_pair self.now.scope.now.parts.now self.now.scope.now.query.now self.now.lookup pair key) pairs.now) (zip foreign.now primary.now) }
    {
        foreign
            .iter()
            .zip(primary.iter())
            .all(|(f, p)| self.is_pair(pairs, *f, *p))
    }

    fn is_step(&self, join: &Join, step: &JoinStep) -> bool
        ensures { result ≡ is_step self.now.scope.now.parts.now self.now.scope.now.query.now self.now.lookup join.now (Some step.now) }
    {
        let (foreign, primary) = (step.foreign.as_slice(), step.primary.as_slice());
        let pairs = join.pairs.as_slice();
        same_kind(join.kind, step.inner)
            && self.all_keys(pairs, foreign, primary)
            && self.all_pairs(pairs, foreign, primary)
    }
}

fn same_kind(kind: JoinKind, inner: bool) -> bool
    ensures { result ≡ same_kind kind inner }
{
    match kind {
        JoinKind::Inner => inner,
        JoinKind::Left => !inner,
    }
}

fn is_join_of(scope: &Scope<'_>, join: &Join, number: Option<usize>) -> bool
    ensures { result ≡ is_join_of scope.now.parts.now scope.now.query.now join.now number }
{
    let Some(lookup) = number else {
        return false;
    };
    if lookup == 0 {
        return false;
    }
    let parts = scope.parts;
    let plan = &parts.plan;
    match plan.joins.as_slice().get(lookup - 1) {
        Some(step) => {
            let joined = Joined {
                scope: &*scope,
                lookup,
            };
            joined.is_step(join, step)
        }
        None => false,
    }
}

fn times_joined(query: &Query, name: &[u8]) -> usize
    ensures { result ≡ times_joined query.now name.now }
{
    query
        .joins
        .as_slice()
        .iter()
        .filter(|j| j.table.text.bytes() == name)
        .count()
}

/// A join that isn't the descriptor's.
#[derive(Clone, Copy)]
struct NotInModel<'a> {
    scope: &'a Scope<'a>,
}

impl<'s> Check<Join> for NotInModel<'s> {
    ghost failing = { λ s j. not_in_model s.scope.now.parts.now s.scope.now.query.now j };

    fn least(&self, join: &Join) -> Option<u32> {
        let (scope, table) = (self.scope, &join.table);
        let name = table.text.bytes();
        place_unless(
            is_join_of(scope, join, table_number(scope.parts, name))
                && times_joined(scope.query, name) <= 1,
            table.place,
        )
    }
}

pub(crate) fn join_not_in_model_place(scope: &Scope<'_>) -> Option<u32>
    ensures { result ≡ least (joins_not_in_model scope.now.parts.now scope.now.query.now) }
{
    let query = scope.query;
    least_in(&NotInModel { scope: &*scope }, query.joins.as_slice())
}
