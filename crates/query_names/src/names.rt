// The checks of tables and columns that are named.
#![tactic(auto, using(crate::proofs::LeastLemmas::least_append))]

ghost use Rattle.std.specs.Prelude.{◌≡◌, ℕ, List, [], ◌++◌, bytes_eq, Option};
ghost use Rattle.std.specs.List.{flat_map, list_any};
ghost use Rattle.query_names.specs.Least.{lesser, least, unless};
ghost use Rattle.query_names.specs.Names.{is_fact, is_lookup, from_no_table, join_no_table, is_joined, is_named, named_no_table, column_no_table, no_tables, no_column, no_columns};

use crate::check::{Check, least_in, least_of_columns, lesser, place_of, place_unless};
use crate::scope::{Scope, table_number};
use sql_reader::{ColRef, Join, Query};

fn is_fact(number: Option<usize>) -> bool
    ensures { result ≡ is_fact number }
{
    match number {
        Some(number) => number == 0,
        None => false,
    }
}

fn is_lookup(number: Option<usize>) -> bool
    ensures { result ≡ is_lookup number }
{
    match number {
        Some(number) => number > 0,
        None => false,
    }
}

/// Whether a join names the table.
pub(crate) fn is_joined(query: &Query, name: &[u8]) -> bool
    ensures { result ≡ is_joined query.now name.now }
{
    query
        .joins
        .as_slice()
        .iter()
        .any(|j| j.table.text.bytes() == name)
}

fn is_named(query: &Query, name: &[u8]) -> bool
    ensures { result ≡ is_named query.now name.now }
{
    query.table.text.bytes() == name || is_joined(query, name)
}

/// A table that isn't there.
#[derive(Clone, Copy)]
struct NoTable<'a> {
    scope: &'a Scope<'a>,
}

impl<'s> Check<Join> for NoTable<'s> {
    ghost failing = { λ s j. join_no_table s.scope.now.parts.now j };

    fn least(&self, join: &Join) -> Option<u32> {
        let table = &join.table;
        place_unless(
            is_lookup(table_number(self.scope.parts, table.text.bytes())),
            table.place,
        )
    }
}

impl<'s> Check<ColRef> for NoTable<'s> {
    ghost failing = { λ s r. column_no_table s.scope.now.query.now r };

    fn least(&self, column: &ColRef) -> Option<u32> {
        match &column.table {
            Some(table) => place_unless(
                is_named(self.scope.query, table.text.bytes()),
                table.place,
            ),
            None => None,
        }
    }
}

fn from_no_table(scope: &Scope<'_>) -> Option<u32>
    ensures { result ≡ least (from_no_table scope.now.parts.now scope.now.query.now) }
{
    let table = &scope.query.table;
    place_unless(
        is_fact(table_number(scope.parts, table.text.bytes())),
        table.place,
    )
}

pub(crate) fn no_table_place(scope: &Scope<'_>) -> Option<u32>
    ensures { result ≡ least (no_tables scope.now.parts.now scope.now.query.now) }
{
    let check = NoTable { scope: &*scope };
    let query = scope.query;
    let joined = least_in(&check, query.joins.as_slice());
    let columns = least_of_columns(&check, query);
    lesser(lesser(from_no_table(scope), joined), columns)
}

/// A column that isn't found.
#[derive(Clone, Copy)]
struct NoColumn<'a> {
    scope: &'a Scope<'a>,
}

impl<'s> Check<ColRef> for NoColumn<'s> {
    ghost failing = { λ s r. no_column s.scope.now.parts.now s.scope.now.query.now r };

    fn least(&self, column: &ColRef) -> Option<u32> {
        place_unless(self.scope.found(column).is_some(), place_of(column))
    }
}

pub(crate) fn no_column_place(scope: &Scope<'_>) -> Option<u32>
    ensures { result ≡ least (no_columns scope.now.parts.now scope.now.query.now) }
{
    let query = scope.query;
    least_of_columns(&NoColumn { scope: &*scope }, query)
}
