// Checks of the parts of a query.
#![tactic(auto, using(crate::proofs::LeastLemmas::least_append))]

ghost use Rattle.std.specs.Prelude.{◌≡◌, ◌++◌, ℕ, List, [], ◌∷◌, Option};
ghost use Rattle.std.specs.List.{flat_map};
ghost use Rattle.query_names.specs.Least.{lesser, least, unless};
ghost use Rattle.query_names.specs.Parts.{place_of, cond_terms, of_cond, key_term, of_group_terms, of_option, of_term, of_join, of_columns};

use crate::scope::key_term;
use cube_val::Items;
use sql_reader::{ColRef, Item, Join, JoinPair, Query, SqlCond, SqlKey, SqlTerm};

/// A check of a part of a query.
pub(crate) trait Check<T> {
    /// The failing places in this part.
    ghost failing: { Self → T → List ℕ };

    /// The least of them.
    fn least(&self, item: &T) -> Option<u32>
        ensures { result ≡ least (failing self.now item.now) };
}

/// The lesser of two places, where there are two.
pub(crate) fn lesser(a: Option<u32>, b: Option<u32>) -> Option<u32>
    ensures { result ≡ lesser a b }
{
    match (a, b) {
        (Some(a), Some(b)) => Some(a.min(b)),
        (Some(a), None) => Some(a),
        (None, b) => b,
    }
}

/// The place, where the test fails.
pub(crate) fn place_unless(holds: bool, place: u32) -> Option<u32>
    ensures { result ≡ least (unless holds place) }
{
    if holds { None } else { Some(place) }
}

/// Where a column stands: at its table's name, where it is named with it, else at its own.
pub(crate) fn place_of(column: &ColRef) -> u32
    ensures { result ≡ place_of column.now }
{
    match &column.table {
        Some(table) => table.place,
        None => column.column.place,
    }
}

/// The least failing place of a list.
pub(crate) fn least_in<T, C: Check<T>>(check: &C, items: &[T]) -> Option<u32>
    ensures { result ≡ least (flat_map (C.failing check.now) items.now) }
{
    let mut found = None;
    for item in items {
        found = lesser(found, check.least(item));
    }
    found
}

fn in_cond<C: Check<SqlTerm>>(check: &C, cond: &SqlCond) -> Option<u32>
    ensures { result ≡ least (flat_map (C.failing check.now) (cond_terms cond.now)) }
{
    match cond {
        SqlCond::Compare(term, _, _) => check.least(term),
        SqlCond::AnyOf(term, _) => check.least(term),
        SqlCond::Between(term, _, _) => check.least(term),
        SqlCond::IsNull(term) => check.least(term),
        SqlCond::And(a, b) => lesser(in_cond(check, a.get()), in_cond(check, b.get())),
        SqlCond::Or(a, b) => lesser(in_cond(check, a.get()), in_cond(check, b.get())),
        SqlCond::Not(a) => in_cond(check, a.get()),
    }
}

/// The least failing place of a condition, where there is one.
pub(crate) fn least_in_cond<C: Check<SqlTerm>>(check: &C, cond: &Option<SqlCond>) -> Option<u32>
    ensures { result ≡ least (of_cond (C.failing check.now) cond.now) }
{
    match cond {
        Some(cond) => in_cond(check, cond),
        None => None,
    }
}

/// A check of the term of each select item.
#[derive(Clone, Copy)]
struct InItem<'a, C> {
    check: &'a C,
}

impl<'c, C: Check<SqlTerm>> Check<Item> for InItem<'c, C> {
    ghost failing = { λ s item. C.failing s.check.now item.term };

    fn least(&self, item: &Item) -> Option<u32> {
        self.check.least(&item.term)
    }
}

/// A check of the term that each key of ORDER BY is.
#[derive(Clone, Copy)]
struct InKey<'a, C> {
    check: &'a C,
    query: &'a Query,
}

impl<'c, C: Check<SqlTerm>> Check<SqlKey> for InKey<'c, C> {
    ghost failing = { λ s key. C.failing s.check.now (key_term s.query.now key.term) };

    fn least(&self, key: &SqlKey) -> Option<u32> {
        self.check.least(key_term(self.query, &key.term))
    }
}

/// The least failing place of the terms that are worked out of groups.
pub(crate) fn least_of_group_terms<C: Check<SqlTerm>>(check: &C, query: &Query) -> Option<u32>
    ensures { result ≡ least (of_group_terms (C.failing check.now) query.now) }
{
    let selected = least_in(&InItem { check }, query.items.as_slice());
    let tested = least_in_cond(check, &query.having);
    let ordered = least_in(&InKey { check, query }, query.order.as_slice());
    lesser(lesser(selected, tested), ordered)
}

/// A check of the column of each term, and of the columns of each join.
#[derive(Clone, Copy)]
struct InColumns<'a, C> {
    check: &'a C,
}

impl<'c, C: Check<ColRef>> Check<SqlTerm> for InColumns<'c, C> {
    ghost failing = { λ s term. of_term (C.failing s.check.now) term };

    fn least(&self, term: &SqlTerm) -> Option<u32> {
        match term {
            SqlTerm::Col(column) => self.check.least(column),
            SqlTerm::Agg { column, .. } => match column {
                Some(column) => self.check.least(column),
                None => None,
            },
        }
    }
}

impl<'c, C: Check<ColRef>> Check<JoinPair> for InColumns<'c, C> {
    ghost failing = { λ s pair. C.failing s.check.now pair.left ++ C.failing s.check.now pair.right };

    fn least(&self, pair: &JoinPair) -> Option<u32> {
        lesser(self.check.least(&pair.left), self.check.least(&pair.right))
    }
}

impl<'c, C: Check<ColRef>> Check<Join> for InColumns<'c, C> {
    ghost failing = { λ s j. of_join (C.failing s.check.now) j };

    fn least(&self, join: &Join) -> Option<u32> {
        least_in(self, join.pairs.as_slice())
    }
}

/// The least failing place of the columns of a query.
pub(crate) fn least_of_columns<C: Check<ColRef>>(check: &C, query: &Query) -> Option<u32>
    ensures { result ≡ least (of_columns (C.failing check.now) query.now) }
{
    let columns = InColumns { check };
    let joined = least_in(&columns, query.joins.as_slice());
    let filtered = least_in_cond(&columns, &query.filter);
    let grouped = least_in(check, query.group.as_slice());
    let shown = least_of_group_terms(&columns, query);
    lesser(lesser(lesser(joined, filtered), grouped), shown)
}
