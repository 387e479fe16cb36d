// Terms and conditions over the columns of joined rows.

ghost use Rattle.std.specs.Prelude.{◌≡◌, ◌≤◌, ◌++◌, ◌∷◌, [], List, map, Option, IfOk, length, unwrap_or};
ghost use Rattle.query_names.specs.Parts.{key_term};
ghost use Rattle.query_names.specs.Resolve.{dimension_count};
ghost use Rattle.query_bind.specs.Asks.{column_number, bound_term, bound_test, bound_kind, bound_lit, bound_cond, bound_or_true, bound_item, bound_key};

use crate::aggs::agg_number;
use crate::titles::name_of;
use cube_val::Items;
use plain_answer::{Agg, Cond, Lit, OrderKey, Out, Term, Test};
use query_names::{Scope, key_term};
use sql_reader::{ColRef, Item, SqlCond, SqlKey, SqlLit, SqlLitKind, SqlTerm, SqlTest};
use sqlite_items::Boxed;
use std::alloc::{AllocError, Global};

/// The place of a rowkey or derived column in a joined row.
pub(crate) fn column_number(scope: &Scope<'_>, column: &ColRef) -> usize
    ensures { result ≡ column_number scope.now.parts.now scope.now.query.now column.now }
{
    scope.dimension_of(column).unwrap_or(0)
}

fn bound_term(scope: &Scope<'_>, aggs: &[Agg], term: &SqlTerm) -> Term
    requires { dimension_count scope.now.parts.now ≤ length scope.now.parts.now.plan.wide }
    ensures { result ≡ bound_term scope.now.parts.now scope.now.query.now aggs.now term.now }
{
    match term {
        SqlTerm::Col(column) => {
            Term::Col(column_number(scope, column), scope.column_type(column))
        }
        SqlTerm::Agg { word, column, .. } => Term::Agg(agg_number(scope, aggs, *word, column)),
    }
}

fn bound_test(test: SqlTest) -> Test
    ensures { result ≡ bound_test test }
{
    match test {
        SqlTest::Eq => Test::Eq,
        SqlTest::Ne => Test::Ne,
        SqlTest::Lt => Test::Lt,
        SqlTest::Le => Test::Le,
        SqlTest::Gt => Test::Gt,
        SqlTest::Ge => Test::Ge,
    }
}

fn bound_lit(lit: &SqlLit) -> Result<Lit, AllocError>
    ensures { IfOk result (λ l. l ≡ bound_lit lit.now) }
{
    match &lit.kind {
        SqlLitKind::Number(units) => Ok(Lit::Number(*units)),
        SqlLitKind::Text(text) => {
            let text = text.copy()?;
            Ok(Lit::Text(text))
        }
        SqlLitKind::Date(text) => {
            let text = text.copy()?;
            Ok(Lit::Text(text))
        }
    }
}

fn bound_lits(alloc: Global, lits: &[SqlLit]) -> Result<Items<Lit>, AllocError>
    ensures { IfOk result (λ ls. ls ≡ map bound_lit lits.now) }
{
    let mut bound = Items::new(alloc);
    for lit in lits {
        bound.push(bound_lit(lit)?)?;
    }
    Ok(bound)
}

// Two trees, each in a box of its own.
fn both_boxed<T: Drop>(alloc: Global, left: T, right: T) -> Result<(Boxed<T>, Boxed<T>), AllocError>
    ensures { IfOk result (λ both. both ≡ (left, right)) }
{
    let left = Boxed::new(alloc, left)?;
    Ok((left, Boxed::new(alloc, right)?))
}

fn and(alloc: Global, left: Cond, right: Cond) -> Result<Cond, AllocError>
    ensures { IfOk result (λ c. c ≡ Cond.And left right) }
{
    let (left, right) = both_boxed(alloc, left, right)?;
    Ok(Cond::And(left, right))
}

fn or(alloc: Global, left: Cond, right: Cond) -> Result<Cond, AllocError>
    ensures { IfOk result (λ c. c ≡ Cond.Or left right) }
{
    let (left, right) = both_boxed(alloc, left, right)?;
    Ok(Cond::Or(left, right))
}

fn not(alloc: Global, inner: Cond) -> Result<Cond, AllocError>
    ensures { IfOk result (λ c. c ≡ Cond.Not inner) }
{
    Ok(Cond::Not(Boxed::new(alloc, inner)?))
}

// The literals of a BETWEEN.
fn bound_ends(low: &SqlLit, high: &SqlLit) -> Result<(Lit, Lit), AllocError>
    ensures { IfOk result (λ ends. ends ≡ (bound_lit low.now, bound_lit high.now)) }
{
    let low = bound_lit(low)?;
    Ok((low, bound_lit(high)?))
}

fn between(alloc: Global, term: Term, low: &SqlLit, high: &SqlLit) -> Result<Cond, AllocError>
    ensures { IfOk result (λ c. c ≡ Cond.And (Cond.Compare term Test.Ge (bound_lit low.now)) (Cond.Compare term Test.Le (bound_lit high.now))) }
{
    let (low, high) = bound_ends(low, high)?;
    and(
        alloc,
        Cond::Compare(term, Test::Ge, low),
        Cond::Compare(term, Test::Le, high),
    )
}

fn compared(term: Term, test: Test, lit: &SqlLit) -> Result<Cond, AllocError>
    ensures { IfOk result (λ c. c ≡ Cond.Compare term test (bound_lit lit.now)) }
{
    Ok(Cond::Compare(term, test, bound_lit(lit)?))
}

fn any_of(alloc: Global, term: Term, lits: &[SqlLit]) -> Result<Cond, AllocError>
    ensures { IfOk result (λ c. c ≡ Cond.AnyOf term (map bound_lit lits.now)) }
{
    Ok(Cond::AnyOf(term, bound_lits(alloc, lits)?))
}

fn bound_cond(
    alloc: Global,
    scope: &Scope<'_>,
    aggs: &[Agg],
    cond: &SqlCond,
) -> Result<Cond, AllocError>
    requires { dimension_count scope.now.parts.now ≤ length scope.now.parts.now.plan.wide }
    ensures { IfOk result (λ c. c ≡ bound_cond scope.now.parts.now scope.now.query.now aggs.now cond.now) }
{
    match cond {
        SqlCond::Compare(term, test, lit) => {
            compared(bound_term(scope, aggs, term), bound_test(*test), lit)
        }
        SqlCond::AnyOf(term, lits) => {
            any_of(alloc, bound_term(scope, aggs, term), lits.as_slice())
        }
        SqlCond::Between(term, low, high) => {
            between(alloc, bound_term(scope, aggs, term), low, high)
        }
        SqlCond::IsNull(term) => Ok(Cond::IsNull(bound_term(scope, aggs, term))),
        SqlCond::And(a, b) => {
            let a = bound_cond(alloc, scope, aggs, a.get())?;
            and(alloc, a, bound_cond(alloc, scope, aggs, b.get())?)
        }
        SqlCond::Or(a, b) => {
            let a = bound_cond(alloc, scope, aggs, a.get())?;
            or(alloc, a, bound_cond(alloc, scope, aggs, b.get())?)
        }
        SqlCond::Not(a) => not(alloc, bound_cond(alloc, scope, aggs, a.get())?),
    }
}

/// A condition, where there is one; else one that is always true.
pub(crate) fn bound_or_true(
    alloc: Global,
    scope: &Scope<'_>,
    aggs: &[Agg],
    cond: &Option<SqlCond>,
) -> Result<Cond, AllocError>
    requires { dimension_count scope.now.parts.now ≤ length scope.now.parts.now.plan.wide }
    ensures { IfOk result (λ c. c ≡ bound_or_true scope.now.parts.now scope.now.query.now aggs.now cond.now) }
{
    match cond {
        Some(cond) => bound_cond(alloc, scope, aggs, cond),
        None => Ok(Cond::True),
    }
}

/// The columns of GROUP BY.
pub(crate) fn group_columns(
    alloc: Global,
    scope: &Scope<'_>,
    columns: &[ColRef],
) -> Result<Items<usize>, AllocError>
    ensures { IfOk result (λ ns. ns ≡ map (column_number scope.now.parts.now scope.now.query.now) columns.now) }
{
    let mut numbers = Items::new(alloc);
    for column in columns {
        numbers.push(column_number(scope, column))?;
    }
    Ok(numbers)
}

fn bound_item(
    alloc: Global,
    scope: &Scope<'_>,
    aggs: &[Agg],
    item: &Item,
) -> Result<Out, AllocError>
    requires { dimension_count scope.now.parts.now ≤ length scope.now.parts.now.plan.wide }
    ensures { IfOk result (λ o. o ≡ bound_item scope.now.parts.now scope.now.query.now aggs.now item.now) }
{
    let name = name_of(alloc, item)?;
    Ok(Out {
        name,
        term: bound_term(scope, aggs, &item.term),
    })
}

/// The select items.
pub(crate) fn bound_items(
    alloc: Global,
    scope: &Scope<'_>,
    aggs: &[Agg],
    items: &[Item],
) -> Result<Items<Out>, AllocError>
    requires { dimension_count scope.now.parts.now ≤ length scope.now.parts.now.plan.wide }
    ensures { IfOk result (λ os. os ≡ map (bound_item scope.now.parts.now scope.now.query.now aggs.now) items.now) }
{
    let mut outs = Items::new(alloc);
    for item in items {
        outs.push(bound_item(alloc, scope, aggs, item)?)?;
    }
    Ok(outs)
}

fn bound_key(scope: &Scope<'_>, aggs: &[Agg], key: &SqlKey) -> OrderKey
    requires { dimension_count scope.now.parts.now ≤ length scope.now.parts.now.plan.wide }
    ensures { result ≡ bound_key scope.now.parts.now scope.now.query.now aggs.now key.now }
{
    OrderKey {
        term: bound_term(scope, aggs, key_term(scope.query, &key.term)),
        falling: key.falling,
    }
}

/// The keys of ORDER BY.
pub(crate) fn bound_keys(
    alloc: Global,
    scope: &Scope<'_>,
    aggs: &[Agg],
    keys: &[SqlKey],
) -> Result<Items<OrderKey>, AllocError>
    requires { dimension_count scope.now.parts.now ≤ length scope.now.parts.now.plan.wide }
    ensures { IfOk result (λ ks. ks ≡ map (bound_key scope.now.parts.now scope.now.query.now aggs.now) keys.now) }
{
    let mut order = Items::new(alloc);
    for key in keys {
        order.push(bound_key(scope, aggs, key))?;
    }
    Ok(order)
}
