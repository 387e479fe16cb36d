// The aggregates of a query.
#![tactic(auto, using(crate::proofs::AggLemmas::fold_append))]

ghost use Rattle.std.specs.Prelude.{◌≡◌, ◌==◌, ◌≤◌, ◌<◌, ◌+◌, ◌++◌, ◌∷◌, [], ℕ, List, Option, Some, IfOk, IfSome, OnOk, fold, drop, length, unwrap_or};
ghost use Rattle.std.specs.List.{flat_map, list_any, position};
ghost use Rattle.query_names.specs.Parts.{cond_terms, of_cond, of_group_terms, key_term};
ghost use Rattle.query_names.specs.Resolve.{dimension_count, same_column, type_found};
ghost use Rattle.query_names.specs.Uses.{measured};
ghost use Rattle.query_bind.specs.Asks.{measure_place, measure_column, kind_of, agg_of, given_agg, same_number, same_agg, with_agg, aggs_of, agg_number};

use cube_desc::CubeParts;
use cube_val::{ColType, WideCol};
use plain_answer::{Agg, AggKind};
use query_names::{Scope, kept_as, key_term};
use sql_reader::{AggWord, ColRef, Item, SqlCond, SqlKey, SqlTerm};
use std::alloc::{AllocError, Global};

fn kind_of(word: AggWord) -> AggKind
    ensures { result ≡ kind_of word }
{
    match word {
        AggWord::Avg => AggKind::Avg,
        AggWord::CountRows
        | AggWord::CountColumn
        | AggWord::CountDistinct
        | AggWord::Sum
        | AggWord::Min
        | AggWord::Max => AggKind::of_form(kept_as(word)),
    }
}

/// The columns behind the first so many.
fn behind(columns: &[WideCol], count: usize) -> &[WideCol]
    requires { count ≤ length columns.now }
    ensures { result.now ≡ drop count columns.now }
{
    &columns[count..]
}

/// The place of a column among others.
pub(crate) fn place_in(columns: &[WideCol], column: WideCol) -> Option<usize>
    ensures place { result ≡ position (λ own. same_column own column) columns.now }
    ensures bound { IfSome result (λ i. i < length columns.now) }
{
    columns.iter().position(|own| own.table == column.table && own.column == column.column)
}

/// The place of a measured column in a joined row.
fn measure_place(parts: &CubeParts, column: WideCol) -> usize
    requires { dimension_count parts.now ≤ length parts.now.plan.wide }
    ensures { result ≡ measure_place parts.now column }
{
    let plan = &parts.plan;
    let wide = plan.wide.as_slice();
    let count = parts.rowkey.len() + parts.derived.len();
    match place_in(behind(wide, count), column) {
        Some(place) => count + place,
        None => count,
    }
}

fn measure_column(parts: &CubeParts, column: Option<WideCol>) -> Option<usize>
    requires { dimension_count parts.now ≤ length parts.now.plan.wide }
    ensures { result ≡ measure_column parts.now column }
{
    match column {
        Some(column) => Some(measure_place(parts, column)),
        None => None,
    }
}

fn measured(scope: &Scope<'_>, column: &Option<ColRef>) -> Option<WideCol>
    ensures { result ≡ measured scope.now.parts.now scope.now.query.now column.now }
{
    match column {
        Some(column) => scope.found(column),
        None => None,
    }
}

fn type_found(scope: &Scope<'_>, column: &Option<ColRef>) -> ColType
    ensures { result ≡ type_found scope.now.parts.now (measured scope.now.parts.now scope.now.query.now column.now) }
{
    match column {
        Some(column) => scope.column_type(column),
        None => ColType::Int,
    }
}

/// An aggregate, over the columns of a joined row.
fn agg_of(scope: &Scope<'_>, word: AggWord, column: &Option<ColRef>) -> Agg
    requires { dimension_count scope.now.parts.now ≤ length scope.now.parts.now.plan.wide }
    ensures { result ≡ agg_of scope.now.parts.now word (measured scope.now.parts.now scope.now.query.now column.now) }
{
    let found = measured(scope, column);
    Agg {
        kind: kind_of(word),
        column: measure_column(scope.parts, found),
        ty: type_found(scope, column),
    }
}

fn same_number(a: Option<usize>, b: Option<usize>) -> bool
    ensures { result ≡ same_number a b }
{
    match (a, b) {
        (None, None) => true,
        (Some(a), Some(b)) => a == b,
        _ => false,
    }
}

fn same_agg(a: &Agg, b: &Agg) -> bool
    ensures { result ≡ same_agg a.now b.now }
{
    a.kind.same_kind(b.kind) && same_number(a.column, b.column)
}

fn contains(aggs: &[Agg], agg: &Agg) -> bool
    ensures { result ≡ list_any (same_agg agg.now) aggs.now }
{
    aggs.iter().any(|own| same_agg(agg, own))
}

fn push_agg(aggs: &mut Vec<Agg>, agg: Agg) -> Result<(), AllocError>
    ensures { OnOk result (aggs.new.items ≡ with_agg aggs.old.items agg) }
{
    if contains(aggs.as_slice(), &agg) {
        return Ok(());
    }
    aggs.push(agg)?;
    Ok(())
}

fn push_term(scope: &Scope<'_>, aggs: &mut Vec<Agg>, term: &SqlTerm) -> Result<(), AllocError>
    requires { dimension_count scope.now.parts.now ≤ length scope.now.parts.now.plan.wide }
    ensures { OnOk result (aggs.new.items ≡ fold with_agg aggs.old.items (given_agg scope.now.parts.now scope.now.query.now term.now)) }
{
    match term {
        SqlTerm::Col(_) => Ok(()),
        SqlTerm::Agg { word, column, .. } => push_agg(aggs, agg_of(scope, *word, column)),
    }
}

fn push_cond(scope: &Scope<'_>, aggs: &mut Vec<Agg>, cond: &SqlCond) -> Result<(), AllocError>
    requires { dimension_count scope.now.parts.now ≤ length scope.now.parts.now.plan.wide }
    ensures { OnOk result (aggs.new.items ≡ fold with_agg aggs.old.items (flat_map (given_agg scope.now.parts.now scope.now.query.now) (cond_terms cond.now))) }
{
    match cond {
        SqlCond::Compare(term, _, _) => push_term(scope, aggs, term),
        SqlCond::AnyOf(term, _) => push_term(scope, aggs, term),
        SqlCond::Between(term, _, _) => push_term(scope, aggs, term),
        SqlCond::IsNull(term) => push_term(scope, aggs, term),
        SqlCond::And(a, b) => {
            push_cond(scope, aggs, a.get())?;
            push_cond(scope, aggs, b.get())
        }
        SqlCond::Or(a, b) => {
            push_cond(scope, aggs, a.get())?;
            push_cond(scope, aggs, b.get())
        }
        SqlCond::Not(a) => push_cond(scope, aggs, a.get()),
    }
}

fn push_having(
    scope: &Scope<'_>,
    aggs: &mut Vec<Agg>,
    cond: &Option<SqlCond>,
) -> Result<(), AllocError>
    requires { dimension_count scope.now.parts.now ≤ length scope.now.parts.now.plan.wide }
    ensures { OnOk result (aggs.new.items ≡ fold with_agg aggs.old.items (of_cond (given_agg scope.now.parts.now scope.now.query.now) cond.now)) }
{
    match cond {
        Some(cond) => push_cond(scope, aggs, cond),
        None => Ok(()),
    }
}

fn push_items(scope: &Scope<'_>, aggs: &mut Vec<Agg>, items: &[Item]) -> Result<(), AllocError>
    requires { dimension_count scope.now.parts.now ≤ length scope.now.parts.now.plan.wide }
    ensures { OnOk result (aggs.new.items ≡ fold with_agg aggs.old.items (flat_map (λ item. given_agg scope.now.parts.now scope.now.query.now item.term) items.now)) }
{
    for item in items {
        push_term(scope, aggs, &item.term)?;
    }
    Ok(())
}

fn push_keys(scope: &Scope<'_>, aggs: &mut Vec<Agg>, keys: &[SqlKey]) -> Result<(), AllocError>
    requires { dimension_count scope.now.parts.now ≤ length scope.now.parts.now.plan.wide }
    ensures { OnOk result (aggs.new.items ≡ fold with_agg aggs.old.items (flat_map (λ key. given_agg scope.now.parts.now scope.now.query.now (key_term scope.now.query.now key.term)) keys.now)) }
{
    for key in keys {
        push_term(scope, aggs, key_term(scope.query, &key.term))?;
    }
    Ok(())
}

/// The aggregates of a query, each where it first stands: in the select list, HAVING, ORDER BY.
pub(crate) fn aggs_of(alloc: Global, scope: &Scope<'_>) -> Result<Vec<Agg>, AllocError>
    requires { dimension_count scope.now.parts.now ≤ length scope.now.parts.now.plan.wide }
    ensures { IfOk result (λ v. v.items ≡ aggs_of scope.now.parts.now scope.now.query.now) }
{
    let query = scope.query;
    let mut aggs = Vec::new(alloc);
    push_items(scope, &mut aggs, query.items.as_slice())?;
    push_having(scope, &mut aggs, &query.having)?;
    push_keys(scope, &mut aggs, query.order.as_slice())?;
    Ok(aggs)
}

fn agg_place(aggs: &[Agg], agg: &Agg) -> Option<usize>
    ensures { result ≡ position (same_agg agg.now) aggs.now }
{
    aggs.iter().position(|own| same_agg(agg, own))
}

/// The number of the aggregate that a term is among those of the query.
pub(crate) fn agg_number(
    scope: &Scope<'_>,
    aggs: &[Agg],
    word: AggWord,
    column: &Option<ColRef>,
) -> usize
    requires { dimension_count scope.now.parts.now ≤ length scope.now.parts.now.plan.wide }
    ensures { result ≡ agg_number aggs.now (agg_of scope.now.parts.now word (measured scope.now.parts.now scope.now.query.now column.now)) }
{
    let agg = agg_of(scope, word, column);
    match agg_place(aggs, &agg) {
        Some(number) => number,
        None => 0,
    }
}
