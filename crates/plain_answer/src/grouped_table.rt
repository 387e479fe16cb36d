// The table that groups make.

ghost use Rattle.std.specs.Prelude.{◌≡◌, filter, map, take, IfOk, if◌then◌else◌};
ghost use Rattle.std.specs.Ordering.{flip_args, on};
ghost use Rattle.plain_answer.specs.Answers.{by_keys, group_cmp, group_value, has, in_order, limited, row_of_group, shown_groups, table_of};
ghost use Rattle.plain_answer.specs.OutVals.{out_cmp};

use crate::answer::{AnswerRow, AnswerTable, PlainRow};
use crate::ask::{Ask, OrderKey, Out};
use crate::cond::Cond;
use crate::eval::evaluate;
use crate::terms::{GroupTerms, Terms};
use crate::truth::Truth;
use cube_val::{Items, NameText};
use std::alloc::{AllocError, Global};
use std::cmp::Ordering;

// Whether the condition on groups is true of a group.
fn has(columns: &[usize], having: &Cond, group: &PlainRow) -> bool
    ensures { result ≡ has columns.now having.now group.now }
{
    match evaluate(&GroupTerms { columns, group }, having) {
        Truth::True => true,
        Truth::False => false,
        Truth::Unknown => false,
    }
}

// The groups of which the condition is true.
fn kept(
    alloc: Global,
    columns: &[usize],
    having: &Cond,
    groups: Vec<PlainRow>,
) -> Result<Vec<PlainRow>, AllocError>
    ensures { IfOk result (λ kept. kept.items ≡ filter (has columns.now having.now) groups.items) }
{
    groups
        .into_iter()
        .filter(|group| has(columns, having, group))
        .collect(alloc)
}

// The order of two groups by a key.
fn cmp_by_key(columns: &[usize], key: OrderKey, a: &PlainRow, b: &PlainRow) -> Ordering
    ensures { result ≡ (if key.falling then flip_args (on (λ group. group_value columns.now group key.term) out_cmp) else on (λ group. group_value columns.now group key.term) out_cmp) a.now b.now }
{
    let first = GroupTerms { columns, group: a };
    let second = GroupTerms { columns, group: b };
    if key.falling {
        second.get(key.term).cmp(first.get(key.term))
    } else {
        first.get(key.term).cmp(second.get(key.term))
    }
}

// The order of two groups by keys in turn.
fn cmp_by_keys(columns: &[usize], order: &[OrderKey], a: &PlainRow, b: &PlainRow) -> Ordering
    ensures { result ≡ by_keys (group_value columns.now) order.now a.now b.now }
{
    match order {
        [] => Ordering::Equal,
        [key, order @ ..] => {
            cmp_by_key(columns, *key, a, b).then(cmp_by_keys(columns, order, a, b))
        }
    }
}

// The order of two groups, ties by their keys.
fn cmp_groups(columns: &[usize], order: &[OrderKey], a: &PlainRow, b: &PlainRow) -> Ordering
    ensures { result ≡ group_cmp columns.now order.now a.now b.now }
{
    cmp_by_keys(columns, order, a, b).then(a.key.cmp(&b.key))
}

// The groups in order.
fn in_order(
    columns: &[usize],
    order: &[OrderKey],
    groups: Vec<PlainRow>,
) -> Result<Vec<PlainRow>, AllocError>
    ensures { IfOk result (λ sorted. sorted.items ≡ in_order columns.now order.now groups.items) }
{
    let mut groups = groups;
    groups.sort_by(|a, b| cmp_groups(columns, order, a, b))?;
    Ok(groups)
}

// The first groups, as many as the limit says.
fn limited(limit: Option<u32>, groups: Vec<PlainRow>) -> Vec<PlainRow>
    ensures { result.items ≡ limited limit groups.items }
{
    let mut groups = groups;
    if let Some(most) = limit {
        groups.truncate(most as usize);
    }
    groups
}

// The select items of a group.
fn row_of_group(
    alloc: Global,
    columns: &[usize],
    outs: &[Out],
    group: &PlainRow,
) -> Result<AnswerRow, AllocError>
    ensures { IfOk result (λ row. row ≡ row_of_group columns.now outs.now group.now) }
{
    let mut row = AnswerRow::new(alloc);
    for out in outs {
        let terms = GroupTerms { columns, group };
        let v = terms.get(out.term).to_owned()?;
        row.push(v)?;
    }
    Ok(row)
}

// The names of the select items.
fn names(alloc: Global, outs: &[Out]) -> Result<Items<NameText>, AllocError>
    ensures { IfOk result (λ names. names ≡ map (λ out. out.name) outs.now) }
{
    let mut names = Items::new(alloc);
    for out in outs {
        let name = out.name.copy()?;
        names.push(name)?;
    }
    Ok(names)
}

// The rows of the table.
fn rows(
    alloc: Global,
    columns: &[usize],
    outs: &[Out],
    groups: &[PlainRow],
) -> Result<Items<AnswerRow>, AllocError>
    ensures { IfOk result (λ rows. rows ≡ map (row_of_group columns.now outs.now) groups.now) }
{
    let mut rows = Items::new(alloc);
    for group in groups {
        let row = row_of_group(alloc, columns, outs, group)?;
        rows.push(row)?;
    }
    Ok(rows)
}

/// The table that groups make, each with the values of the group columns and of the ask's aggregates: the groups whose
/// condition is true, in order, cut at the limit, with the select items of each.
pub fn table(alloc: Global, ask: &Ask, groups: Vec<PlainRow>) -> Result<AnswerTable, AllocError>
    ensures { IfOk result (λ table. table ≡ table_of ask.now groups.items) }
{
    let columns = ask.group.as_slice();
    let groups = kept(alloc, columns, &ask.having, groups)?;
    let groups = in_order(columns, ask.order.as_slice(), groups)?;
    let groups = limited(ask.limit, groups);
    let names = names(alloc, ask.outs.as_slice())?;
    let rows = rows(alloc, columns, ask.outs.as_slice(), &groups)?;
    Ok(AnswerTable { names, rows })
}
