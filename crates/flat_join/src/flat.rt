// The flat rows of fact rows.

ghost use Rattle.std.specs.Prelude.{◌≡◌, ◌++◌, ◌∷◌, [], IfOk, OnOk, if◌then◌else◌, length};
ghost use Rattle.cube_desc.specs.Sound.{IsSound};
ghost use Rattle.flat_join.specs.Joins.{day_in, is_joined, is_within, joined_by, wide_row};
ghost use Rattle.flat_join.specs.Flat.{without_derived};
ghost use Rattle.flat_join.specs.Partners.{found_in};

use crate::partner::{has_inner_partners, partners, value_at};
use crate::wide::wide_row;
use calendar::Day;
use cube_desc::CubeParts;
use cube_val::{JoinPlan, Row, Val, WideCol};
use lookup_snap::LookupSnap;
use plain_answer::FlatRows;
use range_list::Range;
use std::alloc::{AllocError, Global};

// Whether the value of a date column is a day of the range.
fn is_within(range: &Range, date: &Val) -> bool
    ensures { result ≡ is_within range.now (day_in date.now) }
{
    match date {
        Val::Text(text) => match Day::read(text.bytes()) {
            Some(day) => range.start() <= day && day < range.end(),
            None => false,
        },
        Val::Null | Val::Int(_) => false,
    }
}

/// The columns of the flat rows: the wide columns without the derived ones.
pub(crate) fn flat_columns(alloc: Global, parts: &CubeParts) -> Result<Vec<WideCol>, AllocError>
    requires { IsSound parts.now }
    ensures { IfOk result (λ columns. columns.items ≡ without_derived parts.now parts.now.plan.wide) }
{
    let wide = parts.plan.wide.as_slice();
    let keys = parts.rowkey.len();
    let mut columns = Vec::from_slice(alloc, &wide[..keys])?;
    columns.extend_from_slice(&wide[keys + parts.derived.len()..])?;
    Ok(columns)
}

// Adds the joined row of a fact row, if its date lies in the range and no inner join drops it.
fn add_joined(
    alloc: Global,
    plan: &JoinPlan,
    columns: &[WideCol],
    snaps: &[LookupSnap],
    range: &Range,
    fact: &Row,
    flat: &mut FlatRows,
) -> Result<(), AllocError>
    requires { length plan.now.joins ≡ length snaps.now }
    ensures { OnOk result (flat.new ≡ flat.old ++ (if is_joined plan.now range.now fact.now (found_in plan.now.joins snaps.now fact.now)
        then wide_row columns.now fact.now (found_in plan.now.joins snaps.now fact.now) ∷ [] else [])) }
{
    let date = value_at(fact, plan.partition)?;
    if !is_within(range, &date) {
        return Ok(());
    }
    let joins = plan.joins.as_slice();
    let found = partners(alloc, joins, snaps, fact)?;
    if has_inner_partners(joins, found.as_slice()) {
        flat.push(wide_row(alloc, columns, fact, found.as_slice())?)?;
    }
    Ok(())
}

/// Adds the joined rows of fact rows, with these columns. After want of memory some of them stand there.
pub(crate) fn add_joined_rows(
    alloc: Global,
    plan: &JoinPlan,
    columns: &[WideCol],
    snaps: &[LookupSnap],
    range: &Range,
    facts: &[Row],
    flat: &mut FlatRows,
) -> Result<(), AllocError>
    requires { length plan.now.joins ≡ length snaps.now }
    ensures { OnOk result (flat.new ≡ flat.old ++ joined_by (found_in plan.now.joins snaps.now) plan.now columns.now range.now facts.now) }
{
    for fact in facts {
        add_joined(alloc, plan, columns, snaps, range, fact, flat)?;
    }
    Ok(())
}
