// The rowkey columns that a query uses.
#![tactic(auto, using(crate::proofs::NeedLemmas::flat_map_append))]

ghost use Rattle.std.specs.Prelude.{◌≡◌, ◌≤◌, ◌<◌, ◌++◌, ◌∷◌, [], ℕ, List, Option, IfOk, OnOk, IsTrue, length, map, unwrap_or, slice_get};
ghost use Rattle.std.specs.List.{flat_map, position};
ghost use Rattle.std.specs.Option.{option_copied};
ghost use Rattle.agg_group.specs.Mask.{has};
ghost use Rattle.agg_group.specs.Limits.{most_dimensions};
ghost use Rattle.agg_group.specs.Sets.{is_among};
ghost use Rattle.agg_group.specs.Rules.{AreDimensions};
ghost use Rattle.cube_desc.specs.Resolve.{wide_fact};
ghost use Rattle.cube_desc.specs.Sound.{foreign_of};
ghost use Rattle.query_names.specs.Parts.{cond_terms, of_cond, of_term};
ghost use Rattle.query_names.specs.Resolve.{same_column};
ghost use Rattle.query_bind.specs.Asks.{column_number};
ghost use Rattle.query_bind.specs.Bounds.{IsWithinRowkey};
ghost use Rattle.query_bind.specs.Needs.{rowkey_place, derived_bits, bits_of, column_bits, needed_bits};

use crate::aggs::place_in;
use crate::terms::column_number;
use agg_group::Mask;
use cube_desc::CubeParts;
use cube_val::{JoinStep, WideCol};
use query_names::Scope;
use sql_reader::{ColRef, SqlCond, SqlTerm};
use std::alloc::{AllocError, Global};

/// The place of a fact table's column in the rowkey.
fn rowkey_place(rowkey: &[WideCol], column: usize) -> usize
    requires { 0 < length rowkey.now }
    ensures place { result ≡ unwrap_or (position (λ own. same_column own (wide_fact column)) rowkey.now) 0 }
    ensures bound { result < length rowkey.now }
{
    match place_in(rowkey, WideCol { table: 0, column }) {
        Some(place) => place,
        None => 0,
    }
}

fn push_bit(bits: &mut Vec<u32>, parts: &CubeParts, place: usize) -> Result<(), AllocError>
    requires few { length parts.now.rowkey ≤ most_dimensions }
    requires place { place < length parts.now.rowkey }
    ensures { OnOk result (bits.new.items ≡ bits.old.items ++ place ∷ []) }
{
    bits.push(place as u32)?;
    Ok(())
}

fn push_foreign(bits: &mut Vec<u32>, parts: &CubeParts, foreign: &[usize]) -> Result<(), AllocError>
    requires some { 0 < length parts.now.rowkey }
    requires few { length parts.now.rowkey ≤ most_dimensions }
    ensures { OnOk result (bits.new.items ≡ bits.old.items ++ map (rowkey_place parts.now) foreign.now) }
{
    for column in foreign {
        push_bit(bits, parts, rowkey_place(parts.rowkey.as_slice(), *column))?;
    }
    Ok(())
}

fn foreign_of(step: Option<&JoinStep>) -> &[usize]
    ensures { result.now ≡ foreign_of (option_copied step.entry) }
{
    match step {
        Some(step) => step.foreign.as_slice(),
        None => &[],
    }
}

fn push_derived(bits: &mut Vec<u32>, parts: &CubeParts, number: usize) -> Result<(), AllocError>
    requires some { 0 < length parts.now.rowkey }
    requires few { length parts.now.rowkey ≤ most_dimensions }
    ensures { OnOk result (bits.new.items ≡ bits.old.items ++ derived_bits parts.now (slice_get parts.now.derived number)) }
{
    match parts.derived.as_slice().get(number) {
        Some(derived) => {
            let steps = parts.plan.joins.as_slice();
            push_foreign(bits, parts, foreign_of(steps.get(derived.lookup)))
        }
        None => Ok(()),
    }
}

fn push_place(bits: &mut Vec<u32>, parts: &CubeParts, place: usize) -> Result<(), AllocError>
    requires some { 0 < length parts.now.rowkey }
    requires few { length parts.now.rowkey ≤ most_dimensions }
    ensures { OnOk result (bits.new.items ≡ bits.old.items ++ bits_of parts.now place) }
{
    let count = parts.rowkey.len();
    if place < count {
        push_bit(bits, parts, place)
    } else {
        push_derived(bits, parts, place - count)
    }
}

fn push_column(bits: &mut Vec<u32>, scope: &Scope<'_>, column: &ColRef) -> Result<(), AllocError>
    requires some { 0 < length scope.now.parts.now.rowkey }
    requires few { length scope.now.parts.now.rowkey ≤ most_dimensions }
    ensures { OnOk result (bits.new.items ≡ bits.old.items ++ column_bits scope.now.parts.now scope.now.query.now column.now) }
{
    push_place(bits, scope.parts, column_number(scope, column))
}

fn push_term(bits: &mut Vec<u32>, scope: &Scope<'_>, term: &SqlTerm) -> Result<(), AllocError>
    requires some { 0 < length scope.now.parts.now.rowkey }
    requires few { length scope.now.parts.now.rowkey ≤ most_dimensions }
    ensures { OnOk result (bits.new.items ≡ bits.old.items ++ of_term (column_bits scope.now.parts.now scope.now.query.now) term.now) }
{
    match term {
        SqlTerm::Col(column) => push_column(bits, scope, column),
        SqlTerm::Agg { column, .. } => match column {
            Some(column) => push_column(bits, scope, column),
            None => Ok(()),
        },
    }
}

fn push_cond(bits: &mut Vec<u32>, scope: &Scope<'_>, cond: &SqlCond) -> Result<(), AllocError>
    requires some { 0 < length scope.now.parts.now.rowkey }
    requires few { length scope.now.parts.now.rowkey ≤ most_dimensions }
    ensures { OnOk result (bits.new.items ≡ bits.old.items ++ flat_map (of_term (column_bits scope.now.parts.now scope.now.query.now)) (cond_terms cond.now)) }
{
    match cond {
        SqlCond::Compare(term, _, _) => push_term(bits, scope, term),
        SqlCond::AnyOf(term, _) => push_term(bits, scope, term),
        SqlCond::Between(term, _, _) => push_term(bits, scope, term),
        SqlCond::IsNull(term) => push_term(bits, scope, term),
        SqlCond::And(a, b) => {
            push_cond(bits, scope, a.get())?;
            push_cond(bits, scope, b.get())
        }
        SqlCond::Or(a, b) => {
            push_cond(bits, scope, a.get())?;
            push_cond(bits, scope, b.get())
        }
        SqlCond::Not(a) => push_cond(bits, scope, a.get()),
    }
}

fn push_filter(
    bits: &mut Vec<u32>,
    scope: &Scope<'_>,
    filter: &Option<SqlCond>,
) -> Result<(), AllocError>
    requires some { 0 < length scope.now.parts.now.rowkey }
    requires few { length scope.now.parts.now.rowkey ≤ most_dimensions }
    ensures { OnOk result (bits.new.items ≡ bits.old.items ++ of_cond (of_term (column_bits scope.now.parts.now scope.now.query.now)) filter.now) }
{
    match filter {
        Some(cond) => push_cond(bits, scope, cond),
        None => Ok(()),
    }
}

fn push_group(bits: &mut Vec<u32>, scope: &Scope<'_>, group: &[ColRef]) -> Result<(), AllocError>
    requires some { 0 < length scope.now.parts.now.rowkey }
    requires few { length scope.now.parts.now.rowkey ≤ most_dimensions }
    ensures { OnOk result (bits.new.items ≡ bits.old.items ++ flat_map (column_bits scope.now.parts.now scope.now.query.now) group.now) }
{
    for column in group {
        push_column(bits, scope, column)?;
    }
    Ok(())
}

fn needed_bits(alloc: Global, scope: &Scope<'_>) -> Result<Vec<u32>, AllocError>
    requires some { 0 < length scope.now.parts.now.rowkey }
    requires few { length scope.now.parts.now.rowkey ≤ most_dimensions }
    ensures { IfOk result (λ v. v.items ≡ needed_bits scope.now.parts.now scope.now.query.now) }
{
    let query = scope.query;
    let mut bits = Vec::new(alloc);
    push_filter(&mut bits, scope, &query.filter)?;
    push_group(&mut bits, scope, query.group.as_slice())?;
    Ok(bits)
}

/// The rowkey columns that a cuboid needs for the query.
pub(crate) fn needed(alloc: Global, scope: &Scope<'_>) -> Result<Mask, AllocError>
    requires some { 0 < length scope.now.parts.now.rowkey }
    requires few { length scope.now.parts.now.rowkey ≤ most_dimensions }
    ensures bits { IfOk result (λ m. (d : ℕ) → has m d ≡ is_among d (needed_bits scope.now.parts.now scope.now.query.now)) }
    ensures within { IfOk result (λ m. IsWithinRowkey scope.now.parts.now m) }
{
    let bits = needed_bits(alloc, scope)?;
    Ok(Mask::of(bits.as_slice()))
}
