// The checks of what columns and aggregates are used for.
#![tactic(auto, using(crate::proofs::LeastLemmas::least_append))]

ghost use Rattle.std.specs.Prelude.{◌≡◌, ◌==◌, ◌&&◌, ℕ, List, [], ◌∷◌, ◌++◌, Option, Some, None};
ghost use Rattle.std.specs.List.{flat_map, list_any};
ghost use Rattle.cube_desc.specs.Forms as forms;
ghost use Rattle.query_names.specs.Least.{lesser, least, unless};
ghost use Rattle.query_names.specs.Parts.{of_cond, of_group_terms};
ghost use Rattle.query_names.specs.Resolve.{found};
ghost use Rattle.query_names.specs.Uses.{not_dimension, row_not_dimension, group_not_dimension, not_dimensions, gives, has_measure, kept_as, measured, is_kept, no_measure, no_measures, same_found, is_grouped, not_grouped, not_grouped_terms};

use crate::check::{
    Check, least_in, least_in_cond, least_of_group_terms, lesser, place_of, place_unless,
};
use crate::scope::{Scope, same_column};
use cube_desc::{CubeParts, MeasureDesc};
use cube_val::WideCol;
use measure_laws::MeasureForm;
use sql_reader::{AggWord, ColRef, SqlTerm};

// ---- dimensions

/// A column that is no dimension, where rows are selected, and where groups are.
#[derive(Clone, Copy)]
struct NotDimension<'a> {
    scope: &'a Scope<'a>,
}

impl<'s> Check<ColRef> for NotDimension<'s> {
    ghost failing = { λ s r. not_dimension s.scope.now.parts.now s.scope.now.query.now r };

    fn least(&self, column: &ColRef) -> Option<u32> {
        place_unless(self.scope.dimension_of(column).is_some(), place_of(column))
    }
}

#[derive(Clone, Copy)]
struct InRow<'a> {
    scope: &'a Scope<'a>,
}

impl<'s> Check<SqlTerm> for InRow<'s> {
    ghost failing = { λ s term. row_not_dimension s.scope.now.parts.now s.scope.now.query.now term };

    fn least(&self, term: &SqlTerm) -> Option<u32> {
        match term {
            SqlTerm::Col(column) => NotDimension { scope: self.scope }.least(column),
            SqlTerm::Agg { place, .. } => Some(*place),
        }
    }
}

#[derive(Clone, Copy)]
struct InGroup<'a> {
    scope: &'a Scope<'a>,
}

impl<'s> Check<SqlTerm> for InGroup<'s> {
    ghost failing = { λ s term. group_not_dimension s.scope.now.parts.now s.scope.now.query.now term };

    fn least(&self, term: &SqlTerm) -> Option<u32> {
        match term {
            SqlTerm::Col(column) => NotDimension { scope: self.scope }.least(column),
            SqlTerm::Agg { .. } => None,
        }
    }
}

pub(crate) fn not_dimension_place(scope: &Scope<'_>) -> Option<u32>
    ensures { result ≡ least (not_dimensions scope.now.parts.now scope.now.query.now) }
{
    let query = scope.query;
    let filtered = least_in_cond(&InRow { scope: &*scope }, &query.filter);
    let grouped = least_in(&NotDimension { scope: &*scope }, query.group.as_slice());
    let shown = least_of_group_terms(&InGroup { scope: &*scope }, query);
    lesser(lesser(filtered, grouped), shown)
}

// ---- measures

/// The form in which a cube keeps what an aggregate is worked out of. An average is worked out of the sum, and of the count of
/// known values, which is kept of every column that a measure is of.
pub fn kept_as(word: AggWord) -> MeasureForm
    ensures { result ≡ kept_as word }
{
    match word {
        AggWord::CountRows => MeasureForm::Count,
        AggWord::CountColumn => MeasureForm::Known,
        AggWord::CountDistinct => MeasureForm::Distinct,
        AggWord::Sum | AggWord::Avg => MeasureForm::Sum,
        AggWord::Min => MeasureForm::Min,
        AggWord::Max => MeasureForm::Max,
    }
}

fn is_of(column: usize, own: Option<usize>) -> bool
    ensures { result ≡ forms.is_of column own }
{
    match own {
        Some(own) => own == column,
        None => false,
    }
}

fn gives(form: MeasureForm, column: usize, measure: &MeasureDesc) -> bool
    ensures { result ≡ gives form column measure.now }
{
    let known = form.same_form(MeasureForm::Known);
    (known || form.same_form(measure.form)) && is_of(column, measure.column)
}

fn is_given(measures: &[MeasureDesc], form: MeasureForm, column: usize) -> bool
    ensures { result ≡ list_any (gives form column) measures.now }
{
    measures.iter().any(|m| gives(form, column, m))
}

fn has_measure(parts: &CubeParts, form: MeasureForm, column: Option<WideCol>) -> bool
    ensures { result ≡ has_measure parts.now form column }
{
    match column {
        Some(found) => {
            found.table == 0 && is_given(parts.measures.as_slice(), form, found.column)
        }
        None => false,
    }
}

fn is_kept(parts: &CubeParts, word: AggWord, column: Option<WideCol>) -> bool
    ensures { result ≡ is_kept parts.now word column }
{
    let form = kept_as(word);
    form.counts_rows() || has_measure(parts, form, column)
}

fn measured(scope: &Scope<'_>, column: &Option<ColRef>) -> Option<WideCol>
    ensures { result ≡ measured scope.now.parts.now scope.now.query.now column.now }
{
    match column {
        Some(column) => scope.found(column),
        None => None,
    }
}

/// An aggregate that the cube can't work out.
#[derive(Clone, Copy)]
struct NoMeasure<'a> {
    scope: &'a Scope<'a>,
}

impl<'s> Check<SqlTerm> for NoMeasure<'s> {
    ghost failing = { λ s term. no_measure s.scope.now.parts.now s.scope.now.query.now term };

    fn least(&self, term: &SqlTerm) -> Option<u32> {
        match term {
            SqlTerm::Col(_) => None,
            SqlTerm::Agg {
                place,
                word,
                column,
            } => {
                let kept = is_kept(self.scope.parts, *word, measured(self.scope, column));
                place_unless(kept, *place)
            }
        }
    }
}

pub(crate) fn no_measure_place(scope: &Scope<'_>) -> Option<u32>
    ensures { result ≡ least (no_measures scope.now.parts.now scope.now.query.now) }
{
    let (check, query) = (NoMeasure { scope: &*scope }, scope.query);
    lesser(
        least_in_cond(&check, &query.filter),
        least_of_group_terms(&check, query),
    )
}

// ---- groups

fn same_found(a: Option<WideCol>, b: Option<WideCol>) -> bool
    ensures { result ≡ same_found a b }
{
    match (a, b) {
        (Some(a), Some(b)) => same_column(a, b),
        _ => false,
    }
}

fn is_grouped(scope: &Scope<'_>, group: &[ColRef], column: Option<WideCol>) -> bool
    ensures { result ≡ list_any (λ g. same_found (found scope.now.parts.now scope.now.query.now g) column) group.now }
{
    group.iter().any(|g| same_found(scope.found(g), column))
}

/// A column that isn't in GROUP BY.
#[derive(Clone, Copy)]
struct NotGrouped<'a> {
    scope: &'a Scope<'a>,
}

impl<'s> Check<SqlTerm> for NotGrouped<'s> {
    ghost failing = { λ s term. not_grouped s.scope.now.parts.now s.scope.now.query.now term };

    fn least(&self, term: &SqlTerm) -> Option<u32> {
        match term {
            SqlTerm::Col(column) => {
                let (scope, group) = (self.scope, &self.scope.query.group);
                place_unless(
                    is_grouped(scope, group.as_slice(), scope.found(column)),
                    place_of(column),
                )
            }
            SqlTerm::Agg { .. } => None,
        }
    }
}

pub(crate) fn not_grouped_place(scope: &Scope<'_>) -> Option<u32>
    ensures { result ≡ least (not_grouped_terms scope.now.parts.now scope.now.query.now) }
{
    let query = scope.query;
    least_of_group_terms(&NotGrouped { scope: &*scope }, query)
}
