// What terms stand for, in a row and in a group.

ghost use Rattle.std.specs.Prelude.{◌≡◌, ◌==◌, ◌+◌, Some, None, unwrap_or, slice_get, length, drop};
ghost use Rattle.std.specs.Option.{option_copied};
ghost use Rattle.plain_answer.specs.declared.answer.OutVal.{OutVal};
ghost use Rattle.plain_answer.specs.declared.cond.Term.{Term};
ghost use Rattle.plain_answer.specs.Aggregates.{cell};
ghost use Rattle.plain_answer.specs.Answers.{group_value, key_cell, row_value};
ghost use Rattle.plain_answer.specs.OutRefs.{value_of};
ghost use Rattle.plain_answer.specs.OutVals.{shown};
ghost use Rattle.plain_answer.specs.declared.answer.OutVal.TheVariants as out;
ghost use Rattle.cube_val.specs.declared.val.Val.TheVariants as val;

use crate::answer::{OutVal, PlainRow};
use crate::cond::Term;
use crate::out_ref::OutRef;
use cube_val::{ColType, Row, Val};
use sqlite_items::at;

/// What has a value for each term of an ask.
pub trait Terms {
    // The value of each term.
    ghost value: { Self → Term → OutVal };

    /// The value of a term. A column or an aggregate that isn't there is null.
    fn get(&self, term: Term) -> OutRef<'_>
        ensures { value_of result ≡ value self.now term };
}

// A value of a column of the type, as it is shown; where there is none, it is null.
pub(crate) fn shown_or_null(ty: ColType, v: Option<&Val>) -> OutRef<'_>
    ensures { value_of result ≡ shown ty (unwrap_or (option_copied v.entry) val.Null) }
{
    match v {
        Some(v) => OutRef::shown(ty, v),
        None => OutRef::Null,
    }
}

impl Terms for Row {
    ghost value = { row_value };

    fn get(&self, term: Term) -> OutRef<'_> {
        match term {
            Term::Col(column, ty) => shown_or_null(ty, at(self.vals(), column)),
            Term::Agg(_) => OutRef::Null,
        }
    }
}

/// A group, with the columns that its key has the values of.
#[derive(Clone, Copy)]
pub struct GroupTerms<'a> {
    /// The group columns of the ask.
    pub columns: &'a [usize],
    /// The group.
    pub group: &'a PlainRow,
}

// The value of a group column in a key.
#[tactic(auto, using(crate::proofs::GroupLemmas::key_cell_of_none))]
fn find_in_key<'a>(columns: &[usize], key: &'a [Val], column: usize) -> Option<&'a Val>
    ensures { unwrap_or (option_copied result) val.Null ≡ key_cell columns.now key.now column }
{
    match (columns, key) {
        ([], _) => None,
        ([_, ..], []) => None,
        ([first, columns @ ..], [v, key @ ..]) => {
            if *first == column {
                Some(v)
            } else {
                find_in_key(columns, key, column)
            }
        }
    }
}

// An aggregate of a group, or null.
fn aggregate_at(values: &[OutVal], number: usize) -> OutRef<'_>
    ensures { value_of result ≡ unwrap_or (slice_get values.now number) out.Null }
{
    match at(values, number) {
        Some(v) => v.as_ref(),
        None => OutRef::Null,
    }
}

impl<'a> Terms for GroupTerms<'a> {
    ghost value = { λ terms. group_value terms.columns.now terms.group.now };

    fn get(&self, term: Term) -> OutRef<'_> {
        match term {
            Term::Col(column, ty) => {
                shown_or_null(ty, find_in_key(self.columns, self.group.key.vals(), column))
            }
            Term::Agg(number) => aggregate_at(self.group.values.as_slice(), number),
        }
    }
}
