// A value of an answer, without a copy of its text.

ghost use Rattle.std.specs.Prelude.{◌≡◌, ◌*ℤ◌, pos, IfOk, IsTrue, Some, None, if◌then◌else◌, option_map};
ghost use Rattle.std.specs.Ordering.{int_cmp};
ghost use Rattle.plain_answer.specs.OutRefs.{value_of};
ghost use Rattle.plain_answer.specs.OutVals.{in_units, is_null, out_cmp, shown, shown_number};

use crate::answer::OutVal;
use cube_val::{ColType, TextVal, Val};
use std::alloc::{AllocError, Global};
use std::cmp::Ordering;

/// The units of 1/10000 in a whole.
pub(crate) const UNITS: i128 = 10000;

/// A value of an answer, without a copy of its text.
#[derive(Clone, Copy)]
pub enum OutRef<'a> {
    /// No value.
    Null,
    /// A whole number.
    Whole(i128),
    /// A number in units of 1/10000.
    Units(i128),
    /// A text or a date.
    Text(&'a TextVal),
}

// Compares a whole number with a number in units of 1/10000. What is too large for an i128 is beyond every number.
fn cmp_whole(whole: i128, units: i128) -> Ordering
    ensures { result ≡ int_cmp (in_units whole) units }
{
    match whole.checked_mul(UNITS) {
        Some(scaled) => scaled.cmp(&units),
        None => {
            if whole < 0 {
                Ordering::Less
            } else {
                Ordering::Greater
            }
        }
    }
}

impl<'a> OutRef<'a> {
    /// A value of a column of the type, as it is shown.
    pub fn shown(ty: ColType, v: &'a Val) -> OutRef<'a>
        ensures { value_of result ≡ shown ty v.now }
    {
        match v {
            Val::Null => OutRef::Null,
            Val::Int(n) => match ty {
                ColType::Decimal => OutRef::Units(i128::from(*n)),
                ColType::Int | ColType::Text | ColType::Date => OutRef::Whole(i128::from(*n)),
            },
            Val::Text(text) => OutRef::Text(text),
        }
    }

    /// Whether there is no value.
    pub fn is_null(self) -> bool
        ensures { result ≡ is_null (value_of self.entry) }
    {
        match self {
            OutRef::Null => true,
            OutRef::Whole(_) => false,
            OutRef::Units(_) => false,
            OutRef::Text(_) => false,
        }
    }

    /// Compares two values: null first, then numbers by size, then texts by their bytes.
    pub fn cmp(self, other: OutRef<'_>) -> Ordering
        ensures { result ≡ out_cmp (value_of self.entry) (value_of other.entry) }
    {
        match (self, other) {
            (OutRef::Null, OutRef::Null) => Ordering::Equal,
            (OutRef::Null, _) => Ordering::Less,
            (_, OutRef::Null) => Ordering::Greater,
            (OutRef::Whole(x), OutRef::Whole(y)) => x.cmp(&y),
            (OutRef::Whole(x), OutRef::Units(y)) => cmp_whole(x, y),
            (OutRef::Units(x), OutRef::Whole(y)) => cmp_whole(y, x).reverse(),
            (OutRef::Units(x), OutRef::Units(y)) => x.cmp(&y),
            (OutRef::Text(x), OutRef::Text(y)) => x.bytes().cmp(&y.bytes()),
            (OutRef::Text(_), _) => Ordering::Greater,
            (_, OutRef::Text(_)) => Ordering::Less,
        }
    }

    /// The value with a copy of its text.
    pub fn to_owned(self) -> Result<OutVal, AllocError>
        ensures { IfOk result (λ v. v ≡ value_of self.entry) }
    {
        match self {
            OutRef::Null => Ok(OutVal::Null),
            OutRef::Whole(n) => Ok(OutVal::Whole(n)),
            OutRef::Units(n) => Ok(OutVal::Units(n)),
            OutRef::Text(text) => {
                let text = text.copy()?;
                Ok(OutVal::Text(text))
            }
        }
    }
}

impl OutVal {
    /// The value, without a copy of its text.
    pub fn as_ref(&self) -> OutRef<'_>
        ensures { value_of result ≡ self.now }
    {
        match self {
            OutVal::Null => OutRef::Null,
            OutVal::Whole(n) => OutRef::Whole(*n),
            OutVal::Units(n) => OutRef::Units(*n),
            OutVal::Text(text) => OutRef::Text(text),
        }
    }
}
