// Values, and their texts.

ghost use Rattle.std.specs.Prelude.{◌≡◌, IfOk, IsErrOf};
ghost use Rattle.cube_val.specs.declared.val.Val.{Val};
ghost use Rattle.cube_val.specs.Texts.{IsText};
ghost use Rattle.cube_val.specs.Values.{FitsType, IsValue, Writes, text_of};

use crate::number::{decimal_text, read_decimal, read_int};
use crate::text::TextVal;
use calendar::Day;
use std::alloc::{AllocError, Global};

/// The type of a column.
#[derive(Clone, Copy, Debug, PartialEq, Eq)]
pub enum ColType {
    /// Whole numbers.
    Int,
    /// Numbers with four digits after the point, counted in units of 1/10000.
    Decimal,
    /// Texts of at most 255 bytes of UTF-8.
    Text,
    /// Dates of the years 0000 to 9999, kept as the text `YYYY-MM-DD`, whose order is theirs.
    Date,
}

/// A value of a column.
#[derive(Debug, Drop)]
pub enum Val {
    /// No value: it stands in a column of any type.
    Null,
    /// A whole number, or the units of 1/10000 of a decimal.
    Int(i64),
    /// A text, or the ten bytes of a date.
    Text(TextVal),
}

/// Why bytes gave no value.
#[derive(Clone, Copy, Debug, PartialEq, Eq)]
pub enum ReadVal {
    /// The bytes write no value of the type.
    BadValue,
    /// Memory was wanting. It may stand in place of any other answer.
    Memory,
}

/// The text of a null.
const NULL_TEXT: &[u8] = b"\\N";

// The text of these bytes, as a value.
fn read_text(alloc: Global, bytes: &[u8]) -> Result<Val, ReadVal>
    ensures ok { IfOk result (λ v. IsText bytes.now × (v ≡ Val.Text bytes.now)) }
    ensures bad_value { IsErrOf result ReadVal.BadValue → ¬ (IsText bytes.now) }
{
    match TextVal::new(alloc, bytes) {
        Ok(text) => Ok(Val::Text(text)),
        Err(e) => Err(e),
    }
}

/// The value that the bytes write in a column of the type. Nothing is trimmed.
pub fn read_val(alloc: Global, ty: ColType, bytes: &[u8]) -> Result<Val, ReadVal>
    ensures ok { IfOk result (λ v. Writes ty bytes.now v) }
    ensures fits { IfOk result (λ v. FitsType ty v × IsValue v) }
    ensures bad_value { IsErrOf result ReadVal.BadValue → (v : Val) → Writes ty bytes.now v → ⊥ }
{
    if bytes == NULL_TEXT {
        return Ok(Val::Null);
    }
    match ty {
        ColType::Int => match read_int(bytes) {
            Some(number) => Ok(Val::Int(number)),
            None => Err(ReadVal::BadValue),
        },
        ColType::Decimal => match read_decimal(bytes) {
            Some(units) => Ok(Val::Int(units)),
            None => Err(ReadVal::BadValue),
        },
        ColType::Text => read_text(alloc, bytes),
        ColType::Date => match Day::read(bytes) {
            Some(_) => Ok(Val::Text(TextVal::of_date(bytes))),
            None => Err(ReadVal::BadValue),
        },
    }
}

/// The text of a value, as it is printed in a column of the type.
pub fn val_text(alloc: Global, ty: ColType, v: &Val) -> Result<Vec<u8>, AllocError>
    requires { FitsType ty v.now }
    ensures { IfOk result (λ text. text.items ≡ text_of ty v.now) }
{
    match v {
        Val::Null => Vec::from_slice(alloc, NULL_TEXT),
        Val::Int(number) => match ty {
            ColType::Decimal => decimal_text(alloc, i128::from(*number)),
            ColType::Int | ColType::Text | ColType::Date => {
                let text = number.to_string(alloc)?;
                Ok(text.into_bytes())
            }
        },
        Val::Text(text) => Vec::from_slice(alloc, text.bytes()),
    }
}

impl Val {
    /// An equal value.
    pub fn copy(&self) -> Result<Val, AllocError>
        ensures { IfOk result (λ v. v ≡ self.now) }
    {
        match self {
            Val::Null => Ok(Val::Null),
            Val::Int(number) => Ok(Val::Int(*number)),
            Val::Text(text) => {
                let text = text.copy()?;
                Ok(Val::Text(text))
            }
        }
    }
}
