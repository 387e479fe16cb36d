// Values.

ghost use Rattle.std.specs.Prelude.{◌≡◌, ◌≤◌, ◌++◌, length, OnOk, Some, None, if◌then◌else◌, is_some, Bool};
ghost use Rattle.std.specs.Str.{is_utf8};
ghost use Rattle.std.specs.Int.{w64};
ghost use Rattle.byte_frame.specs.Outcomes.{Gives};
ghost use Rattle.byte_frame.specs.Reading.{as_at, signed_at};
ghost use Rattle.calendar.specs.Dates.{day_of};
ghost use Rattle.cube_val.specs.declared.val.Val.TheVariants.{Int};
ghost use Rattle.step_fields.specs.Reading.{date_at, may_stand, text_at, typed_at, val_at};
ghost use Rattle.step_fields.specs.Spelling.{val_text};

use crate::column::Column;
use byte_frame::{FieldReader, ReadError, Reads, put_bytes, put_i64, put_u8};
use calendar::Day;
use cube_val::{ColType, ReadVal, TextVal, Val};
use std::alloc::{AllocError, Global};

/// The tag of a null.
const NULL: u8 = 0;

/// The tag of a number.
const NUMBER: u8 = 1;

/// The tag of a text.
const TEXT: u8 = 2;

// The text of these bytes.
fn text_val(alloc: Global, bytes: &[u8]) -> Result<TextVal, ReadError>
    requires { length bytes.now ≤ 255 }
    ensures { Gives (λ t. t) result (if is_utf8 bytes.now then Some bytes.now else None) }
{
    match TextVal::new(alloc, bytes) {
        Ok(text) => Ok(text),
        Err(ReadVal::BadValue) => Err(ReadError::Malformed),
        Err(ReadVal::Memory) => Err(ReadError::Memory),
    }
}

// A length of one byte, and a text of it.
fn read_text(alloc: Global, r: &mut FieldReader) -> Result<TextVal, ReadError>
    ensures { Gives (λ t. (t, r.new)) result (text_at r.old) }
{
    let Some(len) = r.take_u8() else {
        return Err(ReadError::Malformed);
    };
    let Some(bytes) = r.take_bytes(len as usize) else {
        return Err(ReadError::Malformed);
    };
    text_val(alloc, bytes)
}

// The same, where it is the text of a day.
fn read_date(alloc: Global, r: &mut FieldReader) -> Result<TextVal, ReadError>
    ensures { Gives (λ t. (t, r.new)) result (date_at r.old) }
{
    let text = match read_text(alloc, r) {
        Ok(text) => text,
        Err(e) => return Err(e),
    };
    if Day::read(text.bytes()).is_none() {
        return Err(ReadError::Malformed);
    }
    Ok(text)
}

// A value of the type.
#[tactic(auto, unfolding(crate::specs::Reading::typed_at))]
fn read_typed(alloc: Global, ty: ColType, r: &mut FieldReader) -> Result<Val, ReadError>
    ensures { Gives (λ v. (v, r.new)) result (typed_at ty r.old) }
{
    let Some(tag) = r.take_u8() else {
        return Err(ReadError::Malformed);
    };
    match (tag, ty) {
        (0, _) => Ok(Val::Null),
        (1, ColType::Int) | (1, ColType::Decimal) => match r.take_i64() {
            Some(n) => Ok(Val::Int(n)),
            None => Err(ReadError::Malformed),
        },
        (2, ColType::Text) => match read_text(alloc, r) {
            Ok(text) => Ok(Val::Text(text)),
            Err(e) => Err(e),
        },
        (2, ColType::Date) => match read_date(alloc, r) {
            Ok(text) => Ok(Val::Text(text)),
            Err(e) => Err(e),
        },
        _ => Err(ReadError::Malformed),
    }
}

// Whether the value may stand where there may be no null.
fn stands(no_null: bool, v: &Val) -> bool
    ensures { result ≡ may_stand no_null v.now }
{
    match v {
        Val::Null => !no_null,
        Val::Int(_) => true,
        Val::Text(_) => true,
    }
}

impl Reads<Val> for Column {
    ghost use Rattle.step_fields.specs.Reading.{val_at};

    ghost at = { val_at };

    fn read(&self, alloc: Global, r: &mut FieldReader) -> Result<Val, ReadError> {
        let v = match read_typed(alloc, self.ty, r) {
            Ok(v) => v,
            Err(e) => return Err(e),
        };
        if !stands(self.no_null, &v) {
            return Err(ReadError::Malformed);
        }
        Ok(v)
    }
}

/// Puts a value.
pub fn put_val(out: &mut Vec<u8>, v: &Val) -> Result<(), AllocError>
    ensures { OnOk result (out.new.items ≡ out.old.items ++ val_text v.now) }
{
    match v {
        Val::Null => put_u8(out, NULL),
        Val::Int(n) => {
            put_u8(out, NUMBER)?;
            put_i64(out, *n)
        }
        Val::Text(text) => {
            let bytes = text.bytes();
            put_u8(out, TEXT)?;
            put_u8(out, bytes.len() as u8)?;
            put_bytes(out, bytes)
        }
    }
}
