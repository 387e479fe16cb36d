// What is answered.

ghost use Rattle.std.specs.Prelude.{◌≡◌, IfOk};

use cube_val::{Items, NameText, Row, TextVal};
use std::alloc::{AllocError, Global};

/// A value of an answer.
#[derive(Debug, Drop, PartialEq, Eq)]
pub enum OutVal {
    /// No value.
    Null,
    /// A whole number, printed without decimals.
    Whole(i128),
    /// A number in units of 1/10000, printed with four decimals.
    Units(i128),
    /// A text or a date.
    Text(TextVal),
}

/// A list of values of an answer.
pub type AnswerRow = Items<OutVal>;

/// A table of answers: the names of its columns, and its rows in order.
#[derive(Debug, Drop, PartialEq, Eq)]
pub struct AnswerTable {
    /// The name of each select item.
    pub names: Items<NameText>,
    /// The values of the select items, group by group.
    pub rows: Items<AnswerRow>,
}

/// The key of a group, and what is worked out of its rows.
#[derive(Debug, Drop, PartialEq, Eq)]
pub struct PlainRow {
    /// The values of the group columns.
    pub key: Row,
    /// The value of each aggregate.
    pub values: AnswerRow,
}

impl OutVal {
    /// An equal value.
    pub fn copy(&self) -> Result<OutVal, AllocError>
        ensures { IfOk result (λ v. v ≡ self.now) }
    {
        match self {
            OutVal::Null => Ok(OutVal::Null),
            OutVal::Whole(number) => Ok(OutVal::Whole(*number)),
            OutVal::Units(number) => Ok(OutVal::Units(*number)),
            OutVal::Text(text) => {
                let text = text.copy()?;
                Ok(OutVal::Text(text))
            }
        }
    }
}

// A copy of names.
fn copy_names(alloc: Global, names: &[NameText]) -> Result<Items<NameText>, AllocError>
    ensures { IfOk result (λ copies. copies ≡ names.now) }
{
    let mut copies = Items::new(alloc);
    for name in names {
        let name = name.copy()?;
        copies.push(name)?;
    }
    Ok(copies)
}

// A copy of a row.
fn copy_row(alloc: Global, row: &[OutVal]) -> Result<AnswerRow, AllocError>
    ensures { IfOk result (λ copies. copies ≡ row.now) }
{
    let mut copies = Items::new(alloc);
    for v in row {
        let v = v.copy()?;
        copies.push(v)?;
    }
    Ok(copies)
}

// A copy of rows.
fn copy_rows(alloc: Global, rows: &[AnswerRow]) -> Result<Items<AnswerRow>, AllocError>
    ensures { IfOk result (λ copies. copies ≡ rows.now) }
{
    let mut copies = Items::new(alloc);
    for row in rows {
        let row = copy_row(alloc, row.as_slice())?;
        copies.push(row)?;
    }
    Ok(copies)
}

impl AnswerTable {
    /// An equal table.
    pub fn copy(&self, alloc: Global) -> Result<AnswerTable, AllocError>
        ensures { IfOk result (λ table. table ≡ self.now) }
    {
        let names = copy_names(alloc, self.names.as_slice())?;
        let rows = copy_rows(alloc, self.rows.as_slice())?;
        Ok(AnswerTable { names, rows })
    }
}
