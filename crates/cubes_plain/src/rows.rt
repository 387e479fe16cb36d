// The rows of the file of `fold`.

ghost use Rattle.std.specs.Prelude.{◌≡◌, Err, IfOk};
ghost use Rattle.cubes_plain.specs.Tables.{IsFoldFault, IsFoldTable, column, fold_form};
ghost use Rattle.table_reader.specs.declared.fault.TableFault.{TableFault};

use cube_val::{ColDesc, ColType, Items, NameText, Row, TableForm};
use std::alloc::{AllocError, Global};
use table_reader::{TableFault, TableRefusal};

// A column of the form.
fn column(alloc: Global, name: &[u8], ty: ColType) -> Result<ColDesc, AllocError>
    ensures { IfOk result (λ c. c ≡ column name.now ty) }
{
    let name = NameText::new(alloc, name)?;
    Ok(ColDesc { name, ty })
}

// The columns of the file: two texts, and a number that is not null.
fn fold_form(alloc: Global) -> Result<TableForm, AllocError>
    ensures { IfOk result (λ form. form ≡ fold_form) }
{
    let first = column(alloc, b"D1", ColType::Text)?;
    let second = column(alloc, b"D2", ColType::Text)?;
    let number = column(alloc, b"M", ColType::Int)?;
    let mut cols = Items::new(alloc);
    cols.push(first)?;
    cols.push(second)?;
    cols.push(number)?;
    let no_null = Items::from_slice(alloc, &[false, false, true])?;
    Ok(TableForm {
        cols,
        no_null,
        key: Items::new(alloc),
    })
}

/// The rows of a table file with the columns `D1`, `D2` and `M`.
pub fn read_rows(alloc: Global, bytes: &[u8]) -> Result<Vec<Row>, TableRefusal>
    ensures ok { IfOk result (λ rows. IsFoldTable bytes.now rows.items) }
    ensures fault { (f : TableFault) → result ≡ Err (TableRefusal.Fault f) → IsFoldFault bytes.now f }
{
    let Ok(form) = fold_form(alloc) else {
        return Err(TableRefusal::Memory);
    };
    table_reader::read_rows(alloc, &form, bytes)
}
