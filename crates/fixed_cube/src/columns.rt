// The columns of the fixed cube.

ghost use Rattle.std.specs.Prelude.{◌≡◌, IfOk};
ghost use Rattle.fixed_cube.specs.Form.{fact_form};

use cube_val::{ColDesc, ColType, Items, NameText, TableForm};
use std::alloc::{AllocError, Global};
use step_fields::Column;

const DATE: Column = Column {
    ty: ColType::Date,
    no_null: false,
};

const TEXT: Column = Column {
    ty: ColType::Text,
    no_null: false,
};

const NUMBER: Column = Column {
    ty: ColType::Int,
    no_null: true,
};

/// The columns of the fact table F: DT, D1, D2 and M.
pub const FACT_COLUMNS: [Column; 4] = [DATE, TEXT, TEXT, NUMBER];

/// The columns of a joined row: D1, D2 and M.
pub const JOINED_COLUMNS: [Column; 3] = [TEXT, TEXT, NUMBER];

/// The columns of a key of the base cuboid: D1 and D2.
pub const KEY_COLUMNS: [Column; 2] = [TEXT, TEXT];

/// The most rows of a table, of a task and of a product.
pub const ROW_LIMIT: u32 = 200_000;

// A column with its name.
fn named(alloc: Global, name: &[u8], column: Column) -> Result<ColDesc, AllocError>
    ensures { IfOk result (λ col. col ≡ record { name = name.now; ty = column.ty }) }
{
    let name = NameText::new(alloc, name)?;
    Ok(ColDesc {
        name,
        ty: column.ty,
    })
}

/// What a file of F has to have: the columns DT, D1, D2 and M, of which M has no null, and no key.
pub fn fact_form(alloc: Global) -> Result<TableForm, AllocError>
    ensures { IfOk result (λ form. form ≡ fact_form) }
{
    let mut cols = Items::new(alloc);
    cols.push(named(alloc, b"DT", DATE)?)?;
    cols.push(named(alloc, b"D1", TEXT)?)?;
    cols.push(named(alloc, b"D2", TEXT)?)?;
    cols.push(named(alloc, b"M", NUMBER)?)?;
    let no_null = Items::from_slice(alloc, &[false, false, false, true])?;
    Ok(TableForm {
        cols,
        no_null,
        key: Items::new(alloc),
    })
}
