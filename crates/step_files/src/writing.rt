// Bodies written.

ghost use Rattle.std.specs.Prelude.{◌≡◌, ◌∷◌, ◌++◌, ◌<◌, ◌^◌, All, IfOk, OnOk, length};
ghost use Rattle.byte_frame.specs.Spelling.{list_text};
ghost use Rattle.step_fields.specs.Spelling.{range_text, rows_text};
ghost use Rattle.cube_fields.specs.Cells.{IsShortTable, id_text, table_text, tables_text};
ghost use Rattle.cube_fields.specs.Dicts.{dicts_text};
ghost use Rattle.step_codec.specs.Seals.{FitsSeal, seal_text};
ghost use Rattle.step_codec.specs.Bodies.{layer_text, loaded_text};
ghost use Rattle.step_files.specs.Products.{IsShortProduct, product_body};
ghost use Rattle.step_files.specs.Tasks.{FitsTask, task_body, desc_text};

use crate::product::Product;
use crate::task::Task;
use byte_frame::{put_bytes, put_u8, put_u32};
use cell_store::{CellTable, Steps};
use cube_fields::{put_dicts, put_table, put_tables};
use cube_val::TableSet;
use dim_dictionary::DictSet;
use plain_answer::FlatRows;
use range_list::Range;
use std::alloc::{AllocError, Global};
use std::marker::Brand;
use std::sync::ledger::{Blank, Ledger};
use step_codec::{SealBody, put_loaded, put_seal};
use step_fields::{put_range, put_rows};

// Puts the descriptor's bytes behind their number.
fn put_desc(out: &mut Vec<u8>, desc: &[u8]) -> Result<(), AllocError>
    requires { length desc.now < 2 ^ 32 }
    ensures { OnOk result (out.new.items ≡ out.old.items ++ desc_text desc.now) }
{
    put_u32(out, desc.len() as u32)?;
    put_bytes(out, desc)
}

// Puts what a flat step works on.
fn put_flat(
    out: &mut Vec<u8>,
    desc: &[u8],
    range: &Range,
    tables: &TableSet,
) -> Result<(), AllocError>
    requires desc { length desc.now < 2 ^ 32 }
    requires tables { All (λ rows. length rows < 2 ^ 32) tables.now }
    ensures { OnOk result (out.new.items ≡ out.old.items ++ 1 ∷ (desc_text desc.now ++ (range_text range.now ++ loaded_text tables.now))) }
{
    put_u8(out, 1)?;
    put_desc(out, desc)?;
    put_range(out, range)?;
    put_loaded(out, tables)
}

// Puts what a dict step works on.
fn put_dict_work(out: &mut Vec<u8>, desc: &[u8], flat: &FlatRows) -> Result<(), AllocError>
    requires desc { length desc.now < 2 ^ 32 }
    requires flat { length flat.now < 2 ^ 32 }
    ensures { OnOk result (out.new.items ≡ out.old.items ++ 2 ∷ (desc_text desc.now ++ rows_text flat.now)) }
{
    put_u8(out, 2)?;
    put_desc(out, desc)?;
    put_rows(out, flat.rows())
}

// Puts what a base step works on.
fn put_base(
    out: &mut Vec<u8>,
    desc: &[u8],
    flat: &FlatRows,
    dicts: &DictSet,
) -> Result<(), AllocError>
    requires desc { length desc.now < 2 ^ 32 }
    requires flat { length flat.now < 2 ^ 32 }
    requires dicts { length dicts.now < 2 ^ 32 }
    ensures { OnOk result (out.new.items ≡ out.old.items ++ 3 ∷ (desc_text desc.now ++ (rows_text flat.now ++ dicts_text dicts.now))) }
{
    put_u8(out, 3)?;
    put_desc(out, desc)?;
    put_rows(out, flat.rows())?;
    put_dicts(out, dicts)
}

// Puts the sizes of dictionaries behind their number.
fn put_sizes(out: &mut Vec<u8>, sizes: &[u32]) -> Result<(), AllocError>
    requires { length sizes.now < 2 ^ 32 }
    ensures { OnOk result (out.new.items ≡ out.old.items ++ list_text id_text sizes.now) }
{
    put_u32(out, sizes.len() as u32)?;
    for size in sizes {
        put_u32(out, *size)?;
    }
    Ok(())
}

// Puts the tables behind their number, whose rows are counted on a blank.
fn put_counted<L: Ledger>(
    out: &mut Vec<u8>,
    tables: &[CellTable],
    blank: Blank,
) -> Result<(), AllocError>
    requires blank { (blank.name ≡ L.name) × (blank.parts ≡ L.parts) × (0 < L.parts) }
    requires few { length tables.now < 2 ^ 32 }
    requires tables { All IsShortTable tables.now }
    ensures { OnOk result (out.new.items ≡ out.old.items ++ tables_text tables.now) }
{
    let mut steps = Steps::<L>::new(blank);
    put_tables(out, tables, &mut steps)
}

// Puts what a layer step works on.
fn put_layer(
    out: &mut Vec<u8>,
    desc: &[u8],
    dims: u32,
    sizes: &[u32],
    parents: &[CellTable],
) -> Result<(), AllocError>
    requires desc { length desc.now < 2 ^ 32 }
    requires sizes { length sizes.now < 2 ^ 32 }
    requires few { length parents.now < 2 ^ 32 }
    requires parents { All IsShortTable parents.now }
    ensures { OnOk result (out.new.items ≡ out.old.items ++ 4 ∷ (desc_text desc.now ++ layer_text (dims, (sizes.now, parents.now)))) }
{
    put_u8(out, 4)?;
    put_desc(out, desc)?;
    put_u32(out, dims)?;
    put_sizes(out, sizes)?;
    put_counted::<Brand>(out, parents, Blank::new(1))
}

// Puts what a seal says.
fn put_seal_work(out: &mut Vec<u8>, seal: &SealBody) -> Result<(), AllocError>
    requires { FitsSeal seal.now }
    ensures { OnOk result (out.new.items ≡ out.old.items ++ 5 ∷ seal_text seal.now) }
{
    put_u8(out, 5)?;
    put_seal(out, seal)
}

// Puts the body of a task.
fn put_body(out: &mut Vec<u8>, task: &Task) -> Result<(), AllocError>
    requires { FitsTask task.now }
    ensures { OnOk result (out.new.items ≡ out.old.items ++ task_body task.now) }
{
    match task {
        Task::Flat {
            desc,
            range,
            tables,
        } => put_flat(out, desc.as_slice(), range, tables),
        Task::Dict { desc, flat } => put_dict_work(out, desc.as_slice(), flat),
        Task::Base { desc, flat, dicts } => put_base(out, desc.as_slice(), flat, dicts),
        Task::Layer {
            desc,
            dims,
            sizes,
            parents,
        } => put_layer(
            out,
            desc.as_slice(),
            *dims,
            sizes.as_slice(),
            parents.as_slice(),
        ),
        Task::Seal(seal) => put_seal_work(out, seal),
    }
}

/// The body of a task.
pub(crate) fn task_body(alloc: Global, task: &Task) -> Result<Vec<u8>, AllocError>
    requires { FitsTask task.now }
    ensures { IfOk result (λ v. v.items ≡ task_body task.now) }
{
    let mut body = Vec::new(alloc);
    put_body(&mut body, task)?;
    Ok(body)
}

// Puts the table, whose rows are counted on a blank.
fn put_base_table<L: Ledger>(
    out: &mut Vec<u8>,
    table: &CellTable,
    blank: Blank,
) -> Result<(), AllocError>
    requires blank { (blank.name ≡ L.name) × (blank.parts ≡ L.parts) × (0 < L.parts) }
    requires table { IsShortTable table.now }
    ensures { OnOk result (out.new.items ≡ out.old.items ++ table_text table.now) }
{
    let mut steps = Steps::<L>::new(blank);
    put_table(out, table, &mut steps)
}

// Puts the body of a product.
fn put_product(out: &mut Vec<u8>, product: &Product) -> Result<(), AllocError>
    requires { IsShortProduct product.now }
    ensures { OnOk result (out.new.items ≡ out.old.items ++ product_body product.now) }
{
    match product {
        Product::Flat(flat) => put_rows(out, flat.rows()),
        Product::Dicts(dicts) => put_dicts(out, dicts),
        Product::Base(table) => put_base_table::<Brand>(out, table, Blank::new(1)),
        Product::Cells(tables) => put_counted::<Brand>(out, tables.as_slice(), Blank::new(1)),
        Product::Seal(seal) => put_seal(out, seal),
    }
}

/// The body of a product.
pub(crate) fn product_body(alloc: Global, product: &Product) -> Result<Vec<u8>, AllocError>
    requires { IsShortProduct product.now }
    ensures { IfOk result (λ v. v.items ≡ product_body product.now) }
{
    let mut body = Vec::new(alloc);
    put_product(&mut body, product)?;
    Ok(body)
}
