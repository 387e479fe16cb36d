//! What `bench/table.sh` times: reads a table of six columns, of which the first three are the key, and tells how many rows
//! it has, or its first fault. It is no part of the product.
#![tactic(auto)]

ghost use Rattle.std.specs.Prelude.{◌≡◌, ◌<◌, All, IfOk, length};

use cube_val::{ColDesc, ColType, Items, NameText, TableForm};
use std::alloc::{AllocError, Global};
use std::{env, fs, io};
use table_reader::{TableRefusal, read_table};

// A column of the form.
fn column(alloc: Global, name: &[u8], ty: ColType) -> Result<ColDesc, AllocError> {
    let name = NameText::new(alloc, name)?;
    Ok(ColDesc { name, ty })
}

// The columns of the form.
fn columns(alloc: Global) -> Result<Items<ColDesc>, AllocError>
    ensures { IfOk result (λ cols. length cols ≡ 6) }
{
    let day = column(alloc, b"DT", ColType::Date)?;
    let seller = column(alloc, b"SELLER", ColType::Text)?;
    let buyer = column(alloc, b"BUYER", ColType::Text)?;
    let price = column(alloc, b"PRICE", ColType::Decimal)?;
    let count = column(alloc, b"COUNT", ColType::Int)?;
    let note = column(alloc, b"NOTE", ColType::Text)?;
    let mut cols = Items::new(alloc);
    cols.push(day)?;
    cols.push(seller)?;
    cols.push(buyer)?;
    cols.push(price)?;
    cols.push(count)?;
    cols.push(note)?;
    Ok(cols)
}

// The form: neither number is null, and the day, the seller and the buyer are the key.
fn form(alloc: Global) -> Result<TableForm, AllocError>
    ensures no_null { IfOk result (λ form. length form.no_null ≡ length form.cols) }
    ensures key { IfOk result (λ form. All (λ place. place < length form.cols) form.key) }
{
    let cols = columns(alloc)?;
    let no_null = Items::from_slice(alloc, &[false, false, false, true, true, false])?;
    let key = Items::from_slice(alloc, &[0usize, 1usize, 2usize])?;
    Ok(TableForm { cols, no_null, key })
}

fn main(rt: HostRuntime) -> io::Result<()> {
    let form = form(rt.alloc())?;
    let mut words = env::args(&rt)?;
    let _program = words.next();
    let Some(path) = words.next() else {
        return println!(rt; "usage: table_bench PATH");
    };
    let bytes = fs::read(&rt, path.as_str())?;
    match read_table(rt.alloc(), &form, bytes.as_slice()) {
        Ok(table) => {
            let rows = table.len();
            println!(rt; "{rows} rows")
        }
        Err(TableRefusal::Fault(fault)) => println!(rt; "{fault:?}"),
        Err(TableRefusal::Memory) => println!(rt; "no memory"),
    }
}
