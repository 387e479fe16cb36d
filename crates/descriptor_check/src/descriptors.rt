// The lines of descriptors.

use check_lines::{bytes_of, out_of_memory, unknown_line};
use cube_desc::{CubeDesc, CubeParts, DescFault, DescRefusal, read_desc};
use cube_val::TableForm;
use cuboid_lines::cuboids_text;
use std::alloc::Global;
use std::io;
use std::io::Write;

fn put_fault<W: Write>(fault: &DescFault, out: &mut W) -> io::Result<()> {
    let kind = fault.kind;
    write!(out, "{kind:?}")?;
    if !fault.place.bytes().is_empty() {
        out.write_all(b" ")?;
    }
    out.write_all(fault.place.bytes())?;
    out.write_all(b"\n")
}

pub fn answer_read<W: Write>(alloc: Global, bytes: &[u8], out: &mut W) -> io::Result<()> {
    match read_desc(alloc, bytes) {
        Ok(_) => out.write_all(b"ok\n"),
        Err(DescRefusal::Fault(fault)) => put_fault(&fault, out),
        Err(DescRefusal::Memory) => Err(out_of_memory()),
    }
}

pub fn answer_bytes<W: Write>(alloc: Global, digits: &[u8], out: &mut W) -> io::Result<()> {
    let bytes = bytes_of(alloc, digits)?;
    answer_read(alloc, bytes.as_slice(), out)
}

/// What the word asks of a descriptor without a fault.
pub fn answer_desc<W: Write>(alloc: Global, word: &str, text: &str, out: &mut W) -> io::Result<()> {
    match read_desc(alloc, text.as_bytes()) {
        Ok(desc) => put_desc(alloc, word, &desc, out),
        Err(DescRefusal::Fault(_)) => Err(unknown_line()),
        Err(DescRefusal::Memory) => Err(out_of_memory()),
    }
}

fn put_desc<W: Write>(alloc: Global, word: &str, desc: &CubeDesc, out: &mut W) -> io::Result<()> {
    match word {
        "source" => put_source(desc, out),
        "parts" => put_parts(desc.parts(), out),
        "wide" => put_wide(desc.parts(), out),
        "fact_form" => put_form_of(alloc, desc, 0, out),
        "lookup_form" => put_form_of(alloc, desc, 1, out),
        "sizes" => put_sizes(desc.parts(), out),
        "cuboids" => put_cuboids(alloc, desc, out),
        _ => Err(unknown_line()),
    }
}

fn put_source<W: Write>(desc: &CubeDesc, out: &mut W) -> io::Result<()> {
    out.write_all(desc.source())?;
    out.write_all(b"\n")
}

fn put_parts<W: Write>(parts: &CubeParts, out: &mut W) -> io::Result<()> {
    let (tables, measures, dimensions) = (
        parts.tables.len(),
        parts.measures.len(),
        parts.rowkey.len(),
    );
    let (derived, groups, cuboids) = (parts.derived.len(), parts.groups.len(), parts.masks.len());
    out.write_all(parts.name.bytes())?;
    write!(
        out,
        " tables {tables} measures {measures} dimensions {dimensions}"
    )?;
    writeln!(out, " derived {derived} groups {groups} cuboids {cuboids}")
}

fn put_wide<W: Write>(parts: &CubeParts, out: &mut W) -> io::Result<()> {
    out.write_all(b"wide")?;
    for column in parts.plan.wide.as_slice() {
        let (table, place) = (column.table, column.column);
        write!(out, " {table}.{place}")?;
    }
    out.write_all(b"\n")
}

fn put_form<W: Write>(form: &TableForm, out: &mut W) -> io::Result<()> {
    let columns = form.cols.len();
    write!(out, "columns {columns} no_null")?;
    for no_null in form.no_null.as_slice() {
        write!(out, " {no_null}")?;
    }
    out.write_all(b" key")?;
    for place in form.key.as_slice() {
        write!(out, " {place}")?;
    }
    out.write_all(b"\n")
}

fn put_form_of<W: Write>(
    alloc: Global,
    desc: &CubeDesc,
    table: usize,
    out: &mut W,
) -> io::Result<()> {
    let parts = desc.parts();
    if table >= parts.tables.len() {
        return Err(unknown_line());
    }
    let form = desc.form(alloc, table)?;
    put_form(&form, out)
}

fn put_sizes<W: Write>(parts: &CubeParts, out: &mut W) -> io::Result<()> {
    out.write_all(b"sizes")?;
    for mask in parts.masks.as_slice() {
        let (number, count) = (mask.0, mask.count());
        write!(out, " {number}:{count}")?;
    }
    out.write_all(b"\n")
}

fn put_cuboids<W: Write>(alloc: Global, desc: &CubeDesc, out: &mut W) -> io::Result<()> {
    let lines = cuboids_text(alloc, desc)?;
    out.write_all(lines.as_slice())
}
