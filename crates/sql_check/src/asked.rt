// What queries ask of a cube.

use crate::questions::Question;
use plain_answer::{Agg, Ask, Out};
use query_bind::Bound;
use std::alloc::Global;
use std::io;
use std::io::Write;

fn put_group<W: Write>(columns: &[usize], out: &mut W) -> io::Result<()> {
    out.write_all(b" group")?;
    for column in columns {
        write!(out, " {column}")?;
    }
    Ok(())
}

fn put_aggregate<W: Write>(agg: &Agg, out: &mut W) -> io::Result<()> {
    let kind = agg.kind;
    match agg.column {
        Some(column) => write!(out, " {kind:?} {column}"),
        None => write!(out, " {kind:?} -"),
    }
}

fn put_aggregates<W: Write>(aggs: &[Agg], out: &mut W) -> io::Result<()> {
    out.write_all(b" aggregates")?;
    for agg in aggs {
        put_aggregate(agg, out)?;
    }
    Ok(())
}

fn put_names<W: Write>(outs: &[Out], out: &mut W) -> io::Result<()> {
    out.write_all(b" names")?;
    for shown in outs {
        out.write_all(b" ")?;
        out.write_all(shown.name.bytes())?;
    }
    out.write_all(b"\n")
}

fn put_ask<W: Write>(ask: &Ask, out: &mut W) -> io::Result<()> {
    put_group(ask.group.as_slice(), out)?;
    put_aggregates(ask.aggs.as_slice(), out)?;
    write!(out, " keys {}", ask.order.len())?;
    put_names(ask.outs.as_slice(), out)
}

/// Asks for what is asked of the joined rows, and the rowkey columns that it needs.
#[derive(Drop)]
pub struct Asked;

impl Question<Bound> for Asked {
    fn put<W: Write>(&self, _alloc: Global, of: &Bound, out: &mut W) -> io::Result<()> {
        write!(out, "needed {}", of.needed.0)?;
        put_ask(&of.ask, out)
    }
}
