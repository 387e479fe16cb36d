// The parts of queries.

use crate::queries::query_of;
use crate::questions::{Question, put_answer};
use cube_val::NameText;
use sql_reader::{Item, Join, Name, Query, SqlKey};
use std::alloc::Global;
use std::io;
use std::io::Write;

fn put_name<W: Write>(name: &Name, out: &mut W) -> io::Result<()> {
    out.write_all(b" ")?;
    out.write_all(name.text.bytes())?;
    write!(out, " {}", name.place)
}

fn put_alias<W: Write>(alias: &Option<NameText>, out: &mut W) -> io::Result<()> {
    out.write_all(b" ")?;
    match alias {
        Some(name) => out.write_all(name.bytes()),
        None => out.write_all(b"-"),
    }
}

fn put_items<W: Write>(items: &[Item], out: &mut W) -> io::Result<()> {
    out.write_all(b" items")?;
    for item in items {
        put_alias(&item.alias, out)?;
    }
    Ok(())
}

fn put_join<W: Write>(join: &Join, out: &mut W) -> io::Result<()> {
    put_name(&join.table, out)?;
    write!(out, " {}", join.pairs.len())
}

fn put_joins<W: Write>(joins: &[Join], out: &mut W) -> io::Result<()> {
    out.write_all(b" joins")?;
    for join in joins {
        put_join(join, out)?;
    }
    Ok(())
}

fn put_order<W: Write>(keys: &[SqlKey], out: &mut W) -> io::Result<()> {
    out.write_all(b" order")?;
    for key in keys {
        let direction = if key.falling { "falling" } else { "rising" };
        write!(out, " {direction}")?;
    }
    Ok(())
}

fn put_limit<W: Write>(limit: Option<u32>, out: &mut W) -> io::Result<()> {
    match limit {
        Some(rows) => writeln!(out, " limit {rows}"),
        None => out.write_all(b" limit -\n"),
    }
}

fn put_conditions<W: Write>(query: &Query, out: &mut W) -> io::Result<()> {
    let (filter, having) = (query.filter.is_some(), query.having.is_some());
    let columns = query.group.len();
    write!(out, " where {filter} group {columns} having {having}")
}

// Asks for the parts.
#[derive(Drop)]
struct Parts;

impl Question<Query> for Parts {
    fn put<W: Write>(&self, _alloc: Global, of: &Query, out: &mut W) -> io::Result<()> {
        out.write_all(b"table")?;
        put_name(&of.table, out)?;
        put_items(of.items.as_slice(), out)?;
        put_joins(of.joins.as_slice(), out)?;
        put_conditions(of, out)?;
        put_order(of.order.as_slice(), out)?;
        put_limit(of.limit, out)
    }
}

pub fn answer_tree<W: Write>(alloc: Global, text: &[u8], out: &mut W) -> io::Result<()> {
    put_answer(alloc, query_of(alloc, text), &Parts, out)
}
