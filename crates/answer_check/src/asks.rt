// Asks from their parts.

use crate::conditions::condition_of;
use crate::terms::{aggregate_of, column_of, order_key_of, term_of};
use check_lines::unknown_line;
use cube_val::{Items, NameText};
use plain_answer::{Agg, Ask, Cond, OrderKey, Out};
use std::alloc::Global;
use std::io;

// The ask of no part.
fn no_part(alloc: Global) -> Ask {
    Ask {
        filter: Cond::True,
        group: Items::new(alloc),
        aggs: Items::new(alloc),
        outs: Items::new(alloc),
        having: Cond::True,
        order: Items::new(alloc),
        limit: None,
    }
}

// Adds columns.
fn put_columns(columns: &mut Items<usize>, words: &str) -> io::Result<()> {
    for word in words.split(' ') {
        columns.push(column_of(word)?)?;
    }
    Ok(())
}

// Adds aggregates.
fn put_aggregates(aggs: &mut Items<Agg>, words: &str) -> io::Result<()> {
    for word in words.split(' ') {
        aggs.push(aggregate_of(word)?)?;
    }
    Ok(())
}

// Adds select items, whose names are their words.
fn put_outs(alloc: Global, outs: &mut Items<Out>, words: &str) -> io::Result<()> {
    for word in words.split(' ') {
        let term = term_of(word)?;
        let name = NameText::new(alloc, word.as_bytes())?;
        outs.push(Out { name, term })?;
    }
    Ok(())
}

// Adds keys of the order.
fn put_order(order: &mut Items<OrderKey>, words: &str) -> io::Result<()> {
    for word in words.split(' ') {
        order.push(order_key_of(word)?)?;
    }
    Ok(())
}

// Puts the most groups that are shown.
fn put_limit(limit: &mut Option<u32>, word: &str) -> io::Result<()> {
    match word.parse::<u32>() {
        Ok(most) => {
            *limit = Some(most);
            Ok(())
        }
        Err(_) => Err(unknown_line()),
    }
}

// Puts a condition.
fn put_condition(alloc: Global, condition: &mut Cond, words: &str) -> io::Result<()> {
    *condition = condition_of(alloc, words)?;
    Ok(())
}

// Puts a part in an ask.
fn put_part(alloc: Global, ask: &mut Ask, part: &str) -> io::Result<()> {
    let Some((name, words)) = part.split_once(' ') else {
        return Err(unknown_line());
    };
    match name {
        "where" => put_condition(alloc, &mut ask.filter, words),
        "group" => put_columns(&mut ask.group, words),
        "aggregates" => put_aggregates(&mut ask.aggs, words),
        "show" => put_outs(alloc, &mut ask.outs, words),
        "having" => put_condition(alloc, &mut ask.having, words),
        "order" => put_order(&mut ask.order, words),
        "limit" => put_limit(&mut ask.limit, words),
        _ => Err(unknown_line()),
    }
}

/// The ask of parts with a semicolon and a space between two.
pub(crate) fn ask_of(alloc: Global, parts: &str) -> io::Result<Ask> {
    let mut ask = no_part(alloc);
    for part in parts.split("; ") {
        put_part(alloc, &mut ask, part)?;
    }
    Ok(ask)
}

/// Aggregates with a space between two.
pub(crate) fn forms_of(alloc: Global, words: &str) -> io::Result<Items<Agg>> {
    let mut forms = Items::new(alloc);
    put_aggregates(&mut forms, words)?;
    Ok(forms)
}
