// Numbers, columns, terms and aggregates from their words.

use agg_group::Mask;
use check_lines::unknown_line;
use cube_val::ColType;
use plain_answer::{Agg, AggKind, OrderKey, Term};
use std::io;

/// A number.
pub(crate) fn number_of(word: &str) -> io::Result<i128> {
    match word.parse::<i128>() {
        Ok(number) => Ok(number),
        Err(_) => Err(unknown_line()),
    }
}

/// A set of columns.
pub(crate) fn mask_of(word: &str) -> io::Result<Mask> {
    match word.parse::<u64>() {
        Ok(bits) => Ok(Mask(bits)),
        Err(_) => Err(unknown_line()),
    }
}

/// The place of a column.
pub(crate) fn column_of(word: &str) -> io::Result<usize> {
    match word {
        "REGION" => Ok(0),
        "SELLER" => Ok(1),
        "PRICE" => Ok(2),
        "DAY" => Ok(3),
        _ => Err(unknown_line()),
    }
}

// The type of the column at a place.
fn type_of(column: usize) -> ColType {
    match column {
        1 => ColType::Int,
        2 => ColType::Decimal,
        3 => ColType::Date,
        _ => ColType::Text,
    }
}

/// A column, or an aggregate by its number.
pub(crate) fn term_of(word: &str) -> io::Result<Term> {
    if let Some(number) = word.strip_prefix('#') {
        return match number.parse::<usize>() {
            Ok(number) => Ok(Term::Agg(number)),
            Err(_) => Err(unknown_line()),
        };
    }
    let column = column_of(word)?;
    Ok(Term::Col(column, type_of(column)))
}

// The kind of an aggregate of a column.
fn kind_of(word: &str) -> io::Result<AggKind> {
    match word {
        "known" => Ok(AggKind::Known),
        "sum" => Ok(AggKind::Sum),
        "min" => Ok(AggKind::Min),
        "max" => Ok(AggKind::Max),
        "distinct" => Ok(AggKind::Distinct),
        "average" => Ok(AggKind::Avg),
        _ => Err(unknown_line()),
    }
}

/// An aggregate.
pub(crate) fn aggregate_of(word: &str) -> io::Result<Agg> {
    let Some((kind, column)) = word.split_once(':') else {
        return if word == "count" {
            Ok(Agg {
                kind: AggKind::Count,
                column: None,
                ty: ColType::Int,
            })
        } else {
            Err(unknown_line())
        };
    };
    let kind = kind_of(kind)?;
    let column = column_of(column)?;
    Ok(Agg {
        kind,
        column: Some(column),
        ty: type_of(column),
    })
}

/// A key of the order.
pub(crate) fn order_key_of(word: &str) -> io::Result<OrderKey> {
    let Some((way, term)) = word.split_once(':') else {
        return Err(unknown_line());
    };
    let falling = match way {
        "rising" => false,
        "falling" => true,
        _ => return Err(unknown_line()),
    };
    let term = term_of(term)?;
    Ok(OrderKey { term, falling })
}
