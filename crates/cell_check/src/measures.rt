// Extremes and sets of ids.

ghost use Rattle.std.specs.Prelude.{◌≡◌, IfOk};

use check_lines::{Words, known, parsed, unknown_line};
use measure_laws::{IdSet, Max, Measure, Min};
use std::alloc::{AllocError, Global};
use std::io;
use std::io::Write;

// The most items of a measure here.
const MOST: u64 = 1000;

// What a word does to an extreme.
#[derive(Clone, Copy)]
enum Change {
    Add(i64),
    Merge(u64, i64),
}

// What a word says.
fn change_of(word: &str) -> io::Result<Change> {
    let (name, rest) = known(word.split_once(':'))?;
    if name == "add" {
        return Ok(Change::Add(parsed(rest)?));
    }
    let (items, value) = known(rest.split_once(':'))?;
    Ok(Change::Merge(parsed(items)?, parsed(value)?))
}

// Writes an extreme behind a space.
fn put_extreme<W: Write>(out: &mut W, value: Option<i64>) -> io::Result<()> {
    match value {
        Some(value) => write!(out, " {value}"),
        None => out.write_all(b" none"),
    }
}

// Changes a least item.
fn change_min(least: &mut Min, change: Change) -> io::Result<()> {
    if least.items() > MOST {
        return Err(unknown_line());
    }
    match change {
        Change::Add(item) => least.add(item)?,
        Change::Merge(items, value) => {
            if items > MOST {
                return Err(unknown_line());
            }
            least.merge(&Min::of(items, value))?
        }
    }
    Ok(())
}

// Changes a greatest item.
fn change_max(greatest: &mut Max, change: Change) -> io::Result<()> {
    if greatest.items() > MOST {
        return Err(unknown_line());
    }
    match change {
        Change::Add(item) => greatest.add(item)?,
        Change::Merge(items, value) => {
            if items > MOST {
                return Err(unknown_line());
            }
            greatest.merge(&Max::of(items, value))?
        }
    }
    Ok(())
}

// Changes the least item by each word, and writes it each time.
fn put_each_min<W: Write>(least: &mut Min, words: &str, out: &mut W) -> io::Result<()> {
    for word in words.split(' ') {
        change_min(least, change_of(word)?)?;
        put_extreme(out, least.value())?;
    }
    out.write_all(b"\n")
}

/// Writes the least item after each word.
pub(crate) fn answer_min<W: Write>(alloc: Global, words: Words<'_>, out: &mut W) -> io::Result<()> {
    let mut least = Min::zero(alloc);
    out.write_all(b"min")?;
    put_extreme(out, least.value())?;
    put_each_min(&mut least, words.rest(), out)
}

// Changes the greatest item by each word, and writes it each time.
fn put_each_max<W: Write>(greatest: &mut Max, words: &str, out: &mut W) -> io::Result<()> {
    for word in words.split(' ') {
        change_max(greatest, change_of(word)?)?;
        put_extreme(out, greatest.value())?;
    }
    out.write_all(b"\n")
}

/// Writes the greatest item after each word.
pub(crate) fn answer_max<W: Write>(alloc: Global, words: Words<'_>, out: &mut W) -> io::Result<()> {
    let mut greatest = Max::zero(alloc);
    out.write_all(b"max")?;
    put_extreme(out, greatest.value())?;
    put_each_max(&mut greatest, words.rest(), out)
}

// The set of three ids of five items.
fn five_items(alloc: Global) -> Result<IdSet, AllocError>
    ensures { IfOk result (λ set. set.items ≡ 5) }
{
    IdSet::of(alloc, 5, &[2, 4, 4_000_000_000])
}

// Adds an id.
fn add_id(set: &mut IdSet, word: &str) -> io::Result<()> {
    let id = parsed(word)?;
    if set.items() > MOST {
        return Err(unknown_line());
    }
    set.add(id)?;
    Ok(())
}

// Merges the set into that of five items.
fn merged(alloc: Global, set: &IdSet) -> io::Result<IdSet> {
    let mut whole = five_items(alloc)?;
    if set.items() > MOST {
        return Err(unknown_line());
    }
    whole.merge(set)?;
    Ok(whole)
}

// Adds ids.
fn add_ids(set: &mut IdSet, words: &str) -> io::Result<()> {
    for word in words.split(' ') {
        add_id(set, word)?;
    }
    Ok(())
}

// Writes how many items a set is of, and its ids.
fn put_set<W: Write>(set: &IdSet, out: &mut W) -> io::Result<()> {
    write!(out, "{}", set.items())?;
    for id in set.ids() {
        write!(out, " {id}")?;
    }
    out.write_all(b"\n")
}

/// Writes the set of the ids and of five items more.
pub(crate) fn answer_ids<W: Write>(alloc: Global, words: Words<'_>, out: &mut W) -> io::Result<()> {
    let mut set = IdSet::zero(alloc);
    add_ids(&mut set, words.rest())?;
    put_set(&merged(alloc, &set)?, out)
}
