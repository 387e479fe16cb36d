// Days, ranges of days and lists of ranges.

use crate::words::sides;
use check_lines::{Words, known, parsed, unknown_line};
use range_list::{Cover, Day, Range, RangeList};
use std::alloc::Global;
use std::io;
use std::io::Write;

// The day that a word writes.
fn day_in(word: &str) -> io::Result<Day> {
    known(Day::read(word.as_bytes()))
}

// The days that stand on both sides of a colon, as bounds of a range, which may be none.
fn bounds_in(word: &str) -> io::Result<Option<Range>> {
    let (start, end) = sides(word, ':')?;
    Ok(Range::new(day_in(start)?, day_in(end)?))
}

// The range between the days on both sides of a colon.
fn range_in(word: &str) -> io::Result<Range> {
    known(bounds_in(word)?)
}

fn put_range<W: Write>(range: Range, out: &mut W) -> io::Result<()> {
    out.write_all(&range.start().text())?;
    out.write_all(b":")?;
    out.write_all(&range.end().text())
}

/// `day BYTES`: the number of the day that the bytes are, and its text, or `none`.
pub fn answer_day<W: Write>(bytes: &str, out: &mut W) -> io::Result<()> {
    let Some(day) = Day::read(bytes.as_bytes()) else {
        return out.write_all(b"none");
    };
    write!(out, "{} ", day.number())?;
    out.write_all(&day.text())
}

/// `later DAY DAY`: how the first is ordered to the second, and the later one.
pub fn answer_later<W: Write>(words: &mut Words<'_>, out: &mut W) -> io::Result<()> {
    let first = day_in(words.next()?)?;
    let second = day_in(words.next()?)?;
    write!(out, "{:?} ", first.cmp(&second))?;
    out.write_all(&first.max(second).text())
}

/// `range START:END DAY ..`: the range and whether it holds each day, or `none` where these bound no range.
pub fn answer_range<W: Write>(words: &mut Words<'_>, out: &mut W) -> io::Result<()> {
    match bounds_in(words.next()?)? {
        Some(range) => put_held(range, words.rest(), out),
        None => out.write_all(b"none"),
    }
}

// Writes the range, and for each day whether the range holds it.
fn put_held<W: Write>(range: Range, days: &str, out: &mut W) -> io::Result<()> {
    put_range(range, out)?;
    for word in days.split(' ') {
        write!(out, " {}", range.holds(day_in(word)?))?;
    }
    Ok(())
}

/// `overlap START:END START:END`: whether the ranges have a common day.
pub fn answer_overlap<W: Write>(words: &mut Words<'_>, out: &mut W) -> io::Result<()> {
    let first = range_in(words.next()?)?;
    let second = range_in(words.next()?)?;
    write!(out, "{}", first.overlaps(&second))
}

/// `ranges WORD ..`: what a list of ranges, at first empty, answers to each word, one behind another: `put=START:END` the place or
/// `taken`, `find=START:END` the first place that overlaps or `none`, `cover=START:END` how the range is covered, `get=N` and
/// `remove=N` the range at the place, `len` the length.
pub fn answer_ranges<W: Write>(alloc: Global, words: &str, out: &mut W) -> io::Result<()> {
    let mut ranges = RangeList::new(alloc);
    answer_words(&mut ranges, words, out)
}

// Answers each word to the list.
fn answer_words<W: Write>(ranges: &mut RangeList, words: &str, out: &mut W) -> io::Result<()> {
    let mut between: &[u8] = b"";
    for word in words.split(' ') {
        out.write_all(between)?;
        answer_word(ranges, word, out)?;
        between = b", ";
    }
    Ok(())
}

// Answers a word to the list.
fn answer_word<W: Write>(ranges: &mut RangeList, word: &str, out: &mut W) -> io::Result<()> {
    let (call, bounds) = word.split_once('=').unwrap_or((word, ""));
    match call {
        "put" => answer_put(ranges, range_in(bounds)?, out),
        "remove" => answer_remove(ranges, parsed(bounds)?, out),
        "find" => put_place(ranges.find_overlap(&range_in(bounds)?), out),
        "cover" => put_cover(ranges.covering(&range_in(bounds)?), out),
        "get" => answer_get(ranges, parsed(bounds)?, out),
        "len" => write!(out, "{}", ranges.len()),
        _ => Err(unknown_line()),
    }
}

fn answer_put<W: Write>(ranges: &mut RangeList, range: Range, out: &mut W) -> io::Result<()> {
    match ranges.find_overlap(&range) {
        None => {
            let place = ranges.insert(range)?;
            write!(out, "{place}")
        }
        Some(_) => out.write_all(b"taken"),
    }
}

fn answer_remove<W: Write>(ranges: &mut RangeList, place: usize, out: &mut W) -> io::Result<()> {
    if place < ranges.len() {
        put_range(ranges.remove(place), out)
    } else {
        Err(unknown_line())
    }
}

fn answer_get<W: Write>(ranges: &RangeList, place: usize, out: &mut W) -> io::Result<()> {
    if place < ranges.len() {
        put_range(ranges.get(place), out)
    } else {
        Err(unknown_line())
    }
}

fn put_place<W: Write>(place: Option<usize>, out: &mut W) -> io::Result<()> {
    match place {
        Some(place) => write!(out, "{place}"),
        None => out.write_all(b"none"),
    }
}

fn put_cover<W: Write>(cover: Cover, out: &mut W) -> io::Result<()> {
    match cover {
        Cover::NotOnBounds => out.write_all(b"NotOnBounds"),
        Cover::Hole(day) => {
            out.write_all(b"Hole ")?;
            out.write_all(&day.text())
        }
        Cover::Parts { first, count } => write!(out, "Parts {first} {count}"),
    }
}
