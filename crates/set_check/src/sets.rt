// Calls on ready sets.

ghost use Rattle.std.specs.Prelude.{◌≡◌, ◌≤◌, ◌<◌, IfOk, IfSome, IsTrue, OnOk, filter, if◌then◌else◌, length, not, true};
ghost use Rattle.range_list.specs.Ranges.{IsRange};
ghost use Rattle.run_history.specs.Sets.{is_inside, is_overlap};
ghost use Rattle.segment_store.specs.ReadySets.{AreReplaced, IsReady};
ghost use Rattle.set_check.specs.Rising.{EndBy};

use crate::segments::{Exact, segment};
use agg_group::Mask;
use calendar::Day;
use cell_store::Steps;
use check_lines::{Words, known, parsed, unknown_line};
use cube_val::Val;
use range_list::Range;
use segment_store::{ReadySet, Segment};
use std::alloc::Global;
use std::io;
use std::io::Write;
use std::marker::Brand;
use std::sync::ledger::{Blank, Ledger};

/// The most segments of a set.
const MOST: usize = 128;

/// A set, and how many jobs made the segments so far.
#[derive(Drop)]
struct Sets {
    set: ReadySet<Exact>,
    jobs: u32,
}

// The day that a word writes.
fn day_of(word: &str) -> io::Result<Day> {
    known(Day::read(word.as_bytes()))
}

// The range from one day to before another.
fn range_of(from: Day, to: Day) -> io::Result<Range>
    ensures { IfOk result (λ range. (range.start ≡ from) × (range.end ≡ to) × IsRange range) }
{
    known(Range::new(from, to))
}

// ---- a set of segments end to end

// Adds the segment from a day to before another.
fn add_segment(
    alloc: Global,
    segments: &mut Vec<Segment<Exact>>,
    from: Day,
    to: Day,
) -> io::Result<()>
    requires { EndBy segments.old.items from }
    ensures { OnOk result (EndBy segments.new.items to) }
{
    let range = range_of(from, to)?;
    if segments.len() >= MOST {
        return Err(unknown_line());
    }
    let next = segment(alloc, range, segments.len() as u32)?;
    segments.push(next)?;
    Ok(())
}

// The segments between the days that words write, end to end.
fn segments_of(alloc: Global, days: &str) -> io::Result<Vec<Segment<Exact>>>
    ensures { IfOk result (λ segments. IsReady segments.items) }
{
    let (first, rest) = known(days.split_once(','))?;
    let mut from = day_of(first)?;
    let mut segments = Vec::new(alloc);
    for word in rest.split(',') {
        let to = day_of(word)?;
        add_segment(alloc, &mut segments, from, to)?;
        from = to;
    }
    Ok(segments)
}

// Begins with a set of segments end to end.
fn begin(alloc: Global, sets: &mut Sets, days: &str) -> io::Result<()> {
    let segments = segments_of(alloc, days)?;
    sets.jobs = segments.len() as u32;
    sets.set = ReadySet::of(alloc, segments)?;
    Ok(())
}

// ---- swaps and drops

// Whether a segment lies inside a range.
fn is_within(range: Range, own: Range) -> bool
    ensures { result ≡ is_inside range own }
{
    range.start() <= own.start() && own.end() <= range.end()
}

// Whether a segment has no day in common with a range, or lies inside it.
fn is_apart_or_within(range: Range, segment: &Segment<Exact>) -> bool
    ensures { IsTrue result → is_overlap segment.now.range range ≡ true → is_inside range segment.now.range ≡ true }
{
    let own = segment.range();
    let overlaps = own.start() < range.end() && range.start() < own.end();
    !overlaps || is_within(range, own)
}

// Whether each segment that has a day in common with a range lies inside it.
fn may_replace(set: &ReadySet<Exact>, range: Range) -> bool
    ensures { IsTrue result → AreReplaced range set.now.segments }
{
    for i in 0..set.len() {
        if !is_apart_or_within(range, set.segment(i)) {
            return false;
        }
    }
    true
}

// One for a segment that lies not inside a range.
fn one_outside(range: Range, own: Range) -> usize
    ensures value { result ≡ (if is_inside range own then 0 else 1) }
    ensures most { result ≤ 1 }
{
    if is_within(range, own) { 0 } else { 1 }
}

// How many segments lie not inside a range.
fn staying(set: &ReadySet<Exact>, range: Range) -> usize
    ensures { result ≡ length (filter (λ s. not (is_inside range s.range)) set.now.segments) }
{
    let mut staying = 0;
    for i in 0..set.len() {
        staying += one_outside(range, set.segment(i).range());
    }
    staying
}

// The next set by a swap of the segment of a job over a range, where there is one.
fn swapped(
    alloc: Global,
    set: &ReadySet<Exact>,
    range: Range,
    job: u32,
) -> io::Result<Option<ReadySet<Exact>>> {
    if !may_replace(set, range) || staying(set, range) >= MOST || set.version() == u32::MAX {
        return Ok(None);
    }
    let next = set.swap_in(segment(alloc, range, job)?)?;
    Ok(Some(next))
}

// Swaps in the segment of the next job.
fn swap<W: Write>(alloc: Global, sets: &mut Sets, days: &str, out: &mut W) -> io::Result<()> {
    let (from, to) = known(days.split_once(':'))?;
    let range = range_of(day_of(from)?, day_of(to)?)?;
    let Some(next) = swapped(alloc, &sets.set, range, sets.jobs)? else {
        return out.write_all(b" refused");
    };
    sets.jobs = sets.jobs.saturating_add(1);
    sets.set = next;
    Ok(())
}

// The next set by a drop of the segment at a place, where there is one.
fn dropped(set: &ReadySet<Exact>, place: usize) -> io::Result<Option<ReadySet<Exact>>> {
    if place >= set.len() || set.version() == u32::MAX {
        return Ok(None);
    }
    let next = set.without(place)?;
    Ok(Some(next))
}

// Drops the segment at a place.
fn drop_at<W: Write>(sets: &mut Sets, place: usize, out: &mut W) -> io::Result<()> {
    let Some(next) = dropped(&sets.set, place)? else {
        return out.write_all(b" refused");
    };
    sets.set = next;
    Ok(())
}

// ---- what a set shows

// Writes the number of a set, and how many segments it has.
fn put_size<W: Write>(set: &ReadySet<Exact>, out: &mut W) -> io::Result<()> {
    write!(out, " {}:{}", set.version(), set.len())
}

// Writes a range.
fn put_range<W: Write>(range: Range, out: &mut W) -> io::Result<()> {
    out.write_all(&range.start().text())?;
    out.write_all(b"..")?;
    out.write_all(&range.end().text())
}

// Writes the job and the range of each segment.
fn put_segments<W: Write>(set: &ReadySet<Exact>, out: &mut W) -> io::Result<()> {
    for i in 0..set.len() {
        let segment = set.segment(i);
        write!(out, " {}@", segment.job())?;
        put_range(segment.range(), out)?;
    }
    Ok(())
}

// The segment at the place that a word writes.
fn segment_at<'a>(set: &'a ReadySet<Exact>, word: &str) -> io::Result<&'a Segment<Exact>> {
    let place = parsed::<usize>(word)?;
    if place >= set.len() {
        return Err(unknown_line());
    }
    Ok(set.segment(place))
}

// Writes the number in the row of a segment.
fn put_row<L: Ledger, W: Write>(
    segment: &Segment<Exact>,
    blank: Blank,
    out: &mut W,
) -> io::Result<()>
    requires { (blank.name ≡ L.name) × (blank.parts ≡ L.parts) × (0 < L.parts) }
{
    let mut steps = Steps::<L>::new(blank);
    let source = &segment.snaps()[0];
    let _range = source.range();
    if source.rows(0) == 0 {
        return Err(unknown_line());
    }
    match segment.rows_at(0, 0, 0, &mut steps).vals() {
        [Val::Null, Val::Int(job)] => write!(out, " {job}"),
        _ => Err(unknown_line()),
    }
}

// Writes how many rows the table of some dimensions has, where that is built.
fn put_table<W: Write>(segment: &Segment<Exact>, mask: u64, out: &mut W) -> io::Result<()> {
    match segment.table(Mask(mask)) {
        Some(table) => write!(out, " {}", table.len()),
        None => out.write_all(b" none"),
    }
}

// Does a call with words.
fn answer_named<W: Write>(
    alloc: Global,
    sets: &mut Sets,
    kind: &str,
    words: &str,
    out: &mut W,
) -> io::Result<()> {
    match kind {
        "of" => begin(alloc, sets, words),
        "swap" => swap(alloc, sets, words, out),
        "drop" => drop_at(sets, parsed::<usize>(words)?, out),
        "row" => put_row::<Brand, W>(segment_at(&sets.set, words)?, Blank::new(1), out),
        "table" => {
            let (place, mask) = known(words.split_once(':'))?;
            put_table(segment_at(&sets.set, place)?, parsed::<u64>(mask)?, out)
        }
        _ => Err(unknown_line()),
    }
}

// Does a call.
fn answer_call<W: Write>(
    alloc: Global,
    sets: &mut Sets,
    call: &str,
    out: &mut W,
) -> io::Result<()> {
    if call == "size" {
        return put_size(&sets.set, out);
    }
    if call == "list" {
        return put_segments(&sets.set, out);
    }
    let (kind, words) = known(call.split_once(':'))?;
    answer_named(alloc, sets, kind, words, out)
}

/// Calls on ready sets, one after another, from the empty set on.
pub(crate) fn answer_sets<W: Write>(
    alloc: Global,
    words: &mut Words<'_>,
    out: &mut W,
) -> io::Result<()> {
    let mut sets = Sets {
        set: ReadySet::empty(alloc),
        jobs: 0,
    };
    for call in words.rest().split(' ') {
        answer_call(alloc, &mut sets, call, out)?;
    }
    Ok(())
}
