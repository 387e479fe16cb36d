// Plans of drops and merges.

ghost use Rattle.std.specs.Prelude.{IfOk, IsTrue};
ghost use Rattle.std.specs.List.Sorted.{IsStrictlyIncreasing};

use auto_merge::{Action, plan_of};
use check_lines::{Words, known, parsed, unknown_line};
use range_list::{Day, Range, RangeList};
use std::alloc::Global;
use std::io;
use std::io::Write;

// Whether each number is above the one before it.
fn is_rising(numbers: &[u32]) -> bool
    ensures { IsTrue result → IsStrictlyIncreasing numbers.now }
{
    for k in 1..numbers.len() {
        if numbers[k - 1] >= numbers[k] {
            return false;
        }
    }
    true
}

// The thresholds that a word writes.
fn thresholds_in(alloc: Global, word: &str) -> io::Result<Vec<u32>>
    ensures { IfOk result (λ days. IsStrictlyIncreasing days.items) }
{
    let mut days = Vec::new(alloc);
    for number in word.split(',') {
        days.push(parsed(number)?)?;
    }
    if is_rising(days.as_slice()) {
        Ok(days)
    } else {
        Err(unknown_line())
    }
}

// The range between the days on both sides of a colon.
fn range_in(word: &str) -> io::Result<Range> {
    let (start, end) = known(word.split_once(':'))?;
    let start = known(Day::read(start.as_bytes()))?;
    let end = known(Day::read(end.as_bytes()))?;
    known(Range::new(start, end))
}

// Puts a range into the list; an error where it overlaps one of it.
fn put_range(ranges: &mut RangeList, range: Range) -> io::Result<()> {
    match ranges.find_overlap(&range) {
        None => {
            ranges.insert(range)?;
            Ok(())
        }
        Some(_) => Err(unknown_line()),
    }
}

// The ranges that the words write.
fn ranges_in(alloc: Global, words: &str) -> io::Result<RangeList> {
    let mut ranges = RangeList::new(alloc);
    for word in words.split(' ') {
        put_range(&mut ranges, range_in(word)?)?;
    }
    Ok(ranges)
}

fn put_action<W: Write>(action: &Action, out: &mut W) -> io::Result<()> {
    let (verb, range): (&[u8], &Range) = match action {
        Action::Drop(range) => (b"drop ", range),
        Action::Merge(range) => (b"merge ", range),
    };
    out.write_all(verb)?;
    out.write_all(&range.start().text())?;
    out.write_all(b" ")?;
    out.write_all(&range.end().text())
}

/// `plan DAYS RETAIN START:END ..`: the actions of the plan, parted by commas.
pub fn answer_plan<W: Write>(alloc: Global, words: &mut Words<'_>, out: &mut W) -> io::Result<()> {
    let days = thresholds_in(alloc, words.next()?)?;
    let retain = words.number()?;
    let ranges = ranges_in(alloc, words.rest())?;
    let actions = plan_of(alloc, &ranges, days.as_slice(), retain)?;
    if actions.is_empty() {
        return out.write_all(b"nothing");
    }
    let mut between: &[u8] = b"";
    for action in &actions {
        out.write_all(between)?;
        put_action(action, out)?;
        between = b", ";
    }
    Ok(())
}
