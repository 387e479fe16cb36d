// Calls on one list of numbers.

ghost use Rattle.std.specs.Prelude.{◌<◌};

use crate::calls::put;
use check_lines::{Words, unknown_line};
use job_list::JobList;
use std::alloc::Global;
use std::io;
use std::io::Write;

// Puts a number last, where it isn't in the list; whether it was put there.
fn push(list: &mut JobList, id: u32) -> io::Result<bool> {
    let Some(capacity) = id.checked_add(1) else {
        return Err(unknown_line());
    };
    list.reserve(capacity)?;
    if list.contains(id) {
        return Ok(false);
    }
    list.push_back(id);
    Ok(true)
}

// Takes a number out, where it is in the list; whether it was there.
fn unlink(list: &mut JobList, id: u32) -> bool {
    if !list.contains(id) {
        return false;
    }
    list.unlink(id);
    true
}

// A call on a number.
fn answer_number<W: Write>(list: &mut JobList, call: &str, id: u32, out: &mut W) -> io::Result<()> {
    match call {
        "push" => put(out, &push(list, id)?),
        "unlink" => put(out, &unlink(list, id)),
        "contains" => put(out, &list.contains(id)),
        _ => Err(unknown_line()),
    }
}

fn answer_call<W: Write>(list: &mut JobList, words: &mut Words<'_>, out: &mut W) -> io::Result<()> {
    match words.next()? {
        "pop" => put(out, &list.pop_front()),
        "front" => put(out, &list.front()),
        "len" => put(out, &list.len()),
        "empty" => put(out, &list.is_empty()),
        call => answer_number(list, call, words.number()?, out),
    }
}

/// The empty list, and calls on it.
pub fn answer_list<W: Write>(alloc: Global, words: &mut Words<'_>, out: &mut W) -> io::Result<()> {
    let mut list = JobList::new(alloc);
    for _ in 0..u64::MAX {
        if words.is_empty() {
            break;
        }
        answer_call(&mut list, words, out)?;
    }
    Ok(())
}
