//! Answers calls on rows of published sets, in one thread and in two, and on ready sets, each line of standard input a list of calls.
//!
//! The lines:
//!
//! - `descriptor JSON` reads the descriptor of the rows of the lines below it, and writes how many cuboids it builds.
//! - `row VERSION CALL ..` makes a row, publishes a set of this version in it, its token 0, and begins a session with this token. Then it does
//!   the calls. `publish:VERSION` publishes another set, and `pin:TOKEN` pins one, told of this token; the token that is
//!   given gets the next number, and the version of its set is written. `session:TOKEN` begins another session in place of the first.
//!   `agree:TOKEN:TOKEN` says whether two tokens agree.
//! - `threads KNOWN LAST PINS` publishes the versions up to KNOWN. Then one thread publishes the versions up to LAST while another pins so many
//!   times, told of KNOWN. It says whether the set of each token that was published has its version, and whether the versions that
//!   were pinned began at KNOWN at least and never fell: both are so under every schedule.
//! - `sets CALL ..` makes calls on ready sets, from the empty one on. `of:DAY,DAY,..` takes the set of the segments between these days, end
//!   to end, by the jobs 0, 1 and so on. `swap:DAY:DAY` swaps in the segment of the next job over a range, and `drop:PLACE` drops a segment; each
//!   writes `refused` where the set has no such next one. `size` writes the number of the set and how many segments it has, and `list` the
//!   job and the range of each. `row:PLACE` writes what the one row of a segment's source holds: the number of its job. `table:PLACE:MASK` writes how many
//!   rows the table of a mask has, none where it isn't built.
//! - `publish` publishes the empty ready set in a row, and writes the number of its token's set, and how many segments it has.
//!
//! It is no part of the product.
#![tactic(auto)]

mod published;
mod rows;
mod segments;
mod sets;
mod threads;
mod versions;

use crate::published::answer_publish;
use crate::rows::answer_row;
use crate::sets::answer_sets;
use crate::threads::answer_threads;
use check_lines::{Words, known, next_case, unknown_line};
use cube_desc::{CubeDesc, read_desc};
use std::alloc::Global;
use std::io;
use std::io::{BufReader, BufWriter, Write};
use std::sync::{Arc, Wait};
use std::thread::Threads;

/// The descriptor of the rows, once a line gave one.
type Given = Option<Arc<CubeDesc>>;

// The descriptor that a line gave.
fn given_desc(given: &Given) -> io::Result<Arc<CubeDesc>> {
    match given {
        Some(desc) => Ok(desc.clone()?),
        None => Err(unknown_line()),
    }
}

// Reads a descriptor.
fn answer_descriptor<W: Write>(
    alloc: Global,
    json: &str,
    given: &mut Given,
    out: &mut W,
) -> io::Result<()> {
    let desc = known(read_desc(alloc, json.as_bytes()).ok())?;
    write!(out, " {}", desc.parts().masks.len())?;
    *given = Some(Arc::new(alloc, desc)?);
    Ok(())
}

// Answers a line.
fn answer<R: Threads + Wait + Sync, W: Write>(
    rt: &R,
    alloc: Global,
    line: &[u8],
    given: &mut Given,
    out: &mut W,
) -> io::Result<()> {
    let mut words = Words::new(line)?;
    let kind = words.next()?;
    out.write_all(kind.as_bytes())?;
    match kind {
        "descriptor" => answer_descriptor(alloc, words.rest(), given, out)?,
        "row" => answer_row(rt, alloc, given_desc(given)?, &mut words, out)?,
        "threads" => answer_threads(rt, alloc, given_desc(given)?, &mut words, out)?,
        "sets" => answer_sets(alloc, &mut words, out)?,
        "publish" => answer_publish(rt, alloc, given_desc(given)?, out)?,
        _ => return Err(unknown_line()),
    }
    out.write_all(b"\n")
}

fn main(rt: HostRuntime) -> io::Result<()> {
    let alloc = rt.alloc();
    let mut lines = BufReader::new(alloc, rt.reader())?;
    let mut out = BufWriter::new(alloc, io::writer(&rt))?;
    let mut given = None;
    for _ in 0..u64::MAX {
        let Some(line) = next_case(alloc, &mut lines, &mut out)? else {
            break;
        };
        answer(&rt, alloc, line.as_slice(), &mut given, &mut out)?;
    }
    out.flush()
}
