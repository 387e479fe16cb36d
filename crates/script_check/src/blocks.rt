// Blocks of transcripts, given by words:
//
// - `cube NAME DIMENSIONS MEASURES CUBOIDS`, `loaded NAME ROWS`, `job ID KIND START END`, `dropped START END`, `state ID STATE`,
//   `rest FINISHED ERROR STOPPED DISCARDED`, `queries COUNT`, `memory`;
// - `jobs`, and for each job ID KIND START END STATE DONE STEPS; `segments`, and for each segment START END JOB CUBOIDS;
// - `answer COLUMNS NAME .. VALUE ..`, with a value for each column in each row: `-` is no value, `whole N` and `units N` are numbers, and
//   `text TEXT` is a text, in which a space is `\x20`;
// - `refused` and the refusal.
//
// The end line is `end FINISHED ERROR STOPPED DISCARDED SEGMENTS`.

use crate::refusals::{kind, name, range, refused, state};
use check_lines::{Words, parsed, unescaped, unknown_line};
use cube_val::{Items, NameText, TextVal};
use plain_answer::{AnswerTable, OutVal};
use script_text::{Block, JobLine, SegmentLine, Tally, put_block, put_end};
use std::alloc::{AllocError, Global};
use std::io;
use std::io::Write;

// The numbers of jobs at rest.
fn tally(words: &mut Words<'_>) -> io::Result<Tally> {
    let finished = words.number()?;
    let error = words.number()?;
    let stopped = words.number()?;
    let discarded = words.number()?;
    Ok(Tally {
        finished,
        error,
        stopped,
        discarded,
    })
}

// The line of a job.
fn job_line(words: &mut Words<'_>) -> io::Result<JobLine> {
    let id = words.number()?;
    let kind = kind(words)?;
    let range = range(words)?;
    let state = state(words)?;
    let done = words.number()?;
    let steps = words.number()?;
    Ok(JobLine {
        id,
        kind,
        range,
        state,
        done,
        steps,
    })
}

// The line of a segment.
fn segment_line(words: &mut Words<'_>) -> io::Result<SegmentLine> {
    let range = range(words)?;
    let job = words.number()?;
    let cuboids = words.number()?;
    Ok(SegmentLine {
        range,
        job,
        cuboids,
    })
}

// The jobs that are listed.
fn jobs(alloc: Global, words: &mut Words<'_>) -> io::Result<Block> {
    let mut jobs = Items::new(alloc);
    for _ in 0..u64::MAX {
        if words.is_empty() {
            break;
        }
        jobs.push(job_line(words)?)?;
    }
    Ok(Block::Jobs(jobs))
}

// The segments that are listed.
fn segments(alloc: Global, words: &mut Words<'_>) -> io::Result<Block> {
    let mut segments = Items::new(alloc);
    for _ in 0..u64::MAX {
        if words.is_empty() {
            break;
        }
        segments.push(segment_line(words)?)?;
    }
    Ok(Block::Segments(segments))
}

// A text of an answer.
fn text(alloc: Global, words: &mut Words<'_>) -> io::Result<OutVal> {
    let bytes = unescaped(alloc, words.next()?)?;
    match TextVal::new(alloc, bytes.as_slice()) {
        Ok(text) => Ok(OutVal::Text(text)),
        Err(_) => Err(unknown_line()),
    }
}

// A value of an answer.
fn value(alloc: Global, words: &mut Words<'_>) -> io::Result<OutVal> {
    match words.next()? {
        "-" => Ok(OutVal::Null),
        "whole" => Ok(OutVal::Whole(parsed(words.next()?)?)),
        "units" => Ok(OutVal::Units(parsed(words.next()?)?)),
        "text" => text(alloc, words),
        _ => Err(unknown_line()),
    }
}

// A row of an answer.
fn row(alloc: Global, columns: u32, words: &mut Words<'_>) -> io::Result<Items<OutVal>> {
    let mut row = Items::new(alloc);
    for _ in 0..columns {
        row.push(value(alloc, words)?)?;
    }
    Ok(row)
}

// The rows of an answer.
fn rows(alloc: Global, columns: u32, words: &mut Words<'_>) -> io::Result<Items<Items<OutVal>>> {
    let mut rows = Items::new(alloc);
    for _ in 0..u64::MAX {
        if words.is_empty() {
            break;
        }
        rows.push(row(alloc, columns, words)?)?;
    }
    Ok(rows)
}

// The names of the columns of an answer.
fn names(alloc: Global, columns: u32, words: &mut Words<'_>) -> io::Result<Items<NameText>> {
    let mut names = Items::new(alloc);
    for _ in 0..columns {
        names.push(name(alloc, words)?)?;
    }
    Ok(names)
}

// An answer.
fn answer(alloc: Global, words: &mut Words<'_>) -> io::Result<Block> {
    let columns = words.number()?;
    let names = names(alloc, columns, words)?;
    let rows = rows(alloc, columns, words)?;
    Ok(Block::Answer(AnswerTable { names, rows }))
}

// The cube.
fn cube(alloc: Global, words: &mut Words<'_>) -> io::Result<Block> {
    let name = words.next()?;
    let dimensions = words.number()?;
    let measures = words.number()?;
    let cuboids = words.number()?;
    Ok(Block::Cube {
        name: NameText::new(alloc, name.as_bytes())?,
        dimensions,
        measures,
        cuboids,
    })
}

// A table that was loaded.
fn loaded(alloc: Global, words: &mut Words<'_>) -> io::Result<Block> {
    let name = words.next()?;
    let rows = words.number()?;
    let table = NameText::new(alloc, name.as_bytes())?;
    Ok(Block::Loaded { table, rows })
}

// A job that was submitted.
fn job(words: &mut Words<'_>) -> io::Result<Block> {
    let id = words.number()?;
    let kind = kind(words)?;
    let range = range(words)?;
    Ok(Block::Job { id, kind, range })
}

// Where a job stands.
fn job_state(words: &mut Words<'_>) -> io::Result<Block> {
    let id = words.number()?;
    let state = state(words)?;
    Ok(Block::State { id, state })
}

// The block that the words are.
fn block(alloc: Global, words: &mut Words<'_>) -> io::Result<Block> {
    match words.next()? {
        "cube" => cube(alloc, words),
        "loaded" => loaded(alloc, words),
        "job" => job(words),
        "dropped" => Ok(Block::Dropped(range(words)?)),
        "state" => job_state(words),
        "rest" => Ok(Block::JobsAtRest(tally(words)?)),
        "queries" => Ok(Block::QueriesAtRest(words.number()?)),
        "jobs" => jobs(alloc, words),
        "segments" => segments(alloc, words),
        "answer" => answer(alloc, words),
        "memory" => Ok(Block::OutOfMemory),
        "refused" => Ok(Block::Refused(refused(alloc, words)?)),
        _ => Err(unknown_line()),
    }
}

// Writes a text that was put together.
fn put_text<W: Write>(put: Result<(), AllocError>, text: &[u8], out: &mut W) -> io::Result<()> {
    put?;
    out.write_all(text)
}

/// Writes the text of a block.
pub(crate) fn answer_block<W: Write>(
    alloc: Global,
    mut words: Words<'_>,
    out: &mut W,
) -> io::Result<()> {
    let number = words.number()?;
    let block = block(alloc, &mut words)?;
    let mut text = Vec::new(alloc);
    let put = put_block(alloc, &mut text, number, &block);
    put_text(put, text.as_slice(), out)
}

/// Writes the end line.
pub(crate) fn answer_end<W: Write>(
    alloc: Global,
    mut words: Words<'_>,
    out: &mut W,
) -> io::Result<()> {
    let tally = tally(&mut words)?;
    let segments = words.number()?;
    let mut text = Vec::new(alloc);
    let put = put_end(alloc, &mut text, &tally, segments);
    put_text(put, text.as_slice(), out)
}
