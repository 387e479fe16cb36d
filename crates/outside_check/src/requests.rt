// Calls on a sink and on a stopper in memory.

use crate::given::{numbers, put_bytes, put_done};
use check_lines::{Words, parsed};
use outside::{MemorySink, MemoryStopper, Request, Sink, Stopper};
use std::alloc::Global;
use std::io;
use std::io::Write;

// Writes each of some texts to a sink.
fn put_writes<S: Sink, W: Write>(sink: &mut S, texts: &str, out: &mut W) -> io::Result<()> {
    for text in texts.split(' ') {
        put_done(out, &sink.write(text.as_bytes()))?;
    }
    Ok(())
}

/// Writes to a sink, and what it holds at the end.
pub(crate) fn answer_sink<W: Write>(
    alloc: Global,
    words: &mut Words<'_>,
    out: &mut W,
) -> io::Result<()> {
    let failing = numbers(alloc, words.next()?)?;
    let mut sink = MemorySink::new(alloc, failing);
    put_writes(&mut sink, words.rest(), out)?;
    put_bytes(out, sink.bytes())
}

// Writes the jobs of requests.
fn put_jobs<W: Write>(out: &mut W, requests: &[Request]) -> io::Result<()> {
    out.write_all(b";")?;
    for request in requests {
        write!(out, " {}", request.job)?;
    }
    Ok(())
}

// Asks a stopper for each of some jobs.
fn put_requests<S: Stopper, W: Write>(
    alloc: Global,
    stopper: &mut S,
    jobs: &str,
    out: &mut W,
) -> io::Result<()> {
    for word in jobs.split(' ') {
        let job = parsed::<u32>(word)?;
        put_done(out, &stopper.stop(alloc, job, 7))?;
    }
    Ok(())
}

/// Requests to a stopper, and the jobs of all of them at the end.
pub(crate) fn answer_stopper<W: Write>(
    alloc: Global,
    words: &mut Words<'_>,
    out: &mut W,
) -> io::Result<()> {
    let failing = numbers(alloc, words.next()?)?;
    let mut stopper = MemoryStopper::new(alloc, failing);
    put_requests(alloc, &mut stopper, words.rest(), out)?;
    put_jobs(out, stopper.requests())
}
