// The lines of standard input, and their answers.

use std::alloc::Global;
use std::io;
use std::io::{BufRead, BufReader, BufWriter, Write};

/// What answers a line.
pub trait Answerer {
    /// Writes the answer to a line, which is given without its line feed. Where the line is none that it knows, or memory runs out,
    /// it answers an error, and the program ends with status 1.
    fn answer<W: Write>(&mut self, alloc: Global, line: &[u8], out: &mut W) -> io::Result<()>;
}

// A line without its line feed.
fn without_line_feed(mut line: Vec<u8>) -> Vec<u8> {
    if line.last() == Some(&b'\n') {
        let _ = line.pop();
    }
    line
}

// Whether a line heads those below it.
fn is_heading(line: &[u8]) -> bool {
    line.is_empty() || line.starts_with(b"# ")
}

fn put_heading<W: Write>(out: &mut W, line: &[u8]) -> io::Result<()> {
    out.write_all(line)?;
    out.write_all(b"\n")
}

// The next line, or none where the lines end. The last line needs no line feed.
fn next_line<L: BufRead>(alloc: Global, lines: &mut L) -> io::Result<Option<Vec<u8>>> {
    let mut line = Vec::new(alloc);
    if lines.read_until(b'\n', &mut line)? == 0 {
        return Ok(None);
    }
    Ok(Some(without_line_feed(line)))
}

/// The next line that is no heading, without its line feed, or none where the lines end. An empty line and one that begins with `# ` head
/// the cases below them, and are written as they are.
pub fn next_case<L: BufRead, W: Write>(
    alloc: Global,
    lines: &mut L,
    out: &mut W,
) -> io::Result<Option<Vec<u8>>> {
    for _ in 0..u64::MAX {
        let Some(line) = next_line(alloc, lines)? else {
            break;
        };
        if !is_heading(line.as_slice()) {
            return Ok(Some(line));
        }
        put_heading(out, line.as_slice())?;
    }
    Ok(None)
}

/// Answers each line of standard input, in order, on standard output. An empty line and one that begins with `# ` are written as
/// they are: they head the cases below them. The last line needs no line feed.
pub fn answer_lines<R: Input + Print, C: Answerer>(
    rt: &R,
    alloc: Global,
    check: &mut C,
) -> io::Result<()> {
    let mut lines = BufReader::new(alloc, rt.reader())?;
    let mut out = BufWriter::new(alloc, io::writer(rt))?;
    for _ in 0..u64::MAX {
        let Some(line) = next_case(alloc, &mut lines, &mut out)? else {
            break;
        };
        check.answer(alloc, line.as_slice(), &mut out)?;
    }
    out.flush()
}
