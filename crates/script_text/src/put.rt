// The texts of blocks and of the end line.

ghost use Rattle.std.specs.Prelude.{◌≡◌, ◌++◌, ◌∷◌, [], IfOk, OnErr, OnOk, codes};
ghost use Rattle.std.specs.Fmt.{decimal};
ghost use Rattle.std.specs.List.{concat};
ghost use Rattle.script_text.specs.Blocks.{block_text, end_text, lines_after, said, tally_text};

use crate::block::{Block, Tally};
use crate::range::range_text;
use crate::refusal::refusal_text;
use crate::table::{answer_table, jobs_table, segments_table};
use crate::text::{joined, with_number, with_text};
use job_machine::{JobKind, JobState};
use range_list::Range;
use std::alloc::{AllocError, Global};

// How many jobs rest in each state.
fn tally_text(alloc: Global, tally: &Tally) -> Result<Vec<u8>, AllocError>
    ensures { IfOk result (λ text. text.items ≡ tally_text tally.now) }
{
    let finished = tally.finished.to_string(alloc)?;
    let error = tally.error.to_string(alloc)?;
    let stopped = tally.stopped.to_string(alloc)?;
    let discarded = tally.discarded.to_string(alloc)?;
    joined(
        alloc,
        &[
            finished.as_bytes(),
            b" finished, ".as_slice(),
            error.as_bytes(),
            b" in error, ".as_slice(),
            stopped.as_bytes(),
            b" stopped, ".as_slice(),
            discarded.as_bytes(),
            b" discarded".as_slice(),
        ],
    )
}

// What is said of the cube.
fn cube_said(
    alloc: Global,
    name: &[u8],
    dimensions: u32,
    measures: u32,
    cuboids: u32,
) -> Result<Vec<u8>, AllocError>
    ensures { IfOk result (λ text. text.items ≡ said (Block.Cube name.now dimensions measures cuboids)) }
{
    let dimensions = dimensions.to_string(alloc)?;
    let measures = measures.to_string(alloc)?;
    let cuboids = cuboids.to_string(alloc)?;
    joined(
        alloc,
        &[
            b"cube ".as_slice(),
            name,
            b": ".as_slice(),
            dimensions.as_bytes(),
            b" dimensions, ".as_slice(),
            measures.as_bytes(),
            b" measures, ".as_slice(),
            cuboids.as_bytes(),
            b" cuboids".as_slice(),
        ],
    )
}

// What is said of a table that was loaded.
fn loaded_said(alloc: Global, table: &[u8], rows: u32) -> Result<Vec<u8>, AllocError>
    ensures { IfOk result (λ text. text.items ≡ said (Block.Loaded table.now rows)) }
{
    let rows = rows.to_string(alloc)?;
    joined(
        alloc,
        &[
            b"loaded ".as_slice(),
            table,
            b": ".as_slice(),
            rows.as_bytes(),
            b" rows".as_slice(),
        ],
    )
}

// What is said of a job that was submitted.
fn job_said(alloc: Global, id: u32, kind: JobKind, range: &Range) -> Result<Vec<u8>, AllocError>
    ensures { IfOk result (λ text. text.items ≡ said (Block.Job id kind range.now)) }
{
    let id = id.to_string(alloc)?;
    let range = range_text(alloc, range)?;
    joined(
        alloc,
        &[
            b"job ".as_slice(),
            id.as_bytes(),
            b": ".as_slice(),
            kind.as_str().as_bytes(),
            b" ".as_slice(),
            range.as_slice(),
        ],
    )
}

// What is said of a job's state.
fn state_said(alloc: Global, id: u32, state: JobState) -> Result<Vec<u8>, AllocError>
    ensures { IfOk result (λ text. text.items ≡ said (Block.State id state)) }
{
    let id = id.to_string(alloc)?;
    joined(
        alloc,
        &[
            b"job ".as_slice(),
            id.as_bytes(),
            b": ".as_slice(),
            state.as_str().as_bytes(),
        ],
    )
}

// What is said of an answer.
fn answer_said(alloc: Global, rows: usize) -> Result<Vec<u8>, AllocError>
    ensures { IfOk result (λ text. text.items ≡ concat (codes "query: " ∷ decimal rows ∷ codes " rows" ∷ [])) }
{
    let rows = rows.to_string(alloc)?;
    joined(
        alloc,
        &[b"query: ".as_slice(), rows.as_bytes(), b" rows".as_slice()],
    )
}

// What the first line of a block says.
fn said(alloc: Global, block: &Block) -> Result<Vec<u8>, AllocError>
    ensures { IfOk result (λ text. text.items ≡ said block.now) }
{
    match block {
        Block::Cube {
            name,
            dimensions,
            measures,
            cuboids,
        } => cube_said(alloc, name.bytes(), *dimensions, *measures, *cuboids),
        Block::Loaded { table, rows } => loaded_said(alloc, table.bytes(), *rows),
        Block::Job { id, kind, range } => job_said(alloc, *id, *kind, range),
        Block::Dropped(range) => {
            let range = range_text(alloc, range)?;
            with_text(alloc, b"dropped ", range.as_slice())
        }
        Block::State { id, state } => state_said(alloc, *id, *state),
        Block::JobsAtRest(tally) => {
            let tally = tally_text(alloc, tally)?;
            with_text(alloc, b"jobs at rest: ", tally.as_slice())
        }
        Block::QueriesAtRest(count) => with_number(alloc, b"queries at rest: ", u64::from(*count)),
        Block::Jobs(jobs) => with_number(alloc, b"jobs: ", jobs.len() as u64),
        Block::Segments(segments) => with_number(alloc, b"segments: ", segments.len() as u64),
        Block::Answer(table) => answer_said(alloc, table.rows.len()),
        Block::OutOfMemory => Vec::from_slice(alloc, b"query: out of memory"),
        Block::Refused(refused) => {
            let refused = refusal_text(alloc, refused)?;
            with_text(alloc, b"refused: ", refused.as_slice())
        }
    }
}

// The lines of a block after its first one.
fn lines_after(alloc: Global, block: &Block) -> Result<Vec<u8>, AllocError>
    ensures { IfOk result (λ text. text.items ≡ lines_after block.now) }
{
    match block {
        Block::Jobs(jobs) => jobs_table(alloc, jobs.as_slice()),
        Block::Segments(segments) => segments_table(alloc, segments.as_slice()),
        Block::Answer(table) => answer_table(alloc, table),
        _ => Ok(Vec::new(alloc)),
    }
}

/// Appends the block of a line.
pub fn put_block(
    alloc: Global,
    out: &mut Vec<u8>,
    line: u32,
    block: &Block,
) -> Result<(), AllocError>
    ensures ok { OnOk result (out.new.items ≡ out.old.items ++ block_text line block.now) }
    ensures err { OnErr result (out.new.items ≡ out.old.items) }
{
    let line = line.to_string(alloc)?;
    let said = said(alloc, block)?;
    let lines = lines_after(alloc, block)?;
    let text = joined(
        alloc,
        &[
            b"[".as_slice(),
            line.as_bytes(),
            b"] ".as_slice(),
            said.as_slice(),
            b"\n".as_slice(),
            lines.as_slice(),
        ],
    )?;
    out.extend_from_slice(text.as_slice())
}

/// Appends the end line of a transcript: how many jobs rest in each state, and how many segments are ready.
pub fn put_end(
    alloc: Global,
    out: &mut Vec<u8>,
    tally: &Tally,
    segments: u32,
) -> Result<(), AllocError>
    ensures ok { OnOk result (out.new.items ≡ out.old.items ++ end_text tally.now segments) }
    ensures err { OnErr result (out.new.items ≡ out.old.items) }
{
    let tally = tally_text(alloc, tally)?;
    let segments = segments.to_string(alloc)?;
    let text = joined(
        alloc,
        &[
            b"end: ".as_slice(),
            tally.as_slice(),
            b"; ".as_slice(),
            segments.as_bytes(),
            b" segments".as_slice(),
            b"\n".as_slice(),
        ],
    )?;
    out.extend_from_slice(text.as_slice())
}
