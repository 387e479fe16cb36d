// The lines of tables, as `csv` writes records.

ghost use Rattle.std.specs.Prelude.{◌≡◌, ◌++◌, [], ℕ, List, IfOk, OnOk, map};
ghost use Rattle.script_text.specs.Blocks.{csv_line, job_fields, jobs_header, out_text, segment_fields, segments_header, table_text};
ghost use Rattle.script_text.specs.Writing.{HasWritten};

use crate::block::{JobLine, SegmentLine};
use csv::{Writer, WriterBuilder};
use cube_val::{NameText, decimal_text};
use plain_answer::{AnswerRow, AnswerTable, OutVal};
use std::alloc::{AllocError, Global};

// A writer of a table, before its first line.
fn writer_of(alloc: Global) -> Writer<Vec<u8>>
    ensures { HasWritten [] result }
{
    WriterBuilder::new()
        .flexible(true)
        .from_writer(Vec::new(alloc))
}

// Writes a line.
fn put_line(writer: &mut Writer<Vec<u8>>, fields: &[&[u8]]) -> Result<(), AllocError>
    ensures { OnOk result ((text : List ℕ) → HasWritten text writer.old → HasWritten (text ++ csv_line (map (λ field. field.now) fields.now)) writer.new) }
{
    if writer.write_fields(fields).is_err() {
        return Err(AllocError);
    }
    Ok(())
}

// The text that was written.
fn text_of(writer: Writer<Vec<u8>>) -> Result<Vec<u8>, AllocError>
    ensures { IfOk result (λ written. (text : List ℕ) → HasWritten text writer → written.items ≡ text) }
{
    match writer.into_inner() {
        Ok(text) => Ok(text),
        Err(_) => Err(AllocError),
    }
}

// Writes the line of a job.
fn put_job(writer: &mut Writer<Vec<u8>>, alloc: Global, job: &JobLine) -> Result<(), AllocError>
    ensures { OnOk result ((text : List ℕ) → HasWritten text writer.old → HasWritten (text ++ csv_line (job_fields job.now)) writer.new) }
{
    let id = job.id.to_string(alloc)?;
    let done = job.done.to_string(alloc)?;
    let steps = job.steps.to_string(alloc)?;
    let start = job.range.start().text();
    let end = job.range.end().text();
    put_line(
        writer,
        &[
            id.as_bytes(),
            job.kind.as_str().as_bytes(),
            start.as_slice(),
            end.as_slice(),
            job.state.as_str().as_bytes(),
            done.as_bytes(),
            steps.as_bytes(),
        ],
    )
}

/// The table of jobs.
pub fn jobs_table(alloc: Global, jobs: &[JobLine]) -> Result<Vec<u8>, AllocError>
    ensures { IfOk result (λ text. text.items ≡ table_text jobs_header (map job_fields jobs.now)) }
{
    let mut writer = writer_of(alloc);
    put_line(
        &mut writer,
        &[
            b"job".as_slice(),
            b"kind".as_slice(),
            b"start".as_slice(),
            b"end".as_slice(),
            b"state".as_slice(),
            b"done".as_slice(),
            b"steps".as_slice(),
        ],
    )?;
    for job in jobs {
        put_job(&mut writer, alloc, job)?;
    }
    text_of(writer)
}

// Writes the line of a segment.
fn put_segment(
    writer: &mut Writer<Vec<u8>>,
    alloc: Global,
    segment: &SegmentLine,
) -> Result<(), AllocError>
    ensures { OnOk result ((text : List ℕ) → HasWritten text writer.old → HasWritten (text ++ csv_line (segment_fields segment.now)) writer.new) }
{
    let job = segment.job.to_string(alloc)?;
    let cuboids = segment.cuboids.to_string(alloc)?;
    let start = segment.range.start().text();
    let end = segment.range.end().text();
    put_line(
        writer,
        &[
            start.as_slice(),
            end.as_slice(),
            job.as_bytes(),
            cuboids.as_bytes(),
        ],
    )
}

/// The table of ready segments.
pub fn segments_table(alloc: Global, segments: &[SegmentLine]) -> Result<Vec<u8>, AllocError>
    ensures { IfOk result (λ text. text.items ≡ table_text segments_header (map segment_fields segments.now)) }
{
    let mut writer = writer_of(alloc);
    put_line(
        &mut writer,
        &[
            b"start".as_slice(),
            b"end".as_slice(),
            b"job".as_slice(),
            b"cuboids".as_slice(),
        ],
    )?;
    for segment in segments {
        put_segment(&mut writer, alloc, segment)?;
    }
    text_of(writer)
}

// The text of a value.
fn out_text(alloc: Global, v: &OutVal) -> Result<Vec<u8>, AllocError>
    ensures { IfOk result (λ text. text.items ≡ out_text v.now) }
{
    match v {
        OutVal::Null => Vec::from_slice(alloc, b"\\N"),
        OutVal::Whole(number) => {
            let text = number.to_string(alloc)?;
            Vec::from_slice(alloc, text.as_bytes())
        }
        OutVal::Units(units) => decimal_text(alloc, *units),
        OutVal::Text(text) => Vec::from_slice(alloc, text.bytes()),
    }
}

// The texts of a row's values.
fn texts_of_row(alloc: Global, row: &[OutVal]) -> Result<Vec<Vec<u8>>, AllocError>
    ensures { IfOk result (λ texts. map (λ text. text.items) texts.items ≡ map out_text row.now) }
{
    let mut texts = Vec::new(alloc);
    for v in row {
        let text = out_text(alloc, v)?;
        texts.push(text)?;
    }
    Ok(texts)
}

// The bytes of texts, each lent.
fn fields_of<'a>(alloc: Global, texts: &'a [Vec<u8>]) -> Result<Vec<&'a [u8]>, AllocError>
    ensures { IfOk result (λ fields. map (λ field. field.now) fields.items ≡ map (λ text. text.items) texts.now) }
{
    let mut fields = Vec::new(alloc);
    for text in texts {
        fields.push(text.as_slice())?;
    }
    Ok(fields)
}

// Writes the line of a row.
fn put_row(writer: &mut Writer<Vec<u8>>, alloc: Global, row: &AnswerRow) -> Result<(), AllocError>
    ensures { OnOk result ((text : List ℕ) → HasWritten text writer.old → HasWritten (text ++ csv_line (map out_text row.now)) writer.new) }
{
    let texts = texts_of_row(alloc, row.as_slice())?;
    let fields = fields_of(alloc, &texts)?;
    put_line(writer, &fields)
}

// The bytes of names, each lent.
fn name_fields<'a>(alloc: Global, names: &'a [NameText]) -> Result<Vec<&'a [u8]>, AllocError>
    ensures { IfOk result (λ fields. map (λ field. field.now) fields.items ≡ names.now) }
{
    let mut fields = Vec::new(alloc);
    for name in names {
        fields.push(name.bytes())?;
    }
    Ok(fields)
}

/// The names and the rows of an answer.
pub fn answer_table(alloc: Global, table: &AnswerTable) -> Result<Vec<u8>, AllocError>
    ensures { IfOk result (λ text. text.items ≡ table_text table.now.names (map (λ row. map out_text row) table.now.rows)) }
{
    let mut writer = writer_of(alloc);
    let names = name_fields(alloc, table.names.as_slice())?;
    put_line(&mut writer, &names)?;
    for row in table.rows.as_slice() {
        put_row(&mut writer, alloc, row)?;
    }
    text_of(writer)
}
