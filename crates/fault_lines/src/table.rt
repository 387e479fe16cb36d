// The fault line of a table.

ghost use Rattle.std.specs.Prelude.{◌≡◌, ◌⊎◌, map};
ghost use Rattle.fault_lines.specs.Lines.{Appends};
ghost use Rattle.fault_lines.specs.Tables.{bad_table_line, column_text, kind_text};

use crate::output::refuse;
use crate::status::{BAD_TABLE, MEMORY};
use outside::Sink;
use std::alloc::Global;
use table_reader::{TableFault, TableKind};

// The name of the column at a place, or a dash for none.
fn column_text<'a>(names: &[&'a str], place: Option<usize>) -> &'a str
    ensures { result.now ≡ column_text (map (λ name. name.now) names.now) place }
{
    let Some(place) = place else {
        return "-";
    };
    match names.get(place) {
        Some(name) => name,
        None => "-",
    }
}

// The name of a kind.
fn kind_text(kind: TableKind) -> &'static str
    ensures { result.now ≡ kind_text kind }
{
    match kind {
        TableKind::NoHeader => "NoHeader",
        TableKind::MissingColumn => "MissingColumn",
        TableKind::RepeatedColumn => "RepeatedColumn",
        TableKind::FieldCount => "FieldCount",
        TableKind::BadValue => "BadValue",
        TableKind::NullMeasure => "NullMeasure",
        TableKind::DuplicateKey => "DuplicateKey",
        TableKind::TooManyRows => "TooManyRows",
    }
}

/// Writes the fault line of the table file at the path, whose form has columns of these names, and says the status. Want of memory
/// writes nothing.
pub fn refuse_table<S: Sink>(
    alloc: Global,
    sink: &mut S,
    names: &[&str],
    path: &str,
    fault: TableFault,
) -> u8
    ensures status { (result ≡ BAD_TABLE) ⊎ (result ≡ MEMORY) }
    ensures line { result ≡ BAD_TABLE → Appends (S.faults sink.old) (S.faults sink.new) (S.written sink.old) (S.written sink.new) (bad_table_line (map (λ name. name.now) names.now) path.now fault) }
    ensures memory { result ≡ MEMORY → S.written sink.new ≡ S.written sink.old }
{
    let row = fault.row;
    let column = column_text(names, fault.column);
    let kind = kind_text(fault.kind);
    match format!(in alloc; "fault: BadTable {path} {row} {column} {kind}\n") {
        Ok(line) => refuse(sink, line.as_bytes(), BAD_TABLE),
        Err(_) => MEMORY,
    }
}
