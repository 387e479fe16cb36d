// Why bytes are no table of a form.

ghost use Rattle.std.specs.Prelude.{◌≡◌};

/// What is wrong at a place of a table file.
#[derive(Clone, Copy, Debug, PartialEq, Eq)]
pub enum TableKind {
    /// The file has no record, so it has no header.
    NoHeader,
    /// No field of the header names a column of the form.
    MissingColumn,
    /// Two fields of the header name one column of the form.
    RepeatedColumn,
    /// A record has fewer or more fields than the header.
    FieldCount,
    /// A field writes no value of its column's type.
    BadValue,
    /// A field writes a null in a column in which none may stand.
    NullMeasure,
    /// A row has the primary key of an earlier row, with no null in it.
    DuplicateKey,
    /// A record stands after the last one that a table may have.
    TooManyRows,
}

/// A place of a table file, and what is wrong there.
#[derive(Clone, Copy, Debug, PartialEq, Eq)]
pub struct TableFault {
    /// The number of the record: 0 is the header, and the rows are counted from 1.
    pub row: u32,
    /// The place of the column in the form, where the fault is that of one column.
    pub column: Option<usize>,
    /// What is wrong.
    pub kind: TableKind,
}

impl TableFault {
    ghost use Rattle.table_reader.specs.Faults.{fault_in};

    /// The fault of a whole record, of no one column.
    pub(crate) fn in_row(row: u32, kind: TableKind) -> TableFault
        ensures { result ≡ fault_in row kind }
    {
        TableFault {
            row,
            column: None,
            kind,
        }
    }
}

/// Why a table was not read.
#[derive(Clone, Copy, Debug, PartialEq, Eq)]
pub enum TableRefusal {
    /// The bytes are no table of the form. This is the first of their faults.
    Fault(TableFault),
    /// Memory was wanting. It may stand in place of any other answer.
    Memory,
}
