// The check of types.
#![tactic(auto, using(crate::proofs::FirstLemmas::first_append))]

ghost use Rattle.std.specs.Prelude.{◌≡◌, ℕ, List, [], ◌∷◌, ◌++◌, Option, bytes_eq};
ghost use Rattle.std.specs.List.{flat_map, find};
ghost use Rattle.std.specs.Option.{option_copied, option_or};
ghost use Rattle.desc_checks.specs.Firsts.{first, unless};
ghost use Rattle.desc_checks.specs.Types.{is_number_type, is_date_type, is_type, column_bad_type, table_bad_types, bad_types, type_of};

use crate::check::{Check, first_in, place_unless};
use descriptor_json::{JsonPointer, RawColumn, RawDesc, RawTable};

pub(crate) fn is_number_type(text: &[u8]) -> bool
    ensures { result ≡ is_number_type text.now }
{
    text == b"int".as_slice() || text == b"decimal".as_slice()
}

pub(crate) fn is_date_type(text: &[u8]) -> bool
    ensures { result ≡ is_date_type text.now }
{
    text == b"date".as_slice()
}

fn is_type(text: &[u8]) -> bool
    ensures { result ≡ is_type text.now }
{
    is_number_type(text) || text == b"text".as_slice() || is_date_type(text)
}

pub(crate) struct BadType;

impl Check<RawColumn> for BadType {
    ghost failing = { λ _ c. column_bad_type c };

    fn first<'a>(&self, column: &'a RawColumn) -> Option<&'a JsonPointer> {
        let kind = &column.kind;
        place_unless(is_type(kind.text.bytes()), &kind.place)
    }
}

impl Check<RawTable> for BadType {
    ghost failing = { λ _ t. table_bad_types t };

    fn first<'a>(&self, table: &'a RawTable) -> Option<&'a JsonPointer> {
        let columns = &table.columns;
        first_in(self, columns.items.as_slice())
    }
}

pub(crate) fn bad_type_place(raw: &RawDesc) -> Option<&JsonPointer>
    ensures { option_copied result ≡ first (bad_types raw.now) }
{
    first_in(&BadType, raw.tables.as_slice())
}

/// Whether the column has this name.
pub(crate) fn is_column(column: &RawColumn, name: &[u8]) -> bool
    ensures { result ≡ bytes_eq column.now.name.text name.now }
{
    let own = &column.name;
    own.text.bytes() == name
}

fn find_column<'a>(columns: &'a [RawColumn], name: &[u8]) -> Option<&'a RawColumn>
    ensures { option_copied result ≡ find (λ c. bytes_eq c.name.text name.now) columns.now }
{
    columns.iter().find(|c| is_column(c, name))
}

/// The type of the column with this name, as it is written; nothing where there is no such column.
pub fn type_of<'a>(columns: &'a [RawColumn], name: &[u8]) -> &'a [u8]
    ensures { result.now ≡ type_of columns.now name.now }
{
    match find_column(columns, name) {
        Some(column) => {
            let kind = &column.kind;
            kind.text.bytes()
        }
        None => &[],
    }
}
