// The check of names.
#![tactic(auto, using(crate::proofs::FirstLemmas::first_append))]

ghost use Rattle.std.specs.Prelude.{◌≡◌, ℕ, List, [], ◌∷◌, ◌++◌, ◌==◌, Option};
ghost use Rattle.std.specs.List.{flat_map, list_all, position};
ghost use Rattle.std.specs.Option.{option_copied, option_or};
ghost use Rattle.desc_checks.specs.Firsts.{first, unless};
ghost use Rattle.desc_checks.specs.Groups.{of_group};
ghost use Rattle.desc_checks.specs.Names.{is_letter, is_name_byte, is_name, table_part, column_part, is_full_name, names_column, bad_name, bad_full_name, column_bad_names, table_bad_names, lookup_bad_names, dimension_bad_names, measure_bad_names, bad_names_of_tables, bad_names_of_columns, bad_names};

use crate::check::{Check, InGroups, first_in, or_first, place_unless};
use descriptor_json::{
    JsonPointer, RawColumn, RawDesc, RawDimension, RawLookup, RawMeasure, RawName, RawNamed,
    RawTable,
};

/// The most bytes of a name.
const NAME_MAX: usize = 64;

fn is_letter(b: u8) -> bool
    ensures { result ≡ is_letter b }
{
    b'A' <= b && b <= b'Z' || b == b'_'
}

fn is_name_byte(b: u8) -> bool
    ensures { result ≡ is_name_byte b }
{
    is_letter(b) || b'0' <= b && b <= b'9'
}

fn are_name_bytes(text: &[u8]) -> bool
    ensures { result ≡ list_all is_name_byte text.now }
{
    text.iter().all(|b| is_name_byte(*b))
}

#[tactic(auto, unfolding(crate::specs::Names::is_name))]
fn is_name(text: &[u8]) -> bool
    ensures { result ≡ is_name text.now }
{
    !text.is_empty() && text.len() <= NAME_MAX && is_letter(text[0]) && are_name_bytes(text)
}

fn point(text: &[u8]) -> Option<usize>
    ensures { result ≡ position (λ b. b == 46) text.now }
{
    text.iter().position(|b| *b == b'.')
}

/// The table and the column of a text `TABLE.COLUMN`. Of a text without a point the whole is the table, and the
/// column is empty.
pub fn parts(text: &[u8]) -> (&[u8], &[u8])
    ensures table { result.0.now ≡ table_part text.now }
    ensures column { result.1.now ≡ column_part text.now }
{
    match point(text) {
        Some(i) => (&text[..i], &text[i + 1..]),
        None => (text, &[]),
    }
}

fn is_full_name(text: &[u8]) -> bool
    ensures { result ≡ is_full_name text.now }
{
    let (table, column) = parts(text);
    is_name(table) && is_name(column)
}

/// Whether a text `TABLE.COLUMN` names this column of this table.
pub(crate) fn names_column(text: &[u8], table: &[u8], column: &[u8]) -> bool
    ensures { result ≡ names_column text.now table.now column.now }
{
    let (own_table, own_column) = parts(text);
    own_table == table && own_column == column
}

pub(crate) struct BadName;

impl Check<RawName> for BadName {
    ghost failing = { λ _ t. bad_name t };

    fn first<'a>(&self, name: &'a RawName) -> Option<&'a JsonPointer> {
        place_unless(is_name(name.text.bytes()), &name.place)
    }
}

impl Check<RawColumn> for BadName {
    ghost failing = { λ _ c. column_bad_names c };

    fn first<'a>(&self, column: &'a RawColumn) -> Option<&'a JsonPointer> {
        self.first(&column.name)
    }
}

impl Check<RawTable> for BadName {
    ghost failing = { λ _ t. table_bad_names t };

    fn first<'a>(&self, table: &'a RawTable) -> Option<&'a JsonPointer> {
        let columns = &table.columns;
        or_first(
            self.first(&table.name),
            first_in(self, columns.items.as_slice()),
        )
    }
}

impl Check<RawLookup> for BadName {
    ghost failing = { λ _ l. lookup_bad_names l };

    fn first<'a>(&self, lookup: &'a RawLookup) -> Option<&'a JsonPointer> {
        let join = &lookup.join;
        let to_primary = or_first(
            self.first(&lookup.table),
            first_in(self, join.primary.as_slice()),
        );
        or_first(to_primary, first_in(self, join.foreign.as_slice()))
    }
}

impl Check<RawDimension> for BadName {
    ghost failing = { λ _ d. dimension_bad_names d };

    fn first<'a>(&self, dimension: &'a RawDimension) -> Option<&'a JsonPointer> {
        or_first(
            self.first(&dimension.table),
            match &dimension.named {
                RawNamed::Column(name) => self.first(name),
                RawNamed::Derived(names) => first_in(self, names.as_slice()),
            },
        )
    }
}

impl Check<RawMeasure> for BadName {
    ghost failing = { λ _ m. measure_bad_names m };

    fn first<'a>(&self, measure: &'a RawMeasure) -> Option<&'a JsonPointer> {
        self.first(&measure.name)
    }
}

#[derive(Clone, Copy)]
pub(crate) struct BadFullName;

impl Check<RawName> for BadFullName {
    ghost failing = { λ _ t. bad_full_name t };

    fn first<'a>(&self, text: &'a RawName) -> Option<&'a JsonPointer> {
        place_unless(is_full_name(text.text.bytes()), &text.place)
    }
}

fn place_in_tables(raw: &RawDesc) -> Option<&JsonPointer>
    ensures { option_copied result ≡ first (bad_names_of_tables raw.now) }
{
    let (tables, lookups) = (&raw.tables, &raw.lookups);
    let to_tables = or_first(
        BadName.first(&raw.name),
        first_in(&BadName, tables.as_slice()),
    );
    let to_fact = or_first(to_tables, BadName.first(&raw.fact_table));
    or_first(to_fact, first_in(&BadName, lookups.items.as_slice()))
}

fn place_in_columns(raw: &RawDesc) -> Option<&JsonPointer>
    ensures { option_copied result ≡ first (bad_names_of_columns raw.now) }
{
    let (measures, rowkey) = (&raw.measures, &raw.rowkey);
    let to_dimensions = or_first(
        BadName.first(&raw.partition),
        first_in(&BadName, raw.dimensions.as_slice()),
    );
    let to_measures = or_first(to_dimensions, first_in(&BadName, measures.items.as_slice()));
    or_first(to_measures, first_in(&BadFullName, rowkey.items.as_slice()))
}

pub(crate) fn bad_name_place(raw: &RawDesc) -> Option<&JsonPointer>
    ensures { option_copied result ≡ first (bad_names raw.now) }
{
    let groups = &raw.groups;
    let check = InGroups {
        check: &BadFullName,
    };
    let to_columns = or_first(place_in_tables(raw), place_in_columns(raw));
    or_first(to_columns, first_in(&check, groups.items.as_slice()))
}
