// The check of tables that are named.
#![tactic(auto, using(crate::proofs::FirstLemmas::first_append))]

ghost use Rattle.std.specs.Prelude.{◌≡◌, ℕ, List, [], ◌∷◌, ◌++◌, Option, bytes_eq};
ghost use Rattle.std.specs.List.{flat_map, find, list_any};
ghost use Rattle.std.specs.Option.{option_copied, option_or};
ghost use Rattle.desc_checks.specs.Firsts.{first, unless};
ghost use Rattle.desc_checks.specs.Groups.{of_group};
ghost use Rattle.desc_checks.specs.Tables.{has_table, is_joined, columns_of, fact_columns, no_table, lookup_no_table, dimension_no_table, text_no_table, no_tables};

use crate::check::{Check, InGroups, first_in, or_first, place_unless};
use crate::names::parts;
use descriptor_json::{
    JsonPointer, RawColumn, RawDesc, RawDimension, RawLookup, RawName, RawTable,
};

fn is_table(table: &RawTable, name: &[u8]) -> bool
    ensures { result ≡ bytes_eq table.now.name.text name.now }
{
    let own = &table.name;
    own.text.bytes() == name
}

/// Whether the lookup is of the table with this name.
pub(crate) fn is_lookup(lookup: &RawLookup, name: &[u8]) -> bool
    ensures { result ≡ bytes_eq lookup.now.table.text name.now }
{
    let own = &lookup.table;
    own.text.bytes() == name
}

fn has_lookup(lookups: &[RawLookup], name: &[u8]) -> bool
    ensures { result ≡ list_any (λ l. bytes_eq l.table.text name.now) lookups.now }
{
    lookups.iter().any(|l| is_lookup(l, name))
}

fn has_table(raw: &RawDesc, name: &[u8]) -> bool
    ensures { result ≡ has_table raw.now name.now }
{
    raw.tables.as_slice().iter().any(|t| is_table(t, name))
}

fn is_joined(raw: &RawDesc, name: &[u8]) -> bool
    ensures { result ≡ is_joined raw.now name.now }
{
    let (fact, lookups) = (&raw.fact_table, &raw.lookups);
    fact.text.bytes() == name || has_lookup(lookups.items.as_slice(), name)
}

fn find_table<'a>(tables: &'a [RawTable], name: &[u8]) -> Option<&'a RawTable>
    ensures { option_copied result ≡ find (λ t. bytes_eq t.name.text name.now) tables.now }
{
    tables.iter().find(|t| is_table(t, name))
}

/// The columns of the table with this name; none where there is no such table.
pub fn columns_named<'a>(raw: &'a RawDesc, name: &[u8]) -> &'a [RawColumn]
    ensures { result.now ≡ columns_of raw.now name.now }
{
    match find_table(raw.tables.as_slice(), name) {
        Some(table) => {
            let columns = &table.columns;
            columns.items.as_slice()
        }
        None => &[],
    }
}

/// The columns of the fact table.
pub fn fact_columns(raw: &RawDesc) -> &[RawColumn]
    ensures { result.now ≡ fact_columns raw.now }
{
    let fact = &raw.fact_table;
    columns_named(raw, fact.text.bytes())
}

/// The columns of a lookup.
pub fn lookup_columns<'a>(raw: &'a RawDesc, lookup: &RawLookup) -> &'a [RawColumn]
    ensures { result.now ≡ columns_of raw.now lookup.now.table.text }
{
    let table = &lookup.table;
    columns_named(raw, table.text.bytes())
}

/// A table that has to be among the tables.
#[derive(Clone, Copy)]
pub(crate) struct NoTable<'a> {
    pub(crate) raw: &'a RawDesc,
}

impl<'r> Check<RawName> for NoTable<'r> {
    ghost failing = { λ s t. no_table s.raw.now t };

    fn first<'a>(&self, name: &'a RawName) -> Option<&'a JsonPointer> {
        place_unless(has_table(self.raw, name.text.bytes()), &name.place)
    }
}

impl<'r> Check<RawLookup> for NoTable<'r> {
    ghost failing = { λ s l. lookup_no_table s.raw.now l };

    fn first<'a>(&self, lookup: &'a RawLookup) -> Option<&'a JsonPointer> {
        self.first(&lookup.table)
    }
}

/// A table that has to be the fact table or a lookup too.
#[derive(Clone, Copy)]
pub(crate) struct NotJoined<'a> {
    pub(crate) raw: &'a RawDesc,
}

impl<'r> Check<RawDimension> for NotJoined<'r> {
    ghost failing = { λ s d. dimension_no_table s.raw.now d };

    fn first<'a>(&self, dimension: &'a RawDimension) -> Option<&'a JsonPointer> {
        let table = &dimension.table;
        let name = table.text.bytes();
        place_unless(
            has_table(self.raw, name) && is_joined(self.raw, name),
            &table.place,
        )
    }
}

impl<'r> Check<RawName> for NotJoined<'r> {
    ghost failing = { λ s t. text_no_table s.raw.now t };

    fn first<'a>(&self, text: &'a RawName) -> Option<&'a JsonPointer> {
        let (name, _) = parts(text.text.bytes());
        place_unless(
            has_table(self.raw, name) && is_joined(self.raw, name),
            &text.place,
        )
    }
}

pub(crate) fn no_table_place(raw: &RawDesc) -> Option<&JsonPointer>
    ensures { option_copied result ≡ first (no_tables raw.now) }
{
    let (lookups, rowkey, groups) = (&raw.lookups, &raw.rowkey, &raw.groups);
    let (there, joined) = (NoTable { raw }, NotJoined { raw });
    let to_lookups = or_first(
        there.first(&raw.fact_table),
        first_in(&there, lookups.items.as_slice()),
    );
    let to_dimensions = or_first(to_lookups, first_in(&joined, raw.dimensions.as_slice()));
    let to_rowkey = or_first(to_dimensions, first_in(&joined, rowkey.items.as_slice()));
    let in_groups = InGroups { check: &joined };
    or_first(to_rowkey, first_in(&in_groups, groups.items.as_slice()))
}
