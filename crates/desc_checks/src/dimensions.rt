// The checks of dimensions and of the rowkey that they need.
#![tactic(auto, using(crate::proofs::FirstLemmas::first_append))]

ghost use Rattle.std.specs.Prelude.{◌≡◌, ℕ, List, [], ◌∷◌, ◌++◌, Option, bytes_eq};
ghost use Rattle.std.specs.List.{flat_map, list_all, list_any, find};
ghost use Rattle.std.specs.Option.{option_copied, option_or};
ghost use Rattle.descriptor_json.specs.declared.raw.RawName.{RawName};
ghost use Rattle.desc_checks.specs.Firsts.{first, unless};
ghost use Rattle.desc_checks.specs.Names.{names_column};
ghost use Rattle.desc_checks.specs.Dimensions.{is_derivable, bad_dimension, bad_dimensions, foreign_key, in_rowkey, has_rowkey, needs, dimension_bad_rowkey, text_bad_rowkey, bad_rowkey};

use crate::check::{Check, first_in, or_first, place_unless};
use crate::names::names_column;
use crate::tables::is_lookup;
use descriptor_json::{JsonPointer, RawDesc, RawDimension, RawLookup, RawName, RawNamed};

fn is_derivable(raw: &RawDesc, table: &RawName, named: &RawNamed) -> bool
    ensures { result ≡ is_derivable raw.now table.now named.now }
{
    let fact = &raw.fact_table;
    match named {
        RawNamed::Column(_) => true,
        RawNamed::Derived(names) => table.text.bytes() != fact.text.bytes() && !names.is_empty(),
    }
}

#[derive(Clone, Copy)]
pub(crate) struct BadDimension<'a> {
    pub(crate) raw: &'a RawDesc,
}

impl<'r> Check<RawDimension> for BadDimension<'r> {
    ghost failing = { λ s d. bad_dimension s.raw.now d };

    fn first<'a>(&self, dimension: &'a RawDimension) -> Option<&'a JsonPointer> {
        place_unless(
            is_derivable(self.raw, &dimension.table, &dimension.named),
            &dimension.place,
        )
    }
}

pub(crate) fn bad_dimension_place(raw: &RawDesc) -> Option<&JsonPointer>
    ensures { option_copied result ≡ first (bad_dimensions raw.now) }
{
    first_in(&BadDimension { raw }, raw.dimensions.as_slice())
}

fn find_lookup<'a>(lookups: &'a [RawLookup], name: &[u8]) -> Option<&'a RawLookup>
    ensures { option_copied result ≡ find (λ l. bytes_eq l.table.text name.now) lookups.now }
{
    lookups.iter().find(|l| is_lookup(l, name))
}

fn foreign_key<'a>(raw: &'a RawDesc, name: &[u8]) -> &'a [RawName]
    ensures { result.now ≡ foreign_key raw.now name.now }
{
    let lookups = &raw.lookups;
    match find_lookup(lookups.items.as_slice(), name) {
        Some(lookup) => {
            let join = &lookup.join;
            join.foreign.as_slice()
        }
        None => &[],
    }
}

fn some_names(texts: &[RawName], table: &[u8], column: &[u8]) -> bool
    ensures { result ≡ list_any (λ t. names_column t.text table.now column.now) texts.now }
{
    texts
        .iter()
        .any(|t| names_column(t.text.bytes(), table, column))
}

fn in_rowkey(raw: &RawDesc, table: &[u8], column: &[u8]) -> bool
    ensures { result ≡ in_rowkey raw.now table.now column.now }
{
    let rowkey = &raw.rowkey;
    some_names(rowkey.items.as_slice(), table, column)
}

fn all_in_rowkey(raw: &RawDesc, columns: &[RawName]) -> bool
    ensures { result ≡ list_all (λ f. in_rowkey raw.now raw.now.fact_table.text f.text) columns.now }
{
    let fact = &raw.fact_table;
    columns
        .iter()
        .all(|f| in_rowkey(raw, fact.text.bytes(), f.text.bytes()))
}

fn has_rowkey(raw: &RawDesc, table: &RawName, named: &RawNamed) -> bool
    ensures { result ≡ has_rowkey raw.now table.now named.now }
{
    match named {
        RawNamed::Column(name) => in_rowkey(raw, table.text.bytes(), name.text.bytes()),
        RawNamed::Derived(_) => all_in_rowkey(raw, foreign_key(raw, table.text.bytes())),
    }
}

fn is_foreign(raw: &RawDesc, text: &[u8], columns: &[RawName]) -> bool
    ensures { result ≡ list_any (λ f. names_column text.now raw.now.fact_table.text f.text) columns.now }
{
    let fact = &raw.fact_table;
    columns
        .iter()
        .any(|f| names_column(text, fact.text.bytes(), f.text.bytes()))
}

fn needs(raw: &RawDesc, text: &RawName, dimension: &RawDimension) -> bool
    ensures { result ≡ needs raw.now text.now dimension.now.table dimension.now.named }
{
    let table = &dimension.table;
    let own = text.text.bytes();
    match &dimension.named {
        RawNamed::Column(name) => names_column(own, table.text.bytes(), name.text.bytes()),
        RawNamed::Derived(_) => is_foreign(raw, own, foreign_key(raw, table.text.bytes())),
    }
}

fn some_needs(raw: &RawDesc, text: &RawName) -> bool
    ensures { result ≡ list_any (λ d. needs raw.now text.now d.table d.named) raw.now.dimensions }
{
    raw.dimensions
        .as_slice()
        .iter()
        .any(|d| needs(raw, text, d))
}

#[derive(Clone, Copy)]
pub(crate) struct BadRowkey<'a> {
    pub(crate) raw: &'a RawDesc,
}

impl<'r> Check<RawDimension> for BadRowkey<'r> {
    ghost failing = { λ s d. dimension_bad_rowkey s.raw.now d };

    fn first<'a>(&self, dimension: &'a RawDimension) -> Option<&'a JsonPointer> {
        place_unless(
            has_rowkey(self.raw, &dimension.table, &dimension.named),
            &dimension.place,
        )
    }
}

impl<'r> Check<RawName> for BadRowkey<'r> {
    ghost failing = { λ s t. text_bad_rowkey s.raw.now t };

    fn first<'a>(&self, text: &'a RawName) -> Option<&'a JsonPointer> {
        place_unless(some_needs(self.raw, text), &text.place)
    }
}

pub(crate) fn bad_rowkey_place(raw: &RawDesc) -> Option<&JsonPointer>
    ensures { option_copied result ≡ first (bad_rowkey raw.now) }
{
    let rowkey = &raw.rowkey;
    let check = BadRowkey { raw };
    or_first(
        first_in(&check, raw.dimensions.as_slice()),
        first_in(&check, rowkey.items.as_slice()),
    )
}
