// The check of columns that are named.
#![tactic(auto, using(crate::proofs::FirstLemmas::first_append))]

ghost use Rattle.std.specs.Prelude.{◌≡◌, ℕ, List, [], ◌∷◌, ◌++◌, Option, bytes_eq};
ghost use Rattle.std.specs.List.{flat_map, list_any, position};
ghost use Rattle.std.specs.Option.{option_copied, option_or};
ghost use Rattle.descriptor_json.specs.declared.raw.RawColumn.{RawColumn};
ghost use Rattle.desc_checks.specs.Firsts.{first, unless};
ghost use Rattle.desc_checks.specs.Groups.{of_group};
ghost use Rattle.desc_checks.specs.Columns.{has_column, no_column, lookup_no_column, dimension_no_column, takes_column, measure_no_column, text_no_column, no_columns};

use crate::check::{Check, InGroups, first_in, or_first, place_unless};
use crate::names::parts;
use crate::tables::{columns_named, fact_columns, lookup_columns};
use crate::types::is_column;
use descriptor_json::{
    JsonPointer, RawColumn, RawDesc, RawDimension, RawLookup, RawMeasure, RawName, RawNamed,
};

fn has_column(columns: &[RawColumn], name: &[u8]) -> bool
    ensures { result ≡ has_column columns.now name.now }
{
    columns.iter().any(|c| is_column(c, name))
}

/// The place of the column with this name among the columns.
pub fn column_number(columns: &[RawColumn], name: &[u8]) -> Option<usize>
    ensures { result ≡ position (λ c. bytes_eq c.name.text name.now) columns.now }
{
    columns.iter().position(|c| is_column(c, name))
}

/// A column that has to be among these.
#[derive(Clone, Copy)]
pub(crate) struct NoColumn<'a> {
    pub(crate) columns: &'a [RawColumn],
}

impl<'c> Check<RawName> for NoColumn<'c> {
    ghost failing = { λ s t. no_column s.columns.now t };

    fn first<'a>(&self, name: &'a RawName) -> Option<&'a JsonPointer> {
        place_unless(has_column(self.columns, name.text.bytes()), &name.place)
    }
}

fn first_missing<'a>(columns: &[RawColumn], names: &'a [RawName]) -> Option<&'a JsonPointer>
    ensures { option_copied result ≡ first (flat_map (no_column columns.now) names.now) }
{
    first_in(&NoColumn { columns }, names)
}

/// A column that has to be in the table that is named with it.
#[derive(Clone, Copy)]
pub(crate) struct NotInTable<'a> {
    pub(crate) raw: &'a RawDesc,
}

impl<'r> Check<RawLookup> for NotInTable<'r> {
    ghost failing = { λ s l. lookup_no_column s.raw.now l };

    fn first<'a>(&self, lookup: &'a RawLookup) -> Option<&'a JsonPointer> {
        let join = &lookup.join;
        let own = lookup_columns(self.raw, lookup);
        let fact = fact_columns(self.raw);
        or_first(
            first_missing(own, join.primary.as_slice()),
            first_missing(fact, join.foreign.as_slice()),
        )
    }
}

impl<'r> Check<RawDimension> for NotInTable<'r> {
    ghost failing = { λ s d. dimension_no_column s.raw.now d };

    fn first<'a>(&self, dimension: &'a RawDimension) -> Option<&'a JsonPointer> {
        let table = &dimension.table;
        let check = NoColumn {
            columns: columns_named(self.raw, table.text.bytes()),
        };
        match &dimension.named {
            RawNamed::Column(name) => check.first(name),
            RawNamed::Derived(names) => first_in(&check, names.as_slice()),
        }
    }
}

/// Whether the measure is of a column.
pub fn takes_column(measure: &RawMeasure) -> bool
    ensures { result ≡ takes_column measure.now }
{
    let function = &measure.function;
    let kind = &function.parameter.kind;
    kind.text.bytes() == b"column".as_slice()
}

impl<'r> Check<RawMeasure> for NotInTable<'r> {
    ghost failing = { λ s m. measure_no_column s.raw.now m };

    fn first<'a>(&self, measure: &'a RawMeasure) -> Option<&'a JsonPointer> {
        let function = &measure.function;
        let value = &function.parameter.value;
        place_unless(
            !takes_column(measure) || has_column(fact_columns(self.raw), value.text.bytes()),
            &value.place,
        )
    }
}

impl<'r> Check<RawName> for NotInTable<'r> {
    ghost failing = { λ s t. text_no_column s.raw.now t };

    fn first<'a>(&self, text: &'a RawName) -> Option<&'a JsonPointer> {
        let (table, column) = parts(text.text.bytes());
        place_unless(
            has_column(columns_named(self.raw, table), column),
            &text.place,
        )
    }
}

pub(crate) fn no_column_place(raw: &RawDesc) -> Option<&JsonPointer>
    ensures { option_copied result ≡ first (no_columns raw.now) }
{
    let (lookups, measures) = (&raw.lookups, &raw.measures);
    let (rowkey, groups) = (&raw.rowkey, &raw.groups);
    let check = NotInTable { raw };
    let in_fact = NoColumn {
        columns: fact_columns(raw),
    };
    let to_partition = or_first(
        first_in(&check, lookups.items.as_slice()),
        in_fact.first(&raw.partition),
    );
    let to_dimensions = or_first(to_partition, first_in(&check, raw.dimensions.as_slice()));
    let to_measures = or_first(to_dimensions, first_in(&check, measures.items.as_slice()));
    let to_rowkey = or_first(to_measures, first_in(&check, rowkey.items.as_slice()));
    let in_groups = InGroups { check: &check };
    or_first(to_rowkey, first_in(&in_groups, groups.items.as_slice()))
}
