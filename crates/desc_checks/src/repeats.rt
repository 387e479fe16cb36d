// The check of names that come twice.
#![tactic(auto, using(crate::proofs::FirstLemmas::first_append))]

ghost use Rattle.std.specs.Prelude.{◌≡◌, ℕ, List, [], ◌∷◌, ◌++◌, Option, Bool, map, IfOk, OnOk};
ghost use Rattle.std.specs.List.{flat_map};
ghost use Rattle.std.specs.Option.{option_copied, option_or};
ghost use Rattle.desc_checks.specs.Firsts.{first, unless, along};
ghost use Rattle.desc_checks.specs.Seen.{HasSeen};
ghost use Rattle.desc_checks.specs.Repeats.{column_name, column_twice, table_name, table_twice, lookup_name, lookup_twice, text_of, text_twice, in_table, named_columns, dimension_columns, measure_name, measure_twice, tables_twice, dimensions_twice, measures_twice, twice};

use crate::along::{Along, first_along, first_from_start};
use crate::check::{or_first, place_unless};
use crate::seen::Seen;
use cube_val::NameText;
use descriptor_json::{
    JsonPointer, RawColumn, RawDesc, RawDimension, RawLookup, RawMeasure, RawName, RawNamed,
    RawTable,
};
use std::alloc::{AllocError, Global};

fn copied(alloc: Global, text: &NameText) -> Result<Vec<u8>, AllocError>
    ensures { IfOk result (λ v. v.items ≡ text.now) }
{
    Vec::from_slice(alloc, text.bytes())
}

pub(crate) struct Twice;

impl Along<RawColumn> for Twice {
    ghost text = { λ _ c. column_name c };

    ghost failing = { λ _ is_new c. column_twice is_new c };

    fn text_of(&self, alloc: Global, column: &RawColumn) -> Result<Vec<u8>, AllocError> {
        let name = &column.name;
        copied(alloc, &name.text)
    }

    fn first<'a>(
        &self,
        _alloc: Global,
        is_new: bool,
        column: &'a RawColumn,
    ) -> Result<Option<&'a JsonPointer>, AllocError> {
        Ok(place_unless(is_new, &column.place))
    }
}

impl Along<RawTable> for Twice {
    ghost text = { λ _ t. table_name t };

    ghost failing = { λ _ is_new t. table_twice is_new t };

    fn text_of(&self, alloc: Global, table: &RawTable) -> Result<Vec<u8>, AllocError> {
        let name = &table.name;
        copied(alloc, &name.text)
    }

    fn first<'a>(
        &self,
        alloc: Global,
        is_new: bool,
        table: &'a RawTable,
    ) -> Result<Option<&'a JsonPointer>, AllocError> {
        let columns = &table.columns;
        let in_columns = first_from_start(alloc, self, columns.items.as_slice())?;
        Ok(or_first(place_unless(is_new, &table.place), in_columns))
    }
}

impl Along<RawLookup> for Twice {
    ghost text = { λ _ l. lookup_name l };

    ghost failing = { λ _ is_new l. lookup_twice is_new l };

    fn text_of(&self, alloc: Global, lookup: &RawLookup) -> Result<Vec<u8>, AllocError> {
        let table = &lookup.table;
        copied(alloc, &table.text)
    }

    fn first<'a>(
        &self,
        _alloc: Global,
        is_new: bool,
        lookup: &'a RawLookup,
    ) -> Result<Option<&'a JsonPointer>, AllocError> {
        Ok(place_unless(is_new, &lookup.place))
    }
}

impl Along<RawName> for Twice {
    ghost text = { λ _ t. text_of t };

    ghost failing = { λ _ is_new t. text_twice is_new t };

    fn text_of(&self, alloc: Global, name: &RawName) -> Result<Vec<u8>, AllocError> {
        copied(alloc, &name.text)
    }

    fn first<'a>(
        &self,
        _alloc: Global,
        is_new: bool,
        name: &'a RawName,
    ) -> Result<Option<&'a JsonPointer>, AllocError> {
        Ok(place_unless(is_new, &name.place))
    }
}

impl Along<RawMeasure> for Twice {
    ghost text = { λ _ m. measure_name m };

    ghost failing = { λ _ is_new m. measure_twice is_new m };

    fn text_of(&self, alloc: Global, measure: &RawMeasure) -> Result<Vec<u8>, AllocError> {
        let name = &measure.name;
        copied(alloc, &name.text)
    }

    fn first<'a>(
        &self,
        _alloc: Global,
        is_new: bool,
        measure: &'a RawMeasure,
    ) -> Result<Option<&'a JsonPointer>, AllocError> {
        Ok(place_unless(is_new, &measure.place))
    }
}

/// A column with its table, as the rowkey writes it.
fn in_table(
    alloc: Global,
    table: &RawName,
    name: &RawName,
    place: &JsonPointer,
) -> Result<RawName, AllocError>
    ensures { IfOk result (λ t. t ≡ in_table table.now name.now place.now) }
{
    let mut bytes = copied(alloc, &table.text)?;
    bytes.push(b'.')?;
    bytes.extend_from_slice(name.text.bytes())?;
    let text = NameText::new(alloc, bytes.as_slice())?;
    let place = place.copy(alloc)?;
    Ok(RawName { text, place })
}

fn push_derived(
    alloc: Global,
    columns: &mut Vec<RawName>,
    table: &RawName,
    names: &[RawName],
) -> Result<(), AllocError>
    ensures { OnOk result (columns.new.items ≡ columns.old.items ++ map (λ t. in_table table.now t t.place) names.now) }
{
    for name in names {
        let column = in_table(alloc, table, name, &name.place)?;
        columns.push(column)?;
    }
    Ok(())
}

fn push_columns(
    alloc: Global,
    columns: &mut Vec<RawName>,
    dimension: &RawDimension,
) -> Result<(), AllocError>
    ensures { OnOk result (columns.new.items ≡ columns.old.items ++ dimension_columns dimension.now) }
{
    match &dimension.named {
        RawNamed::Column(name) => {
            let column = in_table(alloc, &dimension.table, name, &dimension.place)?;
            columns.push(column)?;
            Ok(())
        }
        RawNamed::Derived(names) => {
            push_derived(alloc, columns, &dimension.table, names.as_slice())
        }
    }
}

fn columns_of(alloc: Global, dimensions: &[RawDimension]) -> Result<Vec<RawName>, AllocError>
    ensures { IfOk result (λ v. v.items ≡ flat_map dimension_columns dimensions.now) }
{
    let mut columns = Vec::new(alloc);
    for dimension in dimensions {
        push_columns(alloc, &mut columns, dimension)?;
    }
    Ok(columns)
}

fn lookups_place<'a>(alloc: Global, raw: &'a RawDesc) -> Result<Option<&'a JsonPointer>, AllocError>
    ensures { IfOk result (λ o. option_copied o ≡ first (along lookup_name lookup_twice (raw.now.fact_table.text ∷ []) raw.now.lookups.items)) }
{
    let (fact, lookups) = (&raw.fact_table, &raw.lookups);
    let mut seen = Seen::new(alloc);
    let text = copied(alloc, &fact.text)?;
    let _is_new = seen.add(text)?;
    first_along(alloc, &Twice, seen, lookups.items.as_slice())
}

fn tables_place<'a>(alloc: Global, raw: &'a RawDesc) -> Result<Option<&'a JsonPointer>, AllocError>
    ensures { IfOk result (λ o. option_copied o ≡ first (tables_twice raw.now)) }
{
    let in_tables = first_from_start(alloc, &Twice, raw.tables.as_slice())?;
    let in_lookups = lookups_place(alloc, raw)?;
    Ok(or_first(in_tables, in_lookups))
}

/// The place, as one of its own.
pub(crate) fn owned(
    alloc: Global,
    place: Option<&JsonPointer>,
) -> Result<Option<JsonPointer>, AllocError>
    ensures { IfOk result (λ o. o ≡ option_copied place.entry) }
{
    match place {
        Some(place) => {
            let own = place.copy(alloc)?;
            Ok(Some(own))
        }
        None => Ok(None),
    }
}

fn dimensions_place(alloc: Global, raw: &RawDesc) -> Result<Option<JsonPointer>, AllocError>
    ensures { IfOk result (λ o. o ≡ first (dimensions_twice raw.now)) }
{
    let columns = columns_of(alloc, raw.dimensions.as_slice())?;
    let place = first_from_start(alloc, &Twice, columns.as_slice())?;
    owned(alloc, place)
}

fn measures_place<'a>(
    alloc: Global,
    raw: &'a RawDesc,
) -> Result<Option<&'a JsonPointer>, AllocError>
    ensures { IfOk result (λ o. option_copied o ≡ first (measures_twice raw.now)) }
{
    let (measures, rowkey) = (&raw.measures, &raw.rowkey);
    let in_measures = first_from_start(alloc, &Twice, measures.items.as_slice())?;
    let in_rowkey = first_from_start(alloc, &Twice, rowkey.items.as_slice())?;
    Ok(or_first(in_measures, in_rowkey))
}

/// The first place of a name that comes twice.
pub(crate) fn twice_place(alloc: Global, raw: &RawDesc) -> Result<Option<JsonPointer>, AllocError>
    ensures { IfOk result (λ o. o ≡ first (twice raw.now)) }
{
    let in_tables = tables_place(alloc, raw)?;
    let in_measures = measures_place(alloc, raw)?;
    let in_dimensions = dimensions_place(alloc, raw)?;
    let to_dimensions = or_first(in_tables, in_dimensions.as_ref());
    owned(alloc, or_first(to_dimensions, in_measures))
}
