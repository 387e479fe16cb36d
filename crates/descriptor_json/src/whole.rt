// The walk over a whole descriptor, in three parts.

ghost use Rattle.std.specs.Prelude.{◌≡◌, ℕ, List, [], codes};
ghost use Rattle.serde_json.specs.Data.{Data};
ghost use Rattle.serde_json.specs.View.{view};
ghost use Rattle.descriptor_json.specs.Readings.{Reading, optional_at};
ghost use Rattle.descriptor_json.specs.Tells.{Tells};
ghost use Rattle.descriptor_json.specs.Walk.{tables_at, columns_at, groups_at, desc_at};

use crate::place::JsonPointer;
use crate::raw::{
    RawDesc, RawDimension, RawGroup, RawList, RawLookup, RawMeasure, RawName, RawTable,
};
use crate::reading::{Shaped, Stop, read_member, read_or};
use cube_val::Items;
use serde_json::Value;
use std::alloc::Global;

/// The cube's name, its tables, and which of them are the fact table and lookups.
#[derive(Drop)]
pub(crate) struct RawTables {
    pub(crate) name: RawName,
    pub(crate) tables: Items<RawTable>,
    pub(crate) fact_table: RawName,
    pub(crate) lookups: RawList<RawLookup>,
}

/// The columns that the cube counts by, and what it measures.
#[derive(Drop)]
pub(crate) struct RawColumns {
    pub(crate) partition: RawName,
    pub(crate) dimensions: Items<RawDimension>,
    pub(crate) measures: RawList<RawMeasure>,
}

/// The rowkey and the aggregation groups.
#[derive(Drop)]
pub(crate) struct RawGroups {
    pub(crate) rowkey: RawList<RawName>,
    pub(crate) groups: RawList<RawGroup>,
}

/// The list at a key that may be absent, with its place.
fn read_optional<T: Shaped + Drop>(
    alloc: Global,
    value: &Value,
    place: &JsonPointer,
    key: &str,
) -> Result<RawList<T>, Stop>
    ensures { Tells result (optional_at T.shape key.now place.now (view value.now)) }
{
    let absent = RawList {
        place: place.key(alloc, key)?,
        items: Items::new(alloc),
    };
    read_or(alloc, value, place, key, absent)
}

fn read_tables(alloc: Global, value: &Value, place: &JsonPointer) -> Result<RawTables, Stop>
    ensures { Tells result (tables_at place.now (view value.now)) }
{
    let name = read_member(alloc, value, place, "name")?;
    let tables = read_member(alloc, value, place, "tables")?;
    let fact_table = read_member(alloc, value, place, "fact_table")?;
    let lookups = read_optional(alloc, value, place, "lookups")?;
    Ok(RawTables {
        name,
        tables,
        fact_table,
        lookups,
    })
}

fn read_columns(alloc: Global, value: &Value, place: &JsonPointer) -> Result<RawColumns, Stop>
    ensures { Tells result (columns_at place.now (view value.now)) }
{
    let partition = read_member(alloc, value, place, "partition_date_column")?;
    let dimensions = read_member(alloc, value, place, "dimensions")?;
    let measures = read_member(alloc, value, place, "measures")?;
    Ok(RawColumns {
        partition,
        dimensions,
        measures,
    })
}

fn read_groups(alloc: Global, value: &Value, place: &JsonPointer) -> Result<RawGroups, Stop>
    ensures { Tells result (groups_at place.now (view value.now)) }
{
    let rowkey = read_member(alloc, value, place, "rowkey")?;
    let groups = read_optional(alloc, value, place, "aggregation_groups")?;
    Ok(RawGroups { rowkey, groups })
}

/// The descriptor of its three parts.
fn desc_of(of_tables: RawTables, of_columns: RawColumns, of_groups: RawGroups) -> RawDesc
    ensures { result ≡ record {
      name = of_tables.name;
      tables = of_tables.tables;
      fact_table = of_tables.fact_table;
      lookups = of_tables.lookups;
      partition = of_columns.partition;
      dimensions = of_columns.dimensions;
      measures = of_columns.measures;
      rowkey = of_groups.rowkey;
      groups = of_groups.groups;
    } }
{
    RawDesc {
        name: of_tables.name,
        tables: of_tables.tables,
        fact_table: of_tables.fact_table,
        lookups: of_tables.lookups,
        partition: of_columns.partition,
        dimensions: of_columns.dimensions,
        measures: of_columns.measures,
        rowkey: of_groups.rowkey,
        groups: of_groups.groups,
    }
}

impl Shaped for RawDesc {
    ghost shape = { desc_at };

    fn read(alloc: Global, value: &Value, place: JsonPointer) -> Result<RawDesc, Stop> {
        if !value.is_object() {
            return Err(Stop::At(place));
        }
        let of_tables = read_tables(alloc, value, &place)?;
        let of_columns = read_columns(alloc, value, &place)?;
        let of_groups = read_groups(alloc, value, &place)?;
        Ok(desc_of(of_tables, of_columns, of_groups))
    }
}
