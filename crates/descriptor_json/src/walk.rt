// The walk over the parts of a descriptor, one line a key.

ghost use Rattle.std.specs.Prelude.{◌≡◌, ℕ, List, [], Some, None, codes};
ghost use Rattle.serde_json.specs.Data.{Data};
ghost use Rattle.serde_json.specs.View.{view};
ghost use Rattle.descriptor_json.specs.Readings.{Reading, number_of, number_at};
ghost use Rattle.descriptor_json.specs.Tells.{Tells};
ghost use Rattle.descriptor_json.specs.Walk.{column_at, table_at, join_at, lookup_at, dimension_at, dimension_with, parameter_at, function_at, measure_at, rule_at, group_at};

use crate::place::JsonPointer;
use crate::raw::{
    RawColumn, RawDimension, RawFunction, RawGroup, RawJoin, RawLookup, RawMeasure, RawNamed,
    RawNumber, RawParameter, RawRule, RawTable,
};
use crate::reading::{Shaped, Stop, read_member, read_or};
use cube_val::Items;
use serde_json::Value;
use std::alloc::Global;

impl Shaped for RawColumn {
    ghost shape = { column_at };

    fn read(alloc: Global, value: &Value, place: JsonPointer) -> Result<RawColumn, Stop> {
        if !value.is_object() {
            return Err(Stop::At(place));
        }
        let name = read_member(alloc, value, &place, "name")?;
        let kind = read_member(alloc, value, &place, "type")?;
        Ok(RawColumn { place, name, kind })
    }
}

impl Shaped for RawTable {
    ghost shape = { table_at };

    fn read(alloc: Global, value: &Value, place: JsonPointer) -> Result<RawTable, Stop> {
        if !value.is_object() {
            return Err(Stop::At(place));
        }
        let name = read_member(alloc, value, &place, "name")?;
        let columns = read_member(alloc, value, &place, "columns")?;
        Ok(RawTable {
            place,
            name,
            columns,
        })
    }
}

impl Shaped for RawJoin {
    ghost shape = { join_at };

    fn read(alloc: Global, value: &Value, place: JsonPointer) -> Result<RawJoin, Stop> {
        if !value.is_object() {
            return Err(Stop::At(place));
        }
        let kind = read_member(alloc, value, &place, "type")?;
        let primary = read_member(alloc, value, &place, "primary_key")?;
        let foreign = read_member(alloc, value, &place, "foreign_key")?;
        Ok(RawJoin {
            place,
            kind,
            primary,
            foreign,
        })
    }
}

impl Shaped for RawLookup {
    ghost shape = { lookup_at };

    fn read(alloc: Global, value: &Value, place: JsonPointer) -> Result<RawLookup, Stop> {
        if !value.is_object() {
            return Err(Stop::At(place));
        }
        let table = read_member(alloc, value, &place, "table")?;
        let join = read_member(alloc, value, &place, "join")?;
        Ok(RawLookup { place, table, join })
    }
}

fn read_dimension(
    alloc: Global,
    value: &Value,
    place: JsonPointer,
    has_column: bool,
    has_derived: bool,
) -> Result<RawDimension, Stop>
    ensures { Tells result (dimension_with has_column has_derived place (view value.now)) }
{
    if has_column == has_derived {
        return Err(Stop::At(place));
    }
    let table = read_member(alloc, value, &place, "table")?;
    let named = if has_column {
        RawNamed::Column(read_member(alloc, value, &place, "column")?)
    } else {
        RawNamed::Derived(read_member(alloc, value, &place, "derived")?)
    };
    Ok(RawDimension {
        place,
        table,
        named,
    })
}

impl Shaped for RawDimension {
    ghost shape = { dimension_at };

    fn read(alloc: Global, value: &Value, place: JsonPointer) -> Result<RawDimension, Stop> {
        if !value.is_object() {
            return Err(Stop::At(place));
        }
        let has_column = value.get("column").is_some();
        let has_derived = value.get("derived").is_some();
        read_dimension(alloc, value, place, has_column, has_derived)
    }
}

impl Shaped for RawParameter {
    ghost shape = { parameter_at };

    fn read(alloc: Global, value: &Value, place: JsonPointer) -> Result<RawParameter, Stop> {
        if !value.is_object() {
            return Err(Stop::At(place));
        }
        let kind = read_member(alloc, value, &place, "type")?;
        let value = read_member(alloc, value, &place, "value")?;
        Ok(RawParameter { kind, value })
    }
}

impl Shaped for RawFunction {
    ghost shape = { function_at };

    fn read(alloc: Global, value: &Value, place: JsonPointer) -> Result<RawFunction, Stop> {
        if !value.is_object() {
            return Err(Stop::At(place));
        }
        let expression = read_member(alloc, value, &place, "expression")?;
        let parameter = read_member(alloc, value, &place, "parameter")?;
        Ok(RawFunction {
            expression,
            parameter,
        })
    }
}

impl Shaped for RawMeasure {
    ghost shape = { measure_at };

    fn read(alloc: Global, value: &Value, place: JsonPointer) -> Result<RawMeasure, Stop> {
        if !value.is_object() {
            return Err(Stop::At(place));
        }
        let name = read_member(alloc, value, &place, "name")?;
        let function = read_member(alloc, value, &place, "function")?;
        Ok(RawMeasure {
            place,
            name,
            function,
        })
    }
}

// The number as it is, where it is whole and not too great.
fn number_of(number: Option<u64>) -> RawNumber
    ensures { result ≡ number_of number }
{
    match number {
        Some(number) => {
            if number < 1 << 32 {
                RawNumber::Whole(number as u32)
            } else {
                RawNumber::Other
            }
        }
        None => RawNumber::Other,
    }
}

impl Shaped for Option<RawNumber> {
    ghost shape = { number_at };

    fn read(_alloc: Global, value: &Value, place: JsonPointer) -> Result<Option<RawNumber>, Stop> {
        if !value.is_number() {
            return Err(Stop::At(place));
        }
        Ok(Some(number_of(value.as_u64())))
    }
}

impl Shaped for RawRule {
    ghost shape = { rule_at };

    fn read(alloc: Global, value: &Value, place: JsonPointer) -> Result<RawRule, Stop> {
        if !value.is_object() {
            return Err(Stop::At(place));
        }
        let mandatory = read_or(alloc, value, &place, "mandatory_dims", Items::new(alloc))?;
        let hierarchies = read_or(alloc, value, &place, "hierarchy_dims", Items::new(alloc))?;
        let joints = read_or(alloc, value, &place, "joint_dims", Items::new(alloc))?;
        let cap = read_or(alloc, value, &place, "dim_cap", None)?;
        Ok(RawRule {
            mandatory,
            hierarchies,
            joints,
            cap,
        })
    }
}

impl Shaped for RawGroup {
    ghost shape = { group_at };

    fn read(alloc: Global, value: &Value, place: JsonPointer) -> Result<RawGroup, Stop> {
        if !value.is_object() {
            return Err(Stop::At(place));
        }
        let includes = read_member(alloc, value, &place, "includes")?;
        let absent = RawRule {
            mandatory: Items::new(alloc),
            hierarchies: Items::new(alloc),
            joints: Items::new(alloc),
            cap: None,
        };
        let rule = read_or(alloc, value, &place, "select_rule", absent)?;
        Ok(RawGroup {
            place,
            includes,
            rule,
        })
    }
}
