// A descriptor's texts with their places, in the order of the walk.

use crate::place::JsonPointer;
use cube_val::{Items, NameText};

/// A text that is compared with case: a type, a function, a kind of join.
#[derive(Drop)]
pub struct RawWord {
    /// The bytes of the text.
    pub text: NameText,
    /// Where it stands.
    pub place: JsonPointer,
}

/// A text that is compared without regard to ASCII case.
#[derive(Drop)]
pub struct RawName {
    /// The bytes of the text, in ASCII upper case.
    pub text: NameText,
    /// Where it stands.
    pub place: JsonPointer,
}

/// A list that has a place of its own.
#[derive(Drop)]
pub struct RawList<T> {
    /// Where the list stands, or would stand if it isn't there.
    pub place: JsonPointer,
    /// Its items. There are none where an optional list isn't there.
    pub items: Items<T>,
}

/// A column of a table.
#[derive(Drop)]
pub struct RawColumn {
    /// Where the column stands.
    pub place: JsonPointer,
    /// Its name.
    pub name: RawName,
    /// Its type.
    pub kind: RawWord,
}

/// A table.
#[derive(Drop)]
pub struct RawTable {
    /// Where the table stands.
    pub place: JsonPointer,
    /// Its name.
    pub name: RawName,
    /// Its columns.
    pub columns: RawList<RawColumn>,
}

/// How a lookup is joined.
#[derive(Drop)]
pub struct RawJoin {
    /// Where the join stands.
    pub place: JsonPointer,
    /// The kind of join.
    pub kind: RawWord,
    /// The lookup's columns.
    pub primary: Items<RawName>,
    /// The fact table's columns.
    pub foreign: Items<RawName>,
}

/// A lookup.
#[derive(Drop)]
pub struct RawLookup {
    /// Where the lookup stands.
    pub place: JsonPointer,
    /// The name of its table.
    pub table: RawName,
    /// Its join.
    pub join: RawJoin,
}

/// What a dimension names of its table.
#[derive(Drop)]
pub enum RawNamed {
    /// One column: a normal dimension.
    Column(RawName),
    /// Derived columns.
    Derived(Items<RawName>),
}

/// A dimension.
#[derive(Drop)]
pub struct RawDimension {
    /// Where the dimension stands.
    pub place: JsonPointer,
    /// The name of its table.
    pub table: RawName,
    /// What it names of the table.
    pub named: RawNamed,
}

/// What a function is applied to.
#[derive(Drop)]
pub struct RawParameter {
    /// The parameter's type: a column or a constant.
    pub kind: RawWord,
    /// The name of the column, or the constant.
    pub value: RawName,
}

/// The function of a measure.
#[derive(Drop)]
pub struct RawFunction {
    /// The function's name.
    pub expression: RawWord,
    /// What it is applied to.
    pub parameter: RawParameter,
}

/// A measure.
#[derive(Drop)]
pub struct RawMeasure {
    /// Where the measure stands.
    pub place: JsonPointer,
    /// Its name.
    pub name: RawName,
    /// Its function.
    pub function: RawFunction,
}

/// A JSON number.
#[derive(Clone, Copy, Debug)]
pub enum RawNumber {
    /// A whole number from 0 to 2^32 - 1, written without point and exponent.
    Whole(u32),
    /// Another number.
    Other,
}

/// The rules of an aggregation group.
#[derive(Drop)]
pub struct RawRule {
    /// The mandatory columns, each as `TABLE.COLUMN`.
    pub mandatory: Items<RawName>,
    /// The hierarchies.
    pub hierarchies: Items<Items<RawName>>,
    /// The joints.
    pub joints: Items<Items<RawName>>,
    /// The most dimensions that a cuboid of the group has, where that is said.
    pub cap: Option<RawNumber>,
}

/// An aggregation group.
#[derive(Drop)]
pub struct RawGroup {
    /// Where the group stands.
    pub place: JsonPointer,
    /// The columns that it includes, each as `TABLE.COLUMN`.
    pub includes: Items<RawName>,
    /// Its rules.
    pub rule: RawRule,
}

/// A descriptor.
#[derive(Drop)]
pub struct RawDesc {
    /// The name of the cube.
    pub name: RawName,
    /// The tables.
    pub tables: Items<RawTable>,
    /// The name of the fact table.
    pub fact_table: RawName,
    /// The lookups.
    pub lookups: RawList<RawLookup>,
    /// The fact table's column with the date that places a row in a range.
    pub partition: RawName,
    /// The dimensions.
    pub dimensions: Items<RawDimension>,
    /// The measures.
    pub measures: RawList<RawMeasure>,
    /// The columns of the rowkey, each as `TABLE.COLUMN`.
    pub rowkey: RawList<RawName>,
    /// The aggregation groups.
    pub groups: RawList<RawGroup>,
}
