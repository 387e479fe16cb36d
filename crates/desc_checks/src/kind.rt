// What a descriptor's fault is.

use cube_val::NameText;

/// The kinds of fault, in the order in which the checks run.
#[derive(Clone, Copy, PartialEq, Eq, Debug)]
pub enum DescKind {
    /// The bytes are no JSON value.
    NotJson,
    /// A key is missing, or a value is of another kind than it has to be.
    Shape,
    /// There are more of something than there may be, or none where there has to be one.
    TooMany,
    /// A text that has to be a name isn't one.
    BadName,
    /// A name comes twice.
    Twice,
    /// The type of a column is none of the types.
    BadType,
    /// A table that is named isn't there, or is neither the fact table nor a lookup where it has to be.
    NoTable,
    /// A column that is named isn't in its table.
    NoColumn,
    /// The kind of a join is none, or its keys don't fit.
    BadJoin,
    /// The partition column is no date.
    BadPartition,
    /// A dimension derives columns of the fact table, or none.
    BadDimension,
    /// The function of a measure is none, is applied to what it can't take, or comes twice.
    BadMeasure,
    /// The rowkey lacks a column that a dimension needs, or has one that none needs.
    BadRowkey,
    /// A group names a column that isn't in the rowkey, or its rules contradict each other.
    BadGroup,
    /// The groups give too many cuboids.
    TooManyCuboids,
}

/// The fault of a descriptor: the first check that fails, and the first place where it fails.
#[derive(Debug, Drop, PartialEq, Eq)]
pub struct DescFault {
    /// Which check fails.
    pub kind: DescKind,
    /// Where, as a JSON pointer. It is empty for a text that is no JSON.
    pub place: NameText,
}
