// What is asked.

use crate::cond::{Cond, Term};
use cube_val::{ColType, Items, NameText};

/// The kinds of aggregate. But the number of rows, each is of a column's values that aren't null.
#[derive(Clone, Copy, Debug, PartialEq, Eq)]
pub enum AggKind {
    /// The number of rows.
    Count,
    /// The number of a column's values that aren't null.
    Known,
    /// The sum of a column.
    Sum,
    /// The least value of a column.
    Min,
    /// The greatest value of a column.
    Max,
    /// How many different values a column has.
    Distinct,
    /// The sum of a column by the number of its values, cut toward zero to four decimals.
    Avg,
}

/// An aggregate of a column. Only a count of rows names none.
#[derive(Clone, Copy, Debug, PartialEq, Eq)]
pub struct Agg {
    /// What is made of the column's values.
    pub kind: AggKind,
    /// The column's number from 0.
    pub column: Option<usize>,
    /// The column's type.
    pub ty: ColType,
}

/// A select item.
#[derive(Debug, Drop, PartialEq, Eq)]
pub struct Out {
    /// The name over its column in the answer.
    pub name: NameText,
    /// What is shown in it: a group column or an aggregate.
    pub term: Term,
}

/// A key of the order.
#[derive(Clone, Copy, Debug, PartialEq, Eq)]
pub struct OrderKey {
    /// What the groups are ordered by: a group column or an aggregate.
    pub term: Term,
    /// Whether the value order is reversed, so that nulls come last.
    pub falling: bool,
}

/// A bound query over rows of columns. A term names a column by its number in the rows.
#[derive(Drop)]
pub struct Ask {
    /// Which rows count: those where it is true.
    pub filter: Cond,
    /// The columns to group by. With none all rows are one group.
    pub group: Items<usize>,
    /// What is worked out of each group.
    pub aggs: Items<Agg>,
    /// What is shown of each group.
    pub outs: Items<Out>,
    /// Which groups are shown: those where it is true.
    pub having: Cond,
    /// The order of the groups, before the order of their keys.
    pub order: Items<OrderKey>,
    /// The most groups that are shown.
    pub limit: Option<u32>,
}
