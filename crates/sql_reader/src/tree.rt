// Queries.

use cube_val::{Items, NameText, TextVal};
use sqlite_items::Boxed;

/// A name where it stands.
#[derive(Drop)]
pub struct Name {
    /// The byte at which it starts.
    pub place: u32,
    /// The name, in upper case.
    pub text: NameText,
}

/// A column, with its table or without.
#[derive(Drop)]
pub struct ColRef {
    /// The table, where it is named.
    pub table: Option<Name>,
    /// The column.
    pub column: Name,
}

/// The aggregates.
#[derive(Clone, Copy, Debug, PartialEq, Eq)]
pub enum AggWord {
    /// `COUNT(*)` or `COUNT(1)`: the only one without a column.
    CountRows,
    /// `COUNT(column)`.
    CountColumn,
    /// `COUNT(DISTINCT column)`.
    CountDistinct,
    Sum,
    Min,
    Max,
    Avg,
}

/// A column, or an aggregate.
#[derive(Drop)]
pub enum SqlTerm {
    Col(ColRef),
    Agg {
        /// The byte at which its word starts.
        place: u32,
        word: AggWord,
        column: Option<ColRef>,
    },
}

/// A select item.
#[derive(Drop)]
pub struct Item {
    pub term: SqlTerm,
    /// The name that it is shown under, where one is given.
    pub alias: Option<NameText>,
}

/// Whether a row without a partner is dropped or kept with nulls.
#[derive(Clone, Copy, Debug, PartialEq, Eq)]
pub enum JoinKind {
    Inner,
    Left,
}

/// Two columns that are equal in joined rows.
#[derive(Drop)]
pub struct JoinPair {
    pub left: ColRef,
    pub right: ColRef,
}

/// A join.
#[derive(Drop)]
pub struct Join {
    pub kind: JoinKind,
    /// The joined table.
    pub table: Name,
    /// Its pairs of columns, one at least.
    pub pairs: Items<JoinPair>,
}

/// The comparisons.
#[derive(Clone, Copy, Debug, PartialEq, Eq)]
pub enum SqlTest {
    Eq,
    Ne,
    Lt,
    Le,
    Gt,
    Ge,
}

/// What a literal says.
#[derive(Drop)]
pub enum SqlLitKind {
    /// A number, in units of 1/10000.
    Number(i128),
    /// A text.
    Text(TextVal),
    /// The text behind DATE, which need not be a date.
    Date(TextVal),
}

/// A literal.
#[derive(Drop)]
pub struct SqlLit {
    /// The byte at which it starts: its sign, its quote or DATE.
    pub place: u32,
    pub kind: SqlLitKind,
}

/// A condition. NOT IN, NOT BETWEEN and IS NOT NULL are the Not of the others; parentheses leave no mark of their own, and a chain of ANDs or
/// of ORs groups from the left.
#[derive(Drop)]
pub enum SqlCond {
    Compare(SqlTerm, SqlTest, SqlLit),
    /// IN.
    AnyOf(SqlTerm, Items<SqlLit>),
    Between(SqlTerm, SqlLit, SqlLit),
    IsNull(SqlTerm),
    And(Boxed<SqlCond>, Boxed<SqlCond>),
    Or(Boxed<SqlCond>, Boxed<SqlCond>),
    Not(Boxed<SqlCond>),
}

/// A key of ORDER BY.
#[derive(Drop)]
pub struct SqlKey {
    pub term: SqlTerm,
    /// Whether it is followed by DESC.
    pub falling: bool,
}

/// A query.
#[derive(Drop)]
pub struct Query {
    /// What is selected, one item at least.
    pub items: Items<Item>,
    /// The table behind FROM.
    pub table: Name,
    pub joins: Items<Join>,
    /// The condition behind WHERE.
    pub filter: Option<SqlCond>,
    /// The columns of GROUP BY.
    pub group: Items<ColRef>,
    pub having: Option<SqlCond>,
    /// The keys of ORDER BY.
    pub order: Items<SqlKey>,
    /// The number behind LIMIT.
    pub limit: Option<u32>,
}
