// Why a cube can't answer a query.

ghost use Rattle.std.specs.Prelude.{◌≡◌};
ghost use Rattle.query_faults.specs.Texts.{bind_kind_text};

/// Why a query can't be answered by a cube. The kinds are in the order in which they count.
#[derive(Clone, Copy, Debug, PartialEq, Eq)]
pub enum BindKind {
    /// FROM isn't the fact table, a joined table is no lookup, or a column's table isn't named in FROM or a join: at the table's name.
    NoTable,
    /// No table has the column: at the column.
    NoColumn,
    /// A column outside an aggregate is neither in the rowkey nor derived, or an aggregate stands in WHERE: at the term.
    NotDimension,
    /// The cube doesn't keep what the aggregate is worked out of: at the aggregate.
    NoMeasure,
    /// An inner join of the cube isn't named: at the name behind FROM.
    JoinMissing,
    /// A join isn't the cube's, or its table is joined twice: at the joined table's name.
    JoinNotInModel,
    /// A literal is compared with a term of another type, or with a date and is no day: at the literal.
    TypeClash,
    /// A column outside aggregates isn't in GROUP BY: at the column.
    NotGrouped,
}

impl BindKind {
    /// The kind's printed word.
    pub fn as_str(&self) -> &'static str
        ensures { result.now ≡ bind_kind_text self.now }
    {
        match self {
            BindKind::NoTable => "NoTable",
            BindKind::NoColumn => "NoColumn",
            BindKind::NotDimension => "NotDimension",
            BindKind::NoMeasure => "NoMeasure",
            BindKind::JoinMissing => "JoinMissing",
            BindKind::JoinNotInModel => "JoinNotInModel",
            BindKind::TypeClash => "TypeClash",
            BindKind::NotGrouped => "NotGrouped",
        }
    }
}

/// The first fault of a query.
#[derive(Clone, Copy, Debug, PartialEq, Eq)]
pub struct BindFault {
    /// The byte of the query at which it is.
    pub place: u32,
    /// What is wrong there.
    pub kind: BindKind,
}
