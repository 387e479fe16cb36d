// Conditions on a row or on a group.

use cube_val::{ColType, Items, TextVal};
use sqlite_items::Boxed;

/// What a condition, a select item or a key of the order names.
#[derive(Clone, Copy, Debug, PartialEq, Eq)]
pub enum Term {
    /// A column of the rows by its number from 0, with its type.
    Col(usize, ColType),
    /// An aggregate of the ask by its number from 0.
    Agg(usize),
}

/// How a value is compared with a literal.
#[derive(Clone, Copy, Debug, PartialEq, Eq)]
pub enum Test {
    /// Equal.
    Eq,
    /// Not equal.
    Ne,
    /// Less.
    Lt,
    /// Less or equal.
    Le,
    /// Greater.
    Gt,
    /// Greater or equal.
    Ge,
}

/// What a value is compared with.
#[derive(Debug, Drop, PartialEq, Eq)]
pub enum Lit {
    /// A number, in units of 1/10000.
    Number(i128),
    /// A text or a date.
    Text(TextVal),
}

/// A condition. It is true, false or unknown; a comparison with null is unknown.
#[derive(Drop)]
pub enum Cond {
    /// Always true: no condition.
    True,
    /// A comparison with a literal.
    Compare(Term, Test, Lit),
    /// Whether the value equals one of the literals: the OR of the equalities.
    AnyOf(Term, Items<Lit>),
    /// Whether there is no value. It is never unknown.
    IsNull(Term),
    /// Both.
    And(Boxed<Cond>, Boxed<Cond>),
    /// One at least.
    Or(Boxed<Cond>, Boxed<Cond>),
    /// The contrary.
    Not(Boxed<Cond>),
}
