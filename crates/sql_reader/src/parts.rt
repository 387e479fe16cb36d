// Parts of a query that its tree has no place for.

use crate::tree::{SqlLit, SqlTest};
use cube_val::Items;

/// A sign.
#[derive(Clone, Copy)]
pub struct Sign {
    pub negative: bool,
    pub place: u32,
}

/// What is asked of a term.
#[derive(Drop)]
pub enum Tail {
    Compare(SqlTest, SqlLit),
    AnyOf(Items<SqlLit>),
    NoneOf(Items<SqlLit>),
    Between(SqlLit, SqlLit),
    NotBetween(SqlLit, SqlLit),
    IsNull,
    IsNotNull,
}
