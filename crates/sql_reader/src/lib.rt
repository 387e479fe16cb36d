//! Queries as analysts write them: a text to its tree, or to its first fault and the byte at which it is.
//!
//! The second half of the SQL reader, over the tokens of `sql_tokens`. It knows no cube: which tables and columns there are is asked by
//! the binding above it.
//!
//! How it is built, bottom up:
//!
//! - `specs/Rules.antt` says what a rule of a grammar is: which lists of tokens spell a value, and which begin one. Both are said once for
//!   each form of rule (a token, one behind the other, a choice, an option, a repetition).
//! - `specs/Grammar.antt` has the grammar of the profile, rule by rule, from the names up to `query`; it reads as the grammar in
//!   `docs/SQL.md`. A rule of conditions takes how many `(` and NOT may still be opened, so the limit of depth is the depth of the definition.
//! - `specs/Readers.antt` and `Parsers.antt` have a reader for each rule, as a function on lists; each function of the code is proved to give
//!   what its reader gives, by itself. `proofs/Exact.antt` proves once for each form of rule that its reader takes exactly what the rule
//!   spells and stops at the first token with which nothing goes on; `proofs/Deeper.antt` that one more level of depth only takes more.
//! - `specs/Whole.antt` says what all tokens of a text are, and `specs/Sql.antt` what a text is: `IsSql`, a query with its tree, or
//!   `IsFault`, a text with its first fault. `read_sql` is exact by them.
//!
//! At the boundary: a `place` is the byte at which the first token of a thing starts. Recursion goes as deep as conditions are nested, at
//! most 64 levels, and never with the length of the text.
#![tactic(auto)]

mod column;
mod cond;
mod item;
mod join;
mod laws;
mod literal;
mod order;
mod parts;
mod query;
mod sql;
mod stop;
mod take;
mod term;
mod test;
mod tree;

pub use laws::texts_have_one_answer;
pub use sql::{SqlRefusal, read_sql};
pub use sql_tokens::{SQL_MAX, SqlFault, SqlKind};
pub use tree::{
    AggWord, ColRef, Item, Join, JoinKind, JoinPair, Name, Query, SqlCond, SqlKey, SqlLit,
    SqlLitKind, SqlTerm, SqlTest,
};
