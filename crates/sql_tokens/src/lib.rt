//! The tokens of a query's text, with their places.
//!
//! The first half of the SQL reader: bytes in, tokens out; `sql_reader` puts the tokens together into a query. A token is a keyword, a
//! symbol, a name, a text or a number. Blanks (spaces and tabs) part tokens where nothing else does, and the longest token is taken: `1and`
//! is the number 1 and the keyword AND, `andy` is a name.
//!
//! At its boundary:
//!
//! - Contracts see a text as the list of its bytes. One relation, `AreTokens` in `specs/Cuts.antt`, says which tokens the bytes have, from
//!   the front to the end or to the first byte at which no token starts, and which fault stands there. Bytes have one such list
//!   (`tokens_are_unique`), and its places rise (`places_rise`), so an earlier token is a token at an earlier byte.
//! - What stands in front of a text is said in `specs/Lexemes.antt` by the first byte: `Words` has the keywords, `Numbers` the numbers, `Quotes`
//!   names and texts in quotes, `Symbols` the rest.
//! - A name is kept in upper case; a number in units of 1/10000; of a text the bytes between the quotes, each doubled quote as one.
//! - `tokens_of` takes at most `SQL_MAX` bytes, so every place fits a `u32`; whoever calls it answers TooLong before.
//!
//! The modules: `kind`, `payload` and `token` are the types (those of faults stand in `query_faults`); `word`, `number`, `quote` and `symbol` read one token each, `lexeme` chooses
//! among them by the first byte, and `lex` goes over the whole text.
#![tactic(auto)]

mod examples;
mod kind;
mod laws;
mod lex;
mod lexeme;
mod number;
mod payload;
mod quote;
mod symbol;
mod token;
mod word;

pub use examples::worked_examples;
pub use kind::Kind;
pub use laws::{places_rise, quotes_are_doubled, tokens_are_unique};
pub use lex::{Lexed, SQL_MAX, tokens_of};
pub use lexeme::Lexeme;
pub use payload::{Payload, Units};
pub use query_faults::{SqlFault, SqlKind};
pub use token::Token;
