// The tokens of a whole text.

ghost use Rattle.std.specs.Prelude.{◌≡◌, ◌≤◌, length, IfOk};
ghost use Rattle.std.specs.List.{prefix_len};
ghost use Rattle.sql_tokens.specs.Cuts;
ghost use Rattle.sql_tokens.specs.Cuts.{AreTokens};

use crate::lexeme::{Lexeme, read_lexeme};
use crate::token::Token;
use cube_val::Items;
use query_faults::SqlFault;
use std::alloc::{AllocError, Global};

/// The most bytes of a query's text.
pub const SQL_MAX: usize = 10_000;

/// The tokens of a text up to its end, or up to the first byte at which none starts.
#[derive(Drop)]
pub struct Lexed {
    /// The tokens in order.
    pub tokens: Items<Token>,
    /// Where no token starts, and why.
    pub fault: Option<SqlFault>,
}

fn is_blank(byte: u8) -> bool
    ensures { result ≡ Cuts.is_blank byte }
{
    byte == b' ' || byte == b'\t'
}

// How many blanks stand in front.
fn blanks(text: &[u8]) -> usize
    ensures value { result ≡ prefix_len Cuts.is_blank text.now }
    ensures within { result ≤ length text.now }
{
    text.iter().take_while(|byte| is_blank(**byte)).count()
}

/// The tokens of a text, up to its end or to the first byte at which none starts.
pub fn tokens_of(alloc: Global, text: &[u8]) -> Result<Lexed, AllocError>
    requires { length text.now ≤ SQL_MAX }
    ensures { IfOk result (λ lexed. AreTokens text.now lexed.tokens lexed.fault) }
{
    let mut tokens = Items::new(alloc);
    let mut at = 0;
    'cut: loop {
        let start = at + blanks(&text[at..]);
        let place = start as u32;
        match read_lexeme(alloc, &text[start..])? {
            Lexeme::End => {
                return Ok(Lexed {
                    tokens,
                    fault: None,
                });
            }
            Lexeme::Bad(kind) => {
                let fault = Some(SqlFault { place, kind });
                return Ok(Lexed { tokens, fault });
            }
            Lexeme::Token(kind, payload, len) => {
                tokens.push(Token {
                    kind,
                    place,
                    payload,
                })?;
                at = start + len;
            }
        }
    }
}
