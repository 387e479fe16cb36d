// Symbols: one byte, or two.

ghost use Rattle.std.specs.Prelude.{◌≡◌, length};
ghost use Rattle.sql_tokens.specs.Symbols;

use crate::kind::Kind;
use crate::lexeme::Lexeme;
use crate::payload::Payload;
use query_faults::SqlKind;

fn pair(first: u8, second: u8) -> Option<Kind>
    ensures { result ≡ Symbols.pair_of first second }
{
    match (first, second) {
        (b'<', b'>') | (b'!', b'=') => Some(Kind::NotEqual),
        (b'<', b'=') => Some(Kind::LessEqual),
        (b'>', b'=') => Some(Kind::GreaterEqual),
        _ => None,
    }
}

fn single(byte: u8) -> Option<Kind>
    ensures { result ≡ Symbols.single_of byte }
{
    match byte {
        b',' => Some(Kind::Comma),
        b'(' => Some(Kind::Open),
        b')' => Some(Kind::Close),
        b'*' => Some(Kind::Star),
        b';' => Some(Kind::Semicolon),
        b'.' => Some(Kind::Dot),
        b'+' => Some(Kind::Plus),
        b'-' => Some(Kind::Minus),
        b'=' => Some(Kind::Equal),
        b'<' => Some(Kind::Less),
        b'>' => Some(Kind::Greater),
        _ => None,
    }
}

fn single_lexeme(byte: u8) -> Lexeme
    ensures { result ≡ Symbols.single_lexeme (Symbols.single_of byte) }
{
    match single(byte) {
        Some(kind) => Lexeme::Token(kind, Payload::Nothing, 1),
        None => Lexeme::Bad(SqlKind::BadToken),
    }
}

/// The symbol in front.
#[tactic(auto, unfolding(crate::specs::Symbols::symbol_at))]
pub(crate) fn read_symbol(text: &[u8]) -> Lexeme
    ensures { result ≡ Symbols.symbol_at text.now }
{
    match text {
        [] => Lexeme::Bad(SqlKind::BadToken),
        [only] => single_lexeme(*only),
        [first, second, ..] => match pair(*first, *second) {
            Some(kind) => Lexeme::Token(kind, Payload::Nothing, 2),
            None => single_lexeme(*first),
        },
    }
}
