// What stands in front of a text.

ghost use Rattle.std.specs.Prelude.{◌≡◌, IfOk, length};
ghost use Rattle.sql_tokens.specs.Lexemes.{next_at};

use crate::kind::Kind;
use crate::number::read_number;
use crate::payload::Payload;
use crate::quote::{read_name, read_text};
use crate::symbol::read_symbol;
use crate::word::{is_word_byte, read_word};
use query_faults::SqlKind;
use std::alloc::{AllocError, Global};

/// What stands in front of a text that begins with no blank.
#[derive(Drop)]
pub enum Lexeme {
    /// The text is at its end.
    End,
    /// No token starts here, for this reason.
    Bad(SqlKind),
    /// A token of this kind, with what it stands for, and how many bytes it takes.
    Token(Kind, Payload, usize),
}

/// What stands in front of the text.
#[tactic(auto, unfolding(crate::specs::Lexemes::next_at))]
pub(crate) fn read_lexeme(alloc: Global, text: &[u8]) -> Result<Lexeme, AllocError>
    ensures { IfOk result (λ lexeme. lexeme ≡ next_at text.now) }
{
    let [first, rest @ ..] = text else {
        return Ok(Lexeme::End);
    };
    if first.is_ascii_digit() {
        return Ok(read_number(text));
    }
    if is_word_byte(*first) {
        return read_word(alloc, text);
    }
    match *first {
        b'"' => read_name(alloc, rest),
        b'\'' => read_text(alloc, rest),
        _ => Ok(read_symbol(text)),
    }
}
