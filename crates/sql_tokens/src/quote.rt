// Names and texts in quotes.

ghost use Rattle.std.specs.Prelude.{◌≡◌, ◌+◌, ◌<◌, ◌≤◌, List, ◌∷◌, ℕ, true, false, IfOk, IfSome, option_map, length};
ghost use Rattle.std.specs.List.{list_all, position};
ghost use Rattle.cube_val.specs.Texts.{IsText};
ghost use Rattle.sql_tokens.specs.Quotes;
ghost use Rattle.sql_tokens.specs.Words;
ghost use Rattle.sql_tokens.specs.Quotes.{doubled, text_behind};
ghost use Rattle.sql_tokens.specs.Said.{joined, pending, said_of};

use crate::kind::Kind;
use crate::lexeme::Lexeme;
use crate::payload::Payload;
use crate::word::{NAME_MAX, is_word_byte, upper};
use cube_val::{ReadVal, TextVal};
use query_faults::SqlKind;
use std::alloc::{AllocError, Global};

const QUOTE: u8 = b'\'';

// Whether the bytes are a name.
fn is_name(bytes: &[u8]) -> bool
    ensures { result ≡ Quotes.is_name bytes.now }
{
    match bytes {
        [] => false,
        [first, ..] => {
            !first.is_ascii_digit() && are_word_bytes(bytes) && bytes.len() <= NAME_MAX
        }
    }
}

fn are_word_bytes(bytes: &[u8]) -> bool
    ensures { result ≡ list_all Words.is_word_byte bytes.now }
{
    bytes.iter().all(|byte| is_word_byte(*byte))
}

// The place of the first double quote.
fn double_quote_of(bytes: &[u8]) -> Option<usize>
    ensures value { result ≡ position Quotes.is_double_quote bytes.now }
    ensures within { IfSome result (λ n. n < length bytes.now) }
{
    bytes.iter().position(|byte| *byte == b'"')
}

/// The name in double quotes of which this stands behind the first one.
#[tactic(auto, unfolding(crate::specs::Quotes::name_at))]
pub(crate) fn read_name(alloc: Global, rest: &[u8]) -> Result<Lexeme, AllocError>
    ensures { IfOk result (λ lexeme. lexeme ≡ Quotes.name_at rest.now) }
{
    let Some(len) = double_quote_of(rest) else {
        return Ok(Lexeme::Bad(SqlKind::BadToken));
    };
    if !is_name(&rest[..len]) {
        return Ok(Lexeme::Bad(SqlKind::BadToken));
    }
    let name = upper(alloc, &rest[..len])?;
    Ok(Lexeme::Token(Kind::Name, Payload::Name(name), len + 2))
}

// A text in quotes: its bytes, and how many bytes it takes with its quotes.
#[derive(Drop)]
struct QuotedText {
    text: Vec<u8>,
    len: usize,
}

// Takes in the next byte of a text: whether it was a quote that may end the text.
fn take_in(text: &mut Vec<u8>, after_quote: bool, byte: u8) -> Result<bool, AllocError>
    requires { after_quote ≡ true → byte ≡ 39 }
    ensures said { IfOk result (λ next. (rest : List ℕ) → joined text.new.items (text_behind next rest) ≡ joined text.old.items (text_behind after_quote (byte ∷ rest))) }
    ensures longer { IfOk result (λ next. length (doubled text.new.items) + pending next ≡ length (doubled text.old.items) + pending after_quote + 1) }
{
    if after_quote {
        text.push(QUOTE)?;
        return Ok(false);
    }
    if byte == QUOTE {
        return Ok(true);
    }
    text.push(byte)?;
    Ok(false)
}

// The text in quotes of which this stands behind the first one.
fn quoted(alloc: Global, rest: &[u8]) -> Result<Option<QuotedText>, AllocError>
    ensures text { IfOk result (λ quoted. option_map said_of quoted ≡ text_behind false rest.now) }
    ensures len { IfOk result (λ quoted. IfSome quoted (λ q. q.len ≡ length (doubled q.text.items) + 2)) }
{
    let mut text = Vec::new(alloc);
    let mut after_quote = false;
    for (i, byte) in rest.iter().enumerate() {
        if after_quote && *byte != QUOTE {
            return Ok(Some(QuotedText { text, len: i + 1 }));
        }
        after_quote = take_in(&mut text, after_quote, *byte)?;
    }
    if !after_quote {
        return Ok(None);
    }
    let len = rest.len() + 1;
    Ok(Some(QuotedText { text, len }))
}

// The token of a text.
fn text_lexeme(alloc: Global, text: &[u8], len: usize) -> Result<Lexeme, AllocError>
    requires { len ≡ length (doubled text.now) + 2 }
    ensures { IfOk result (λ lexeme. lexeme ≡ Quotes.text_lexeme (Some text.now)) }
{
    match TextVal::new(alloc, text) {
        Ok(text) => Ok(Lexeme::Token(Kind::Text, Payload::Text(text), len)),
        Err(ReadVal::BadValue) => Ok(Lexeme::Bad(SqlKind::BadToken)),
        Err(ReadVal::Memory) => Err(AllocError),
    }
}

/// The text in quotes of which this stands behind the first one.
#[tactic(auto, unfolding(crate::specs::Quotes::text_at))]
pub(crate) fn read_text(alloc: Global, rest: &[u8]) -> Result<Lexeme, AllocError>
    ensures { IfOk result (λ lexeme. lexeme ≡ Quotes.text_at rest.now) }
{
    match quoted(alloc, rest)? {
        None => Ok(Lexeme::Bad(SqlKind::BadToken)),
        Some(quoted) => text_lexeme(alloc, quoted.text.as_slice(), quoted.len),
    }
}
