// Words: names without quotes, and keywords.

ghost use Rattle.std.specs.Prelude.{◌≡◌, ◌<◌, ◌≤◌, length, IfOk};
ghost use Rattle.std.specs.List.{prefix_len};
ghost use Rattle.sql_tokens.specs.Words;

use crate::kind::Kind;
use crate::lexeme::Lexeme;
use crate::payload::Payload;
use cube_val::NameText;
use query_faults::SqlKind;
use std::alloc::{AllocError, Global};

/// The most bytes of a name.
pub(crate) const NAME_MAX: usize = 64;

/// Whether the byte may stand in a word.
pub(crate) fn is_word_byte(byte: u8) -> bool
    ensures { result ≡ Words.is_word_byte byte }
{
    byte.is_ascii_alphanumeric() || byte == b'_'
}

// How many bytes the word in front has.
fn word_len(text: &[u8]) -> usize
    ensures value { result ≡ prefix_len Words.is_word_byte text.now }
    ensures within { result ≤ length text.now }
{
    text.iter().take_while(|byte| is_word_byte(**byte)).count()
}

/// The name of these bytes in upper case.
pub(crate) fn upper(alloc: Global, bytes: &[u8]) -> Result<NameText, AllocError>
    ensures { IfOk result (λ name. name ≡ Words.upper bytes.now) }
{
    let upper: Vec<u8> = bytes
        .iter()
        .map(|byte| byte.to_ascii_uppercase())
        .collect(alloc)?;
    NameText::new(alloc, upper.as_slice())
}

fn clause_word(word: &[u8]) -> Option<Kind>
    ensures { result ≡ Words.clause_word word.now }
{
    if word == b"SELECT".as_slice() {
        Some(Kind::Select)
    } else if word == b"FROM".as_slice() {
        Some(Kind::From)
    } else if word == b"WHERE".as_slice() {
        Some(Kind::Where)
    } else if word == b"GROUP".as_slice() {
        Some(Kind::Group)
    } else if word == b"BY".as_slice() {
        Some(Kind::By)
    } else if word == b"HAVING".as_slice() {
        Some(Kind::Having)
    } else if word == b"ORDER".as_slice() {
        Some(Kind::Order)
    } else if word == b"LIMIT".as_slice() {
        Some(Kind::Limit)
    } else {
        None
    }
}

fn item_word(word: &[u8]) -> Option<Kind>
    ensures { result ≡ Words.item_word word.now }
{
    if word == b"AS".as_slice() {
        Some(Kind::As)
    } else if word == b"ASC".as_slice() {
        Some(Kind::Asc)
    } else if word == b"DESC".as_slice() {
        Some(Kind::Desc)
    } else if word == b"COUNT".as_slice() {
        Some(Kind::Count)
    } else if word == b"DISTINCT".as_slice() {
        Some(Kind::Distinct)
    } else if word == b"SUM".as_slice() {
        Some(Kind::Sum)
    } else if word == b"MIN".as_slice() {
        Some(Kind::Min)
    } else if word == b"MAX".as_slice() {
        Some(Kind::Max)
    } else if word == b"AVG".as_slice() {
        Some(Kind::Avg)
    } else {
        None
    }
}

fn join_word(word: &[u8]) -> Option<Kind>
    ensures { result ≡ Words.join_word word.now }
{
    if word == b"INNER".as_slice() {
        Some(Kind::Inner)
    } else if word == b"LEFT".as_slice() {
        Some(Kind::Left)
    } else if word == b"OUTER".as_slice() {
        Some(Kind::Outer)
    } else if word == b"JOIN".as_slice() {
        Some(Kind::Join)
    } else if word == b"ON".as_slice() {
        Some(Kind::On)
    } else {
        None
    }
}

fn condition_word(word: &[u8]) -> Option<Kind>
    ensures { result ≡ Words.condition_word word.now }
{
    if word == b"OR".as_slice() {
        Some(Kind::Or)
    } else if word == b"AND".as_slice() {
        Some(Kind::And)
    } else if word == b"NOT".as_slice() {
        Some(Kind::Not)
    } else if word == b"IN".as_slice() {
        Some(Kind::In)
    } else if word == b"BETWEEN".as_slice() {
        Some(Kind::Between)
    } else if word == b"IS".as_slice() {
        Some(Kind::Is)
    } else if word == b"NULL".as_slice() {
        Some(Kind::Null)
    } else if word == b"DATE".as_slice() {
        Some(Kind::Date)
    } else {
        None
    }
}

// The keyword that is written so in upper case.
#[tactic(auto, unfolding(crate::specs::Words::keyword))]
fn keyword(word: &[u8]) -> Option<Kind>
    ensures { result ≡ Words.keyword word.now }
{
    let in_clause = clause_word(word).or(item_word(word));
    in_clause.or(join_word(word).or(condition_word(word)))
}

/// The word in front.
#[tactic(auto, unfolding(crate::specs::Words::word_at))]
pub(crate) fn read_word(alloc: Global, text: &[u8]) -> Result<Lexeme, AllocError>
    ensures { IfOk result (λ lexeme. lexeme ≡ Words.word_at text.now) }
{
    let len = word_len(text);
    if len > NAME_MAX {
        return Ok(Lexeme::Bad(SqlKind::BadToken));
    }
    let name = upper(alloc, &text[..len])?;
    match keyword(name.bytes()) {
        Some(kind) => Ok(Lexeme::Token(kind, Payload::Nothing, len)),
        None => Ok(Lexeme::Token(Kind::Name, Payload::Name(name), len)),
    }
}
