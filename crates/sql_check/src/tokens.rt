// Tokens and what they stand for.

use crate::queries::put_fault;
use crate::questions::{Question, put_answer};
use check_lines::unknown_line;
use sql_tokens::{Lexed, Payload, SQL_MAX, Token, tokens_of};
use std::alloc::Global;
use std::io;
use std::io::Write;

fn lexed(alloc: Global, text: &[u8]) -> io::Result<Lexed> {
    if text.len() > SQL_MAX {
        return Err(unknown_line());
    }
    Ok(tokens_of(alloc, text)?)
}

fn put_token<W: Write>(token: &Token, out: &mut W) -> io::Result<()> {
    let kind = token.kind;
    write!(out, "{kind:?} {}, ", token.place)
}

// Asks for the kinds and places.
#[derive(Drop)]
struct Kinds;

impl Question<Lexed> for Kinds {
    fn put<W: Write>(&self, _alloc: Global, of: &Lexed, out: &mut W) -> io::Result<()> {
        for token in of.tokens.as_slice() {
            put_token(token, out)?;
        }
        put_fault(of.fault, "end", out)
    }
}

pub fn answer_tokens<W: Write>(alloc: Global, text: &[u8], out: &mut W) -> io::Result<()> {
    put_answer(alloc, lexed(alloc, text), &Kinds, out)
}

fn put_payload<W: Write>(alloc: Global, payload: &Payload, out: &mut W) -> io::Result<()> {
    out.write_all(payload.name(alloc)?.bytes())?;
    out.write_all(b"|")?;
    out.write_all(payload.text(alloc)?.bytes())?;
    let (number, rows) = (payload.units().signed(true), payload.rows());
    write!(out, "|{number}|{rows}, ")
}

// Asks for what tokens stand for.
#[derive(Drop)]
struct Payloads;

impl Question<Lexed> for Payloads {
    fn put<W: Write>(&self, alloc: Global, of: &Lexed, out: &mut W) -> io::Result<()> {
        for token in of.tokens.as_slice() {
            put_payload(alloc, &token.payload, out)?;
        }
        put_fault(of.fault, "end", out)
    }
}

pub fn answer_payloads<W: Write>(alloc: Global, text: &[u8], out: &mut W) -> io::Result<()> {
    put_answer(alloc, lexed(alloc, text), &Payloads, out)
}
