// Calls on a row in one thread.

ghost use Rattle.std.specs.Prelude.{All, IfOk, OnOk};
ghost use Rattle.std.specs.Arc.{arc_value};
ghost use Rattle.version_row.specs.Rows.{IsOf};
ghost use Rattle.set_check.specs.Readers.{IsReader};

use crate::versions::{Token, Version};
use check_lines::{Words, known, parsed, unknown_line};
use cube_desc::CubeDesc;
use std::alloc::Global;
use std::io;
use std::io::Write;
use std::sync::{Arc, Wait};
use version_row::{Session, VersionRow};

/// The tokens so far, by their numbers, and the session.
#[derive(Drop)]
struct Reader {
    tokens: Vec<Token>,
    session: Session<Version>,
}

// The token of the number that a word writes.
fn token_of<'a>(row: &VersionRow<Version>, tokens: &'a [Token], word: &str) -> io::Result<&'a Token>
    requires { All (λ token. IsOf row.now (arc_value token)) tokens.now }
    ensures { IfOk result (λ token. IsOf row.now (arc_value token.now)) }
{
    let _ = row;
    known(tokens.get(parsed::<usize>(word)?))
}

// Keeps a token that was given, and writes the version of its set.
fn keep<W: Write>(
    row: &VersionRow<Version>,
    tokens: &mut Vec<Token>,
    token: Token,
    out: &mut W,
) -> io::Result<()>
    requires tokens { All (λ token. IsOf row.now (arc_value token)) tokens.old.items }
    requires token { IsOf row.now (arc_value token) }
    ensures { OnOk result (All (λ token. IsOf row.now (arc_value token)) tokens.new.items) }
{
    write!(out, " {}", row.set(&token).0)?;
    tokens.push(token)?;
    Ok(())
}

// A reader whose session begins with a token of the row.
fn reader_of(alloc: Global, row: &VersionRow<Version>, first: Token) -> io::Result<Reader>
    requires { IsOf row.now (arc_value first) }
    ensures { IfOk result (λ reader. IsReader row.now reader) }
{
    let _ = row;
    let session = Session::new(first.clone()?);
    let mut tokens = Vec::new(alloc);
    tokens.push(first)?;
    Ok(Reader { tokens, session })
}

// Publishes a set.
fn publish<R: Wait, W: Write>(
    rt: &R,
    row: &VersionRow<Version>,
    reader: &mut Reader,
    version: u32,
    out: &mut W,
) -> io::Result<()>
    requires { IsReader row.now reader.old }
    ensures { OnOk result (IsReader row.now reader.new) }
{
    let token = row.publish(rt, Version(version))?;
    keep(row, &mut reader.tokens, token, out)
}

// Pins a set, told of a token.
fn pin<W: Write>(
    row: &VersionRow<Version>,
    reader: &mut Reader,
    word: &str,
    out: &mut W,
) -> io::Result<()>
    requires { IsReader row.now reader.old }
    ensures { OnOk result (IsReader row.now reader.new) }
{
    let told = token_of(row, reader.tokens.as_slice(), word)?.clone()?;
    let pinned = reader.session.pin(row, told)?;
    keep(row, &mut reader.tokens, pinned, out)
}

// Begins another session.
fn begin(row: &VersionRow<Version>, reader: &mut Reader, word: &str) -> io::Result<()>
    requires { IsReader row.now reader.old }
    ensures { OnOk result (IsReader row.now reader.new) }
{
    let first = token_of(row, reader.tokens.as_slice(), word)?.clone()?;
    reader.session = Session::new(first);
    Ok(())
}

// Writes whether two tokens agree.
fn put_agree<W: Write>(
    row: &VersionRow<Version>,
    tokens: &[Token],
    words: &str,
    out: &mut W,
) -> io::Result<()>
    requires { All (λ token. IsOf row.now (arc_value token)) tokens.now }
{
    let (one, other) = known(words.split_once(':'))?;
    let one = token_of(row, tokens, one)?;
    let other = token_of(row, tokens, other)?;
    let agree = row.agree(one, other);
    write!(out, " {agree}")
}

// Does a call.
fn answer_call<R: Wait, W: Write>(
    rt: &R,
    row: &VersionRow<Version>,
    reader: &mut Reader,
    call: &str,
    out: &mut W,
) -> io::Result<()>
    requires { IsReader row.now reader.old }
    ensures { OnOk result (IsReader row.now reader.new) }
{
    let (kind, words) = known(call.split_once(':'))?;
    match kind {
        "publish" => publish(rt, row, reader, parsed::<u32>(words)?, out),
        "pin" => pin(row, reader, words, out),
        "session" => begin(row, reader, words),
        "agree" => put_agree(row, reader.tokens.as_slice(), words, out),
        _ => Err(unknown_line()),
    }
}

// Does calls, one after another.
fn answer_calls<R: Wait, W: Write>(
    rt: &R,
    row: &VersionRow<Version>,
    reader: &mut Reader,
    calls: &str,
    out: &mut W,
) -> io::Result<()>
    requires { IsReader row.now reader.old }
{
    for call in calls.split(' ') {
        answer_call(rt, row, reader, call, out)?;
    }
    Ok(())
}

/// Calls on a row, one after another.
pub(crate) fn answer_row<R: Wait, W: Write>(
    rt: &R,
    alloc: Global,
    desc: Arc<CubeDesc>,
    words: &mut Words<'_>,
    out: &mut W,
) -> io::Result<()> {
    let version = words.number()?;
    let row = VersionRow::new(alloc, desc)?;
    let first = row.publish(rt, Version(version))?;
    let mut reader = reader_of(alloc, &row, first)?;
    answer_calls(rt, &row, &mut reader, words.rest(), out)
}
