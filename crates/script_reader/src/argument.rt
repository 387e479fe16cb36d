// The arguments of commands.

ghost use Rattle.std.specs.Prelude.{◌≡◌, ◌&&◌, ◌==◌, ◌<◌, ◌≤◌, ◌^◌, not, true, nat_le, length, map, IfOk, Some};
ghost use Rattle.std.specs.Char.{is_ascii_digit, to_ascii_uppercase};
ghost use Rattle.std.specs.List.{list_all};
ghost use Rattle.std.specs.Str.{is_utf8};
ghost use Rattle.std.specs.Str.Parse.{AllDigits, digits_value};
ghost use Rattle.script_reader.specs.Instructions.{are_digits, await_in, load_in, most_of_name, most_of_session, nothing_in, number_in, number_of, ok_if, only_word, path_in, query_in, range_in, said_by, two_words};
ghost use Rattle.script_reader.specs.Lines.{text_after_word, words_of};
ghost use Rattle.script_reader.specs.Names.{begins_name, continues_name, is_name, name_of};
ghost use Rattle.script_reader.specs.Reading.{Gives};
ghost use Rattle.script_reader.specs.declared.fault.ScriptKind.TheVariants as kind;

use crate::fault::{LineRefusal, ScriptKind};
use crate::instruction::Instruction;
use crate::word::{CommandWord, has_no_word, next_word, only_word, text_after_word, two_words};
use calendar::Day;
use cube_val::{Items, NameText};
use range_list::Range;
use script_text::PathText;
use std::alloc::{AllocError, Global};

/// The most bytes of a name.
const NAME_MAX: usize = 64;

/// The most bytes of a session's name.
const SESSION_MAX: usize = 32;

/// The most digits of a job's number.
const NUMBER_MAX: usize = 9;

// Whether a name begins with this byte.
fn begins_name(byte: u8) -> bool
    ensures { result ≡ begins_name byte }
{
    byte.is_ascii_alphabetic() || byte == b'_'
}

// Whether a name goes on with this byte.
fn continues_name(byte: u8) -> bool
    ensures { result ≡ continues_name byte }
{
    byte.is_ascii_alphanumeric() || byte == b'_'
}

// Whether the bytes are a name of at most so many.
fn is_name(most: usize, bytes: &[u8]) -> bool
    ensures { result ≡ is_name most bytes.now }
{
    match bytes {
        [] => false,
        [first, ..] => bytes.len() <= most && begins_name(*first) && are_name_bytes(bytes),
    }
}

// Whether a name may have each of these bytes after its first.
fn are_name_bytes(bytes: &[u8]) -> bool
    ensures { result ≡ list_all continues_name bytes.now }
{
    bytes.iter().all(|byte| continues_name(*byte))
}

// The name that the bytes write.
fn name_of(alloc: Global, bytes: &[u8]) -> Result<NameText, AllocError>
    ensures { IfOk result (λ name. name ≡ name_of bytes.now) }
{
    let upper: Vec<u8> = bytes
        .iter()
        .map(|byte| byte.to_ascii_uppercase())
        .collect(alloc)?;
    NameText::new(alloc, upper.as_slice())
}

// The path that a word is.
fn path_of(alloc: Global, word: &[u8]) -> Result<PathText, LineRefusal>
    ensures { Gives (ok_if (is_utf8 word.now) word.now kind.BadArguments) result }
{
    let Ok(text) = str::from_utf8(word) else {
        return Err(LineRefusal::Fault(ScriptKind::BadArguments));
    };
    Ok(PathText::new(alloc, text)?)
}

// The path of `descriptor`.
fn path_in(alloc: Global, arguments: &[u8]) -> Result<PathText, LineRefusal>
    ensures { Gives (path_in (only_word (words_of arguments.now))) result }
{
    match only_word(arguments) {
        Some(word) => path_of(alloc, word),
        None => Err(LineRefusal::Fault(ScriptKind::BadArguments)),
    }
}

// The name and the path of `load`.
fn load_of(alloc: Global, name: &[u8], path: &[u8]) -> Result<Instruction, LineRefusal>
    ensures { Gives (load_in (Some (name.now, path.now))) result }
{
    if !is_name(NAME_MAX, name) {
        return Err(LineRefusal::Fault(ScriptKind::BadArguments));
    }
    let path = path_of(alloc, path)?;
    let name = name_of(alloc, name)?;
    Ok(Instruction::Load(name, path))
}

fn load_in(alloc: Global, arguments: &[u8]) -> Result<Instruction, LineRefusal>
    ensures { Gives (load_in (two_words (words_of arguments.now))) result }
{
    match two_words(arguments) {
        Some((name, path)) => load_of(alloc, name, path),
        None => Err(LineRefusal::Fault(ScriptKind::BadArguments)),
    }
}

// The range of two dates.
fn range_of(start: &[u8], end: &[u8]) -> Result<Range, LineRefusal>
    ensures { Gives (range_in (Some (start.now, end.now))) result }
{
    let Some(start) = Day::read(start) else {
        return Err(LineRefusal::Fault(ScriptKind::BadDate));
    };
    let Some(end) = Day::read(end) else {
        return Err(LineRefusal::Fault(ScriptKind::BadDate));
    };
    match Range::new(start, end) {
        Some(range) => Ok(range),
        None => Err(LineRefusal::Fault(ScriptKind::BadRange)),
    }
}

fn range_in(arguments: &[u8]) -> Result<Range, LineRefusal>
    ensures { Gives (range_in (two_words (words_of arguments.now))) result }
{
    match two_words(arguments) {
        Some((start, end)) => range_of(start, end),
        None => Err(LineRefusal::Fault(ScriptKind::BadArguments)),
    }
}

// Whether each byte is a digit.
fn all_digits(bytes: &[u8]) -> bool
    ensures { result ≡ list_all is_ascii_digit bytes.now }
{
    bytes.iter().all(|byte| byte.is_ascii_digit())
}

// Whether the bytes are digits, one at least.
fn are_digits(bytes: &[u8]) -> bool
    ensures { result ≡ are_digits bytes.now }
{
    !bytes.is_empty() && all_digits(bytes)
}

// The number that digits write.
fn digits_value(digits: &[u8]) -> u32
    requires digits { list_all is_ascii_digit digits.now ≡ true }
    requires few { length digits.now ≤ 9 }
    ensures { result ≡ digits_value 10 digits.now }
{
    let mut number = 0;
    for digit in digits {
        number = number * 10 + u32::from(*digit - b'0');
    }
    number
}

// The number of 1 to 9 digits.
fn number_of(word: &[u8]) -> Result<u32, LineRefusal>
    ensures { Gives (number_of word.now) result }
{
    if are_digits(word) && word.len() <= NUMBER_MAX {
        Ok(digits_value(word))
    } else {
        Err(LineRefusal::Fault(ScriptKind::BadNumber))
    }
}

// The number of a job.
fn number_in(arguments: &[u8]) -> Result<u32, LineRefusal>
    ensures { Gives (number_in (only_word (words_of arguments.now))) result }
{
    match only_word(arguments) {
        Some(word) => number_of(word),
        None => Err(LineRefusal::Fault(ScriptKind::BadArguments)),
    }
}

// What `await` waits for.
fn await_of(word: &[u8]) -> Result<Instruction, LineRefusal>
    ensures { Gives (await_in (Some word.now)) result }
{
    if word == b"jobs".as_slice() {
        Ok(Instruction::AwaitJobs)
    } else if word == b"queries".as_slice() {
        Ok(Instruction::AwaitQueries)
    } else if are_digits(word) {
        Ok(Instruction::AwaitJob(number_of(word)?))
    } else {
        Err(LineRefusal::Fault(ScriptKind::BadArguments))
    }
}

fn await_in(arguments: &[u8]) -> Result<Instruction, LineRefusal>
    ensures { Gives (await_in (only_word (words_of arguments.now))) result }
{
    match only_word(arguments) {
        Some(word) => await_of(word),
        None => Err(LineRefusal::Fault(ScriptKind::BadArguments)),
    }
}

// A command that takes no argument.
fn nothing_in(said: Instruction, arguments: &[u8]) -> Result<Instruction, LineRefusal>
    ensures { Gives (nothing_in said (words_of arguments.now)) result }
{
    if has_no_word(arguments) {
        Ok(said)
    } else {
        Err(LineRefusal::Fault(ScriptKind::BadArguments))
    }
}

// The session and the text of `query`.
fn query_in(alloc: Global, arguments: &[u8]) -> Result<Instruction, LineRefusal>
    ensures { Gives (query_in (words_of arguments.now) (text_after_word arguments.now)) result }
{
    let Some((session, _)) = next_word(arguments) else {
        return Err(LineRefusal::Fault(ScriptKind::BadArguments));
    };
    let text = text_after_word(arguments);
    if !is_name(SESSION_MAX, session) || text.is_empty() {
        return Err(LineRefusal::Fault(ScriptKind::BadArguments));
    }
    let session = name_of(alloc, session)?;
    let text = Items::from_slice(alloc, text)?;
    Ok(Instruction::Query(session, text))
}

/// What a command word with these arguments says.
pub fn said_by(
    alloc: Global,
    word: CommandWord,
    arguments: &[u8],
) -> Result<Instruction, LineRefusal>
    ensures { Gives (said_by word (words_of arguments.now) (text_after_word arguments.now)) result }
{
    match word {
        CommandWord::Descriptor => Ok(Instruction::Descriptor(path_in(alloc, arguments)?)),
        CommandWord::Load => load_in(alloc, arguments),
        CommandWord::Build => Ok(Instruction::Build(range_in(arguments)?)),
        CommandWord::Refresh => Ok(Instruction::Refresh(range_in(arguments)?)),
        CommandWord::Merge => Ok(Instruction::Merge(range_in(arguments)?)),
        CommandWord::Drop => Ok(Instruction::Drop(range_in(arguments)?)),
        CommandWord::Pause => Ok(Instruction::Pause(number_in(arguments)?)),
        CommandWord::Resume => Ok(Instruction::Resume(number_in(arguments)?)),
        CommandWord::Discard => Ok(Instruction::Discard(number_in(arguments)?)),
        CommandWord::Await => await_in(arguments),
        CommandWord::Jobs => nothing_in(Instruction::Jobs, arguments),
        CommandWord::Segments => nothing_in(Instruction::Segments, arguments),
        CommandWord::Query => query_in(alloc, arguments),
    }
}
