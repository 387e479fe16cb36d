// One line after others.

ghost use Rattle.std.specs.Prelude.{◌≡◌, ◌==◌, slice_index};
ghost use Rattle.script_reader.specs.Faults.{order_fault, room_fault};
ghost use Rattle.std.specs.Str.{is_utf8};
ghost use Rattle.script_reader.specs.Lines.{after_word, hash, text_after_word, words_of};
ghost use Rattle.script_reader.specs.Reading.{Checks, ReadsCommand, ReadsLine, ReadsWords};

use crate::argument::said_by;
use crate::fault::{LineRefusal, ScriptKind};
use crate::instruction::Instruction;
use crate::word::{CommandWord, command_word, next_word};
use std::alloc::Global;

/// The most lines of a script.
const LINES_MAX: u32 = 10_000;

/// The most lines with `load`.
const LOADS_MAX: u32 = 64;

/// The most lines with `build`, `refresh`, `merge` or `drop`.
const JOBS_MAX: u32 = 1_000;

/// What matters of the lines before a line: how many they are, whether one is a command, and how many are loads and jobs.
#[derive(Clone, Copy, Debug, PartialEq, Eq)]
pub struct Counts {
    pub lines: u32,
    pub started: bool,
    pub loads: u32,
    pub jobs: u32,
}

/// What a line says, and the word with which it says it.
#[derive(Debug, Drop)]
pub struct Said {
    pub word: CommandWord,
    pub instruction: Instruction,
}

// `descriptor` is the first command, and no other one.
fn check_order(counts: Counts, word: CommandWord) -> Result<(), LineRefusal>
    ensures { Checks (order_fault counts.started word) result }
{
    match (counts.started, word) {
        (false, CommandWord::Descriptor) => Ok(()),
        (true, CommandWord::Descriptor) => Err(LineRefusal::Fault(ScriptKind::SecondDescriptor)),
        (false, _) => Err(LineRefusal::Fault(ScriptKind::NoDescriptor)),
        (true, _) => Ok(()),
    }
}

// There are not too many loads and jobs.
fn check_room(counts: Counts, word: CommandWord) -> Result<(), LineRefusal>
    ensures { Checks (room_fault counts word) result }
{
    match word {
        CommandWord::Load => {
            if counts.loads >= LOADS_MAX {
                return Err(LineRefusal::Fault(ScriptKind::TooManyLoads));
            }
            Ok(())
        }
        CommandWord::Build | CommandWord::Refresh | CommandWord::Merge | CommandWord::Drop => {
            if counts.jobs >= JOBS_MAX {
                return Err(LineRefusal::Fault(ScriptKind::TooManyJobs));
            }
            Ok(())
        }
        _ => Ok(()),
    }
}

// Whether a word begins a comment.
fn is_comment(word: &[u8]) -> bool
    ensures { result ≡ (slice_index word.now 0 == hash) }
{
    match word {
        [first, ..] => *first == b'#',
        [] => false,
    }
}

// What a command says after these lines.
fn read_command(
    alloc: Global,
    counts: Counts,
    word: CommandWord,
    arguments: &[u8],
) -> Result<Said, LineRefusal>
    ensures { ReadsCommand counts word (words_of arguments.now) (text_after_word arguments.now) result }
{
    check_order(counts, word)?;
    let instruction = said_by(alloc, word, arguments)?;
    check_room(counts, word)?;
    Ok(Said { word, instruction })
}

// Whether the bytes are UTF-8.
fn is_utf8(bytes: &[u8]) -> bool
    ensures { result ≡ is_utf8 bytes.now }
{
    match str::from_utf8(bytes) {
        Ok(_) => true,
        Err(_) => false,
    }
}

// What the words of a line say after these lines; `None` where the line is passed over.
fn read_words(alloc: Global, counts: Counts, line: &[u8]) -> Result<Option<Said>, LineRefusal>
    ensures { ReadsWords counts (words_of line.now) (text_after_word (after_word line.now)) result }
{
    let Some((word, rest)) = next_word(line) else {
        return Ok(None);
    };
    if is_comment(word) {
        return Ok(None);
    }
    let Some(word) = command_word(word) else {
        return Err(LineRefusal::Fault(ScriptKind::UnknownCommand));
    };
    match read_command(alloc, counts, word, rest) {
        Ok(said) => Ok(Some(said)),
        Err(refusal) => Err(refusal),
    }
}

/// What a line says after these lines; `None` where it is passed over.
pub fn read_line(alloc: Global, counts: Counts, line: &[u8]) -> Result<Option<Said>, LineRefusal>
    ensures { ReadsLine counts line.now result }
{
    if !is_utf8(line) {
        return Err(LineRefusal::Fault(ScriptKind::NotUtf8));
    }
    if counts.lines >= LINES_MAX {
        return Err(LineRefusal::Fault(ScriptKind::TooManyLines));
    }
    read_words(alloc, counts, line)
}
