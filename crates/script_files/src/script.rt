// Whole scripts.

ghost use Rattle.std.specs.Prelude.{◌≡◌, ◌<◌, ◌≤◌, ◌+◌, ◌++◌, ◌∷◌, [], ℕ, List, Some, None, IfOk, IsErrOf, OnErr, OnOk, map};
ghost use Rattle.std.specs.List.{slice_split};
ghost use Rattle.script_files.specs.Reading.{HasRead, IsSmall, Takes, next_counts, refused_at};
ghost use Rattle.script_files.specs.Scripts.{AreGood, IsFirstFault, IsNoScript, IsScript, counts_of, session_in, verb_of, with_name};
ghost use Rattle.script_reader.specs.Faults.{fault_after};
ghost use Rattle.script_reader.specs.Lines.{is_line_feed, without_last};
ghost use Rattle.script_reader.specs.declared.fault.ScriptFault.{ScriptFault};
ghost use Rattle.script_reader.specs.declared.fault.ScriptKind.{ScriptKind};

use crate::session::Sessions;
use script_reader::{
    CommandWord, Counts, Instruction, LineRefusal, Said, ScriptFault, ScriptKind, read_line,
};
use script_text::{Line, Script, Verb};
use std::alloc::{AllocError, Global};

/// Why bytes are no script.
#[derive(Clone, Copy, Debug, PartialEq, Eq)]
pub enum ScriptRefusal {
    /// The first line that has a fault, from 1, and its kind; `NoDescriptor` at line 0 where there is no command.
    Fault(ScriptFault),
    Memory,
}

/// What was read of a script, line by line.
#[derive(Drop)]
pub struct ScriptReader {
    pub script: Script,
    pub sessions: Sessions,
    pub counts: Counts,
}

// The bytes without their last one, where it is this byte.
fn without_last(byte: u8, bytes: &[u8]) -> &[u8]
    requires { 0 < byte }
    ensures { result.now ≡ without_last byte bytes.now }
{
    match bytes.split_last() {
        Some((last, rest)) => { if *last == byte { rest } else { bytes } }
        None => bytes,
    }
}

// The parts of a text that LF parts.
fn parts_of(alloc: Global, text: &[u8]) -> Result<Vec<&[u8]>, AllocError>
    ensures { IfOk result (λ parts. map (λ part. part.now) parts.items ≡ slice_split is_line_feed text.now) }
{
    text.split(|byte| *byte == b'\n').collect(alloc)
}

// The counts after one line more.
fn counted(counts: Counts, word: Option<CommandWord>) -> Counts
    requires { IsSmall counts }
    ensures { result ≡ next_counts counts word }
{
    let lines = counts.lines + 1;
    let Some(word) = word else {
        return Counts {
            lines,
            started: counts.started,
            loads: counts.loads,
            jobs: counts.jobs,
        };
    };
    match word {
        CommandWord::Load => Counts {
            lines,
            started: true,
            loads: counts.loads + 1,
            jobs: counts.jobs,
        },
        CommandWord::Build | CommandWord::Refresh | CommandWord::Merge | CommandWord::Drop =>
            Counts {
                lines,
                started: true,
                loads: counts.loads,
                jobs: counts.jobs + 1,
            },
        _ => Counts {
            lines,
            started: true,
            loads: counts.loads,
            jobs: counts.jobs,
        },
    }
}

// What an instruction asks for, with the number of its session.
fn verb_of(alloc: Global, sessions: &mut Sessions, said: Instruction) -> Result<Verb, AllocError>
    ensures verb { IfOk result (λ verb. verb ≡ verb_of sessions.old said) }
    ensures sessions { OnOk result (sessions.new ≡ with_name sessions.old (session_in (Some said))) }
{
    match said {
        Instruction::Descriptor(path) => Ok(Verb::Descriptor(path)),
        Instruction::Load(name, path) => Ok(Verb::Load(name, path)),
        Instruction::Build(range) => Ok(Verb::Build(range)),
        Instruction::Refresh(range) => Ok(Verb::Refresh(range)),
        Instruction::Merge(range) => Ok(Verb::Merge(range)),
        Instruction::Drop(range) => Ok(Verb::Drop(range)),
        Instruction::Pause(job) => Ok(Verb::Pause(job)),
        Instruction::Resume(job) => Ok(Verb::Resume(job)),
        Instruction::Discard(job) => Ok(Verb::Discard(job)),
        Instruction::AwaitJob(job) => Ok(Verb::AwaitJob(job)),
        Instruction::AwaitJobs => Ok(Verb::AwaitJobs),
        Instruction::AwaitQueries => Ok(Verb::AwaitQueries),
        Instruction::Jobs => Ok(Verb::Jobs),
        Instruction::Segments => Ok(Verb::Segments),
        Instruction::Query(name, text) => {
            let number = sessions.number(alloc, &name)?;
            Ok(Verb::Query(number, text))
        }
    }
}

impl ScriptReader {
    // Before the first line.
    fn new(alloc: Global) -> ScriptReader
        ensures read { HasRead [] result }
        ensures small { IsSmall result.counts }
    {
        ScriptReader {
            script: Script::new(alloc),
            sessions: Sessions::new(alloc),
            counts: Counts {
                lines: 0,
                started: false,
                loads: 0,
                jobs: 0,
            },
        }
    }

    // Takes what a line says.
    fn take(&mut self, alloc: Global, said: Said) -> Result<(), AllocError>
        requires { IsSmall self.old.counts }
        ensures takes { OnOk result (Takes self.old self.new said) }
        ensures stays { OnErr result (self.new.counts ≡ self.old.counts) }
    {
        let Said { word, instruction } = said;
        let verb = verb_of(alloc, &mut self.sessions, instruction)?;
        let line = Line {
            number: self.counts.lines + 1,
            verb,
        };
        self.script.push(line)?;
        self.counts = counted(self.counts, Some(word));
        Ok(())
    }

    // Reads the next line.
    fn read(&mut self, alloc: Global, line: &[u8]) -> Result<(), LineRefusal>
        requires { IsSmall self.old.counts }
        ensures ok { OnOk result ((before : List (List ℕ)) → HasRead before self.old → HasRead (before ++ line.now ∷ []) self.new) }
        ensures good { OnOk result ((before : List (List ℕ)) → HasRead before self.old → fault_after (counts_of before) line.now ≡ None) }
        ensures fault { (kind : ScriptKind) → IsErrOf result (LineRefusal.Fault kind) → (before : List (List ℕ)) → HasRead before self.old → fault_after (counts_of before) line.now ≡ Some kind }
        ensures stays { OnErr result (self.new.counts ≡ self.old.counts) }
        ensures small { OnOk result (IsSmall self.new.counts) }
    {
        match read_line(alloc, self.counts, line) {
            Ok(None) => {
                self.counts = counted(self.counts, None);
                Ok(())
            }
            Ok(Some(said)) => {
                self.take(alloc, said)?;
                Ok(())
            }
            Err(refusal) => Err(refusal),
        }
    }
}

// Why a script isn't read, of which the line of this number wasn't.
fn refused_at(line: u32, refusal: LineRefusal) -> ScriptRefusal
    ensures { result ≡ refused_at line refusal }
{
    match refusal {
        LineRefusal::Fault(kind) => ScriptRefusal::Fault(ScriptFault { line, kind }),
        LineRefusal::Memory => ScriptRefusal::Memory,
    }
}

// Reads the lines that the parts of a text are, each without its last byte where that is a carriage return.
fn read_parts(alloc: Global, parts: &[&[u8]]) -> Result<ScriptReader, ScriptRefusal>
    ensures read { IfOk result (λ reader. HasRead (map (λ part. without_last 13 part.now) parts.now) reader) }
    ensures good { OnOk result (AreGood (map (λ part. without_last 13 part.now) parts.now)) }
    ensures fault { (fault : ScriptFault) → IsErrOf result (ScriptRefusal.Fault fault) → IsFirstFault (map (λ part. without_last 13 part.now) parts.now) fault }
{
    let mut reader = ScriptReader::new(alloc);
    for part in parts {
        match reader.read(alloc, without_last(b'\r', part)) {
            Ok(()) => {}
            Err(refusal) => return Err(refused_at(reader.counts.lines + 1, refusal)),
        }
    }
    Ok(reader)
}

/// The script that the bytes are: its commands with their lines, and sessions by the numbers of their names, from 0 on in the order of
/// their first queries.
pub fn read_script(alloc: Global, bytes: &[u8]) -> Result<Script, ScriptRefusal>
    ensures ok { IfOk result (λ script. IsScript bytes.now script) }
    ensures fault { (fault : ScriptFault) → IsErrOf result (ScriptRefusal.Fault fault) → IsNoScript bytes.now fault }
{
    let text = without_last(b'\n', bytes);
    let Ok(parts) = parts_of(alloc, text) else {
        return Err(ScriptRefusal::Memory);
    };
    let reader = match read_parts(alloc, parts.as_slice()) {
        Ok(reader) => reader,
        Err(refusal) => return Err(refusal),
    };
    if reader.counts.started {
        Ok(reader.script)
    } else {
        Err(ScriptRefusal::Fault(ScriptFault {
            line: 0,
            kind: ScriptKind::NoDescriptor,
        }))
    }
}
