// What the lines of a script ask for.

ghost use Rattle.std.specs.Prelude.{◌≡◌, ◌++◌, ◌∷◌, [], OnOk, OnErr};

use crate::path::PathText;
use cube_val::{Items, NameText};
use range_list::Range;
use std::alloc::{AllocError, Global};
use std::marker::Model;

/// What a line of a script asks for.
#[derive(Debug, Drop)]
pub enum Verb {
    /// The descriptor of the cube stands at this path. It is the first command, and the only one of its kind.
    Descriptor(PathText),
    /// Load the table of this name from the file at the path.
    Load(NameText, PathText),
    /// Make the segment of a range that has none.
    Build(Range),
    /// Make the segment of a range again.
    Refresh(Range),
    /// Make one segment of those in the range.
    Merge(Range),
    /// Take the segment of the range away.
    Drop(Range),
    /// Stop this job.
    Pause(u32),
    /// Let this job go on.
    Resume(u32),
    /// Give this job up.
    Discard(u32),
    /// Wait until this job is neither PENDING nor RUNNING.
    AwaitJob(u32),
    /// Wait until no job is PENDING or RUNNING.
    AwaitJobs,
    /// Wait until each accepted query has its end.
    AwaitQueries,
    /// Print the jobs.
    Jobs,
    /// Print the ready segments.
    Segments,
    /// Answer this text in the session of this number. Sessions are numbered from 0 in the order of their first lines.
    Query(u32, Items<u8>),
}

/// A command of a script, with the number of its line, from 1.
#[derive(Debug, Drop)]
pub struct Line {
    pub number: u32,
    pub verb: Verb,
}

/// The commands of a script in order. Contracts see the list of them.
#[derive(Debug, Drop)]
pub struct Script {
    lines: Vec<Line>,
}

impl Model for Script {
    ghost use Rattle.std.specs.Prelude.{List};
    ghost use Rattle.script_text.specs.declared.verb.Line.{Line};

    ghost Value = { List Line };

    ghost view = { λ script. script.lines.items };
}

impl Script {
    /// A script of no command.
    pub fn new(alloc: Global) -> Script
        ensures { result ≡ [] }
    {
        Script {
            lines: Vec::new(alloc),
        }
    }

    /// Adds a command at the end.
    pub fn push(&mut self, line: Line) -> Result<(), AllocError>
        ensures ok { OnOk result (self.new ≡ self.old ++ line ∷ []) }
        ensures err { OnErr result (self.new ≡ self.old) }
    {
        self.lines.push(line)?;
        Ok(())
    }

    /// The commands in order.
    pub fn lines(&self) -> &[Line]
        ensures { result.now ≡ self.now }
    {
        self.lines.as_slice()
    }

    /// The commands, given back. It takes no memory.
    pub fn into_lines(self) -> Vec<Line>
        ensures { result.items ≡ self }
    {
        let Script { lines } = self;
        lines
    }
}
