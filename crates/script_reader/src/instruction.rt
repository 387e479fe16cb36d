// What a line says, with the session of a query by its name.

use cube_val::{Items, NameText};
use range_list::Range;
use script_text::PathText;

/// What a line says. It is a `Verb` whose session has no number yet.
#[derive(Debug, Drop)]
pub enum Instruction {
    Descriptor(PathText),
    Load(NameText, PathText),
    Build(Range),
    Refresh(Range),
    Merge(Range),
    Drop(Range),
    Pause(u32),
    Resume(u32),
    Discard(u32),
    AwaitJob(u32),
    AwaitJobs,
    AwaitQueries,
    Jobs,
    Segments,
    /// The session's name, and the text of the query.
    Query(NameText, Items<u8>),
}
