// Why a command was refused.

use calendar::Day;
use cube_val::NameText;
use job_machine::JobState;
use query_faults::{BindFault, SqlFault};
use range_list::Range;

/// Why a command was refused. A refused command is an event and changes nothing else.
#[derive(Drop)]
pub enum Refused {
    /// This table was never loaded.
    NotLoaded(NameText),
    /// There are as many ready segments and live BUILD jobs as there may be.
    TooManySegments,
    /// The first ready segment whose range overlaps has this range.
    OverlapsSegment(Range),
    /// This job is live and its range overlaps; it is the least such number.
    OverlapsJob(u32),
    /// No ready segment has exactly the range.
    NoSuchSegment,
    /// No ready segment starts where the range starts, or none ends where it ends.
    NotOnBounds,
    /// One ready segment has the range.
    OneSegment,
    /// The first day of the range that no ready segment holds.
    Hole(Day),
    /// The rows of this lookup differ between two of the segments.
    LookupsDiffer(NameText),
    /// There is no job of this number.
    NoSuchJob(u32),
    /// The job is DISCARDED or FINISHED.
    JobEnded(JobState),
    /// The job is live, in a state that the command has no use for.
    WrongState(JobState),
    /// The cube has no table of this name.
    NoSuchTable(NameText),
    /// The query's text has this fault.
    Sql(SqlFault),
    /// The cube can't answer the query, for this fault.
    Bind(BindFault),
}
