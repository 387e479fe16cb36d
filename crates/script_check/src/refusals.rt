// Why a command is refused, by its word.

use calendar::Day;
use check_lines::{Words, known, unknown_line};
use cube_val::NameText;
use job_machine::{JobKind, JobState};
use query_faults::{BindFault, BindKind, SqlFault, SqlKind};
use range_list::Range;
use script_text::Refused;
use std::alloc::Global;
use std::io;

/// The name that the next word is.
pub(crate) fn name(alloc: Global, words: &mut Words<'_>) -> io::Result<NameText> {
    let word = words.next()?;
    Ok(NameText::new(alloc, word.as_bytes())?)
}

// The day that the next word is.
fn day(words: &mut Words<'_>) -> io::Result<Day> {
    let word = words.next()?;
    known(Day::read(word.as_bytes()))
}

/// The range that the next two words are.
pub(crate) fn range(words: &mut Words<'_>) -> io::Result<Range> {
    let start = day(words)?;
    let end = day(words)?;
    known(Range::new(start, end))
}

/// The state that the next word is.
pub(crate) fn state(words: &mut Words<'_>) -> io::Result<JobState> {
    match words.next()? {
        "PENDING" => Ok(JobState::Pending),
        "RUNNING" => Ok(JobState::Running),
        "ERROR" => Ok(JobState::Error),
        "STOPPED" => Ok(JobState::Stopped),
        "DISCARDED" => Ok(JobState::Discarded),
        "FINISHED" => Ok(JobState::Finished),
        _ => Err(unknown_line()),
    }
}

/// The kind of job that the next word is.
pub(crate) fn kind(words: &mut Words<'_>) -> io::Result<JobKind> {
    match words.next()? {
        "BUILD" => Ok(JobKind::Build),
        "REFRESH" => Ok(JobKind::Refresh),
        "MERGE" => Ok(JobKind::Merge),
        _ => Err(unknown_line()),
    }
}

// The fault of a query's text that the next two words are.
fn sql_fault(words: &mut Words<'_>) -> io::Result<SqlFault> {
    let kind = match words.next()? {
        "TooLong" => SqlKind::TooLong,
        "BadToken" => SqlKind::BadToken,
        "BadNumber" => SqlKind::BadNumber,
        "TooDeep" => SqlKind::TooDeep,
        "Unexpected" => SqlKind::Unexpected,
        _ => return Err(unknown_line()),
    };
    let place = words.number()?;
    Ok(SqlFault { place, kind })
}

// The fault of a query over a cube that the next two words are.
fn bind_fault(words: &mut Words<'_>) -> io::Result<BindFault> {
    let kind = match words.next()? {
        "NoTable" => BindKind::NoTable,
        "NoColumn" => BindKind::NoColumn,
        "NotDimension" => BindKind::NotDimension,
        "NoMeasure" => BindKind::NoMeasure,
        "JoinMissing" => BindKind::JoinMissing,
        "JoinNotInModel" => BindKind::JoinNotInModel,
        "TypeClash" => BindKind::TypeClash,
        "NotGrouped" => BindKind::NotGrouped,
        _ => return Err(unknown_line()),
    };
    let place = words.number()?;
    Ok(BindFault { place, kind })
}

/// The refusal that the words are.
pub(crate) fn refused(alloc: Global, words: &mut Words<'_>) -> io::Result<Refused> {
    match words.next()? {
        "NotLoaded" => Ok(Refused::NotLoaded(name(alloc, words)?)),
        "TooManySegments" => Ok(Refused::TooManySegments),
        "OverlapsSegment" => Ok(Refused::OverlapsSegment(range(words)?)),
        "OverlapsJob" => Ok(Refused::OverlapsJob(words.number()?)),
        "NoSuchSegment" => Ok(Refused::NoSuchSegment),
        "NotOnBounds" => Ok(Refused::NotOnBounds),
        "OneSegment" => Ok(Refused::OneSegment),
        "Hole" => Ok(Refused::Hole(day(words)?)),
        "LookupsDiffer" => Ok(Refused::LookupsDiffer(name(alloc, words)?)),
        "NoSuchJob" => Ok(Refused::NoSuchJob(words.number()?)),
        "JobEnded" => Ok(Refused::JobEnded(state(words)?)),
        "WrongState" => Ok(Refused::WrongState(state(words)?)),
        "NoSuchTable" => Ok(Refused::NoSuchTable(name(alloc, words)?)),
        "Sql" => Ok(Refused::Sql(sql_fault(words)?)),
        "Bind" => Ok(Refused::Bind(bind_fault(words)?)),
        _ => Err(unknown_line()),
    }
}
