// What refuses submissions and drops.

ghost use Rattle.std.specs.Prelude.{◌≡◌, ◌+◌, ◌≤◌, ◌&&◌, ℕ, nat_le, [], Some, None, IfOk, IfSome, count_by, find, length, map, not, option_map, position, is_none};
ghost use Rattle.std.specs.List.{list_any};
ghost use Rattle.std.specs.Option.{option_or};
ghost use Rattle.job_machine.specs.declared.state.JobKind.TheVariants.{Build, Merge, Refresh};
ghost use Rattle.run_history.specs.Commands.Command.{Submit, Drop as DropRange};
ghost use Rattle.run_history.specs.Invariants.{ranges_of};
ghost use Rattle.run_history.specs.Sets.{ReadySet, is_overlap, is_same_range};
ghost use Rattle.run_history.specs.Verdicts.{most_segments, first_free_day, is_on_bounds, is_ready, refused_if, verdict};
ghost use Rattle.run_history.specs.declared.refused.Refused.TheVariants.{NoSuchSegment, OneSegment, OverlapsJob};
ghost use Rattle.run_history.specs.World.{World, is_build, is_live};
ghost use Rattle.run_state.specs.Answers.{named, of_cover};
ghost use Rattle.run_state.specs.States.{IsStateOf};

use crate::parts::{JobEntry, RunState};
use crate::ready::ReadyHandle;
use crate::table::TableHandle;
use cube_val::NameText;
use job_machine::{Job, JobKind, JobState};
use range_list::{Cover, Range, RangeList};
use run_history::Refused;
use std::alloc::AllocError;

/// The most ready segments and live BUILD jobs together.
const MOST_SEGMENTS: usize = 128;

fn live(state: JobState) -> bool
    ensures { result ≡ is_live state }
{
    match state {
        JobState::Discarded | JobState::Finished => false,
        JobState::Pending | JobState::Running | JobState::Error | JobState::Stopped => true,
    }
}

fn live_build(job: &Job) -> bool
    ensures { result ≡ (is_live job.now.state && is_build job.now.kind) }
{
    match job.kind {
        JobKind::Build => live(job.state),
        JobKind::Refresh | JobKind::Merge => false,
    }
}

// Whether there are as many ready segments and live BUILD jobs as there may be.
fn is_full(segments: usize, builds: usize) -> bool
    ensures { result ≡ nat_le most_segments (segments + builds) }
{
    if segments >= MOST_SEGMENTS {
        return true;
    }
    if builds >= MOST_SEGMENTS - segments {
        return true;
    }
    false
}

fn overlap(a: &Range, b: &Range) -> bool
    ensures { result ≡ is_overlap a.now b.now }
{
    a.start() < b.end() && b.start() < a.end()
}

// The place of the first table that no load has given.
fn first_absent<T>(loaded: &[Option<T>]) -> Option<usize>
    ensures { result ≡ position is_none loaded.now }
{
    loaded.iter().position(|table| table.is_none())
}

// How many live BUILD jobs there are.
fn builds<T, P>(jobs: &[JobEntry<T, P>]) -> usize
    ensures { result ≡ count_by (λ entry. is_live entry.job.state && is_build entry.job.kind) jobs.now }
{
    jobs.iter().filter(|entry| live_build(&entry.job)).count()
}

// The job is live and its range overlaps.
fn blocks<T, P>(entry: &JobEntry<T, P>, range: &Range) -> bool
    ensures { result ≡ (is_live entry.now.job.state && is_overlap entry.now.range range.now) }
{
    live(entry.job.state) && overlap(&entry.range, range)
}

// The number of the first live job whose range overlaps.
fn overlapping_job<T, P>(jobs: &[JobEntry<T, P>], range: &Range) -> Option<u32>
    ensures { result ≡ option_map (λ entry. entry.job.id) (find (λ entry. is_live entry.job.state && is_overlap entry.range range.now) jobs.now) }
{
    jobs.iter()
        .find(|entry| blocks(entry, range))
        .map(|entry| entry.job.id)
}

// The first range that overlaps.
fn overlapping_range(ranges: &RangeList, range: &Range) -> Option<Range>
    ensures { result ≡ find (λ other. is_overlap other range.now) ranges.now }
{
    for place in 0..ranges.len() {
        let other = ranges.get(place);
        if overlap(&other, range) {
            return Some(other);
        }
    }
    None
}

/// The first refusal that applies to a BUILD of a range, where the tables have these names; `None` where it is accepted.
pub fn build_refusal<T: TableHandle, P: Drop, R: ReadyHandle, Q: Drop>(
    state: &RunState<T, P, R, Q>,
    names: &[NameText],
    range: &Range,
) -> Result<Option<Refused>, AllocError>
    requires { length names.now ≡ length state.now.loaded.items }
    ensures { IfOk result (λ refusal. (w : World Q) → IsStateOf T.rows R.ready_set w state.now → refusal ≡ verdict (named names.now) w (Submit Build range.now)) }
{
    if let Some(table) = first_absent(&state.loaded) {
        let name = names[table].copy()?;
        return Ok(Some(Refused::NotLoaded(name)));
    }
    let ranges = state.ready.ranges();
    if is_full(ranges.len(), builds(&state.jobs)) {
        return Ok(Some(Refused::TooManySegments));
    }
    if let Some(other) = overlapping_range(ranges, range) {
        return Ok(Some(Refused::OverlapsSegment(other)));
    }
    match overlapping_job(&state.jobs, range) {
        None => Ok(None),
        Some(job) => Ok(Some(Refused::OverlapsJob(job))),
    }
}

fn same(a: &Range, b: &Range) -> bool
    ensures { result ≡ is_same_range a.now b.now }
{
    a.start() == b.start() && a.end() == b.end()
}

// One of the ranges is this one.
fn has_range(ranges: &RangeList, range: &Range) -> bool
    ensures { result ≡ list_any (λ other. is_same_range range.now other) ranges.now }
{
    for place in 0..ranges.len() {
        let other = ranges.get(place);
        if same(range, &other) {
            return true;
        }
    }
    false
}

fn missing(ranges: &RangeList, range: &Range) -> Option<Refused>
    ensures { result ≡ refused_if (not (list_any (λ other. is_same_range range.now other) ranges.now)) NoSuchSegment }
{
    if has_range(ranges, range) {
        return None;
    }
    Some(Refused::NoSuchSegment)
}

// The one refusal, or else the other.
fn or_refused(first: Option<Refused>, then: Option<Refused>) -> Option<Refused>
    ensures { result ≡ option_or first then }
{
    match first {
        Some(refused) => Some(refused),
        None => then,
    }
}

fn job_refusal<T, P>(jobs: &[JobEntry<T, P>], range: &Range) -> Option<Refused>
    ensures { result ≡ option_map OverlapsJob (option_map (λ entry. entry.job.id) (find (λ entry. is_live entry.job.state && is_overlap entry.range range.now) jobs.now)) }
{
    overlapping_job(jobs, range).map(Refused::OverlapsJob)
}

fn one_segment(ranges: &RangeList, range: &Range, then: Option<Refused>) -> Option<Refused>
    ensures { result ≡ option_or (refused_if (list_any (λ other. is_same_range range.now other) ranges.now) OneSegment) then }
{
    if has_range(ranges, range) {
        return Some(Refused::OneSegment);
    }
    then
}

// What ready segments of these ranges refuse a MERGE by.
fn cover_refusal(ranges: &RangeList, range: &Range) -> Option<Refused>
    ensures { (set : ReadySet) → ranges_of set ≡ ranges.now → result ≡ of_cover (is_on_bounds range.now set) (is_ready range.now set) (first_free_day range.now set) }
{
    match ranges.covering(range) {
        Cover::NotOnBounds => Some(Refused::NotOnBounds),
        Cover::Hole(day) => one_segment(ranges, range, Some(Refused::Hole(day))),
        Cover::Parts { .. } => one_segment(ranges, range, None),
    }
}

/// The first refusal that applies to a REFRESH of a range, where the tables have these names; `None` where it is accepted.
pub fn refresh_refusal<T: TableHandle, P: Drop, R: ReadyHandle, Q: Drop>(
    state: &RunState<T, P, R, Q>,
    names: &[NameText],
    range: &Range,
) -> Result<Option<Refused>, AllocError>
    requires { length names.now ≡ length state.now.loaded.items }
    ensures { IfOk result (λ refusal. (w : World Q) → IsStateOf T.rows R.ready_set w state.now → refusal ≡ verdict (named names.now) w (Submit Refresh range.now)) }
{
    if let Some(table) = first_absent(&state.loaded) {
        let name = names[table].copy()?;
        return Ok(Some(Refused::NotLoaded(name)));
    }
    let segment = missing(state.ready.ranges(), range);
    let job = job_refusal(&state.jobs, range);
    Ok(or_refused(segment, job))
}

/// The first refusal that applies to a MERGE of a range, of those that need nothing of the cube: all but LookupsDiffer, which is the last
/// and is asked of the cube where this is `None`.
pub fn merge_refusal<T: TableHandle, P: Drop, R: ReadyHandle, Q: Drop>(
    state: &RunState<T, P, R, Q>,
    range: &Range,
) -> Option<Refused>
    ensures { (w : World Q) → IsStateOf T.rows R.ready_set w state.now → result ≡ verdict (named []) w (Submit Merge range.now) }
{
    let cover = cover_refusal(state.ready.ranges(), range);
    let job = job_refusal(&state.jobs, range);
    or_refused(cover, job)
}

/// The first refusal that applies to a drop of a range; `None` where it is accepted.
pub fn drop_refusal<T: TableHandle, P: Drop, R: ReadyHandle, Q: Drop>(
    state: &RunState<T, P, R, Q>,
    range: &Range,
) -> Option<Refused>
    ensures { (w : World Q) → IsStateOf T.rows R.ready_set w state.now → result ≡ verdict (named []) w (DropRange range.now) }
{
    let segment = missing(state.ready.ranges(), range);
    let job = job_refusal(&state.jobs, range);
    or_refused(segment, job)
}
