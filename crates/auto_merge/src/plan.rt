//! The plan.

ghost use Rattle.std.specs.Prelude.{◌≡◌, ◌≤◌, ◌<◌, ◌+◌, ℕ, ◌++◌, ◌∷◌, [], List, All, map, length, IfOk, OnOk};
ghost use Rattle.std.specs.List.Sorted.{IsStrictlyIncreasing};
ghost use Rattle.std.specs.List.{replace_range};
ghost use Rattle.range_list.specs.Ranges.{Interval, IsApart};
ghost use Rattle.auto_merge.specs.Chances.{IsChance, whole, HasNoChance};
ghost use Rattle.auto_merge.specs.Plans.{AreMerges, IsPlan};
ghost use Rattle.auto_merge.specs.declared.action.Action.TheVariants.{Merge};

use crate::action::Action;
use crate::chance::{Run, next_run};
use crate::expiry::expire;
use range_list::{Range, RangeList};
use std::alloc::{AllocError, Global};

// The range from the start of the first of the run to the end of its last.
fn whole_of(ranges: &[Range], run: &Run) -> Range
    requires apart { IsApart ranges.now }
    requires some { 0 < run.now.count }
    requires within { run.now.first + run.now.count ≤ length ranges.now }
    ensures { result ≡ whole ranges.now run.now.first run.now.count }
{
    let first = &ranges[run.first];
    let last = &ranges[run.first + run.count - 1];
    Range::new(first.start(), last.end()).unwrap()
}

// The ranges with one range in the place of those of the run.
fn with_whole(
    alloc: Global,
    ranges: &[Range],
    run: &Run,
    whole: Range,
) -> Result<Vec<Range>, AllocError>
    requires { run.now.first + run.now.count ≤ length ranges.now }
    ensures { IfOk result (λ v. v.items ≡ replace_range ranges.now run.now.first (run.now.first + run.now.count) (whole ∷ [])) }
{
    let mut merged = Vec::from_slice(alloc, &ranges[..run.first])?;
    merged.push(whole)?;
    merged.extend_from_slice(&ranges[run.first + run.count..])?;
    Ok(merged)
}

// Puts the merges of the ranges behind the actions, until no threshold has a chance.
fn add_merges(
    alloc: Global,
    ranges: Vec<Range>,
    days: &[u32],
    actions: &mut Vec<Action>,
) -> Result<(), AllocError>
    requires apart { IsApart ranges.items }
    requires rising { IsStrictlyIncreasing days.now }
    ensures { OnOk result ((merges : List Interval) × (left : List Interval) × AreMerges days.now ranges.items merges left
        × HasNoChance days.now left × (actions.new.items ≡ actions.old.items ++ map Merge merges)) }
{
    let mut left = ranges;
    while let Some(run) = next_run(left.as_slice(), days) {
        let whole = whole_of(left.as_slice(), &run);
        left = with_whole(alloc, left.as_slice(), &run, whole)?;
        actions.push(Action::Merge(whole))?;
    }
    Ok(())
}

/// The plan for ready segments of these ranges: the drops of those that end `retain` days or more before
/// the last end (none where `retain` is 0), from the earliest on, and then the merges, by the thresholds
/// `days`, each in the ranges that the actions before it leave.
///
/// The ranges are taken as they are: whether a job works on one of them is for the caller to know. A
/// refusal of memory leaves nothing behind.
pub fn plan_of(
    alloc: Global,
    ranges: &RangeList,
    days: &[u32],
    retain: u32,
) -> Result<Vec<Action>, AllocError>
    requires rising { IsStrictlyIncreasing days.now }
    ensures { IfOk result (λ actions. IsPlan ranges.now days.now retain actions.items) }
{
    let mut actions = Vec::new(alloc);
    let left = expire(alloc, ranges, retain, &mut actions)?;
    add_merges(alloc, left, days, &mut actions)?;
    Ok(actions)
}
