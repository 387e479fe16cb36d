//! The ranges that are dropped.

ghost use Rattle.std.specs.Prelude.{◌≡◌, ◌≤◌, ℕ, ◌++◌, map, length, IfOk, OnOk};
ghost use Rattle.range_list.specs.Ranges.{IsApart};
ghost use Rattle.auto_merge.specs.Expiry.{is_expired, expired, kept, last_end};
ghost use Rattle.auto_merge.specs.declared.action.Action.TheVariants.{Drop};

use crate::action::Action;
use range_list::{Range, RangeList};
use std::alloc::{AllocError, Global};

// The end of the last range; 0 without one.
fn last_end(ranges: &RangeList) -> u32
    ensures { result ≡ last_end ranges.now }
{
    if ranges.len() == 0 {
        return 0;
    }
    let last = ranges.get(ranges.len() - 1);
    last.end().number()
}

// Whether the range ends `retain` days or more before the last end.
fn is_expired(range: &Range, retain: u32, last: u32) -> bool
    ensures { result ≡ is_expired retain last range.now }
{
    0 < retain && range.end().number() <= last.saturating_sub(retain)
}

/// The ranges that are kept; the drops of the others are put behind the actions.
pub(crate) fn expire(
    alloc: Global,
    ranges: &RangeList,
    retain: u32,
    actions: &mut Vec<Action>,
) -> Result<Vec<Range>, AllocError>
    ensures kept { IfOk result (λ left. left.items ≡ kept retain ranges.now) }
    ensures apart { IfOk result (λ left. IsApart left.items) }
    ensures drops { OnOk result (actions.new.items ≡ actions.old.items ++ map Drop (expired retain ranges.now)) }
{
    let last = last_end(ranges);
    let mut left = Vec::new(alloc);
    for i in 0..ranges.len() {
        let range = ranges.get(i);
        if is_expired(&range, retain, last) {
            actions.push(Action::Drop(range))?;
        } else {
            left.push(range)?;
        }
    }
    Ok(left)
}
