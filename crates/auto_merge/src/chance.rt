//! The next ranges to be merged.

ghost use Rattle.std.specs.Prelude.{◌≡◌, ◌≤◌, ◌<◌, ◌-◌, ◌+◌, ◌*◌, ◌↔◌, ℕ, length, slice_index, slice_get, Some, IsTrue, IfSome, IfNone};
ghost use Rattle.std.specs.List.Sorted.{IsStrictlyIncreasing};
ghost use Rattle.range_list.specs.Ranges.{IsApart};
ghost use Rattle.auto_merge.specs.Chances.{days_of, range_at, IsChance, IsNext, HasNoChance};

use range_list::Range;

/// Neighbouring ranges of a list: the place of the first, and how many they are.
#[derive(Clone, Copy)]
pub(crate) struct Run {
    pub(crate) first: usize,
    pub(crate) count: usize,
}

// How many days there are from the start of the one range to the end of the other.
fn days_between(ranges: &[Range], first: usize, last: usize) -> u32
    requires apart { IsApart ranges.now }
    requires order { first ≤ last }
    requires within { last < length ranges.now }
    ensures { result ≡ (range_at ranges.now last).end - (range_at ranges.now first).start }
{
    let from = &ranges[first];
    let to = &ranges[last];
    to.end().number() - from.start().number()
}

// Whether the range at the place starts where the one before it ends, or is the first.
fn goes_on(ranges: &[Range], first: usize, place: usize) -> bool
    requires order { first ≤ place }
    requires within { place < length ranges.now }
    ensures { IsTrue result ↔ (first < place → (range_at ranges.now (place - 1)).end ≡ (range_at ranges.now place).start) }
{
    if first == place {
        return true;
    }
    let before = &ranges[place - 1];
    let range = &ranges[place];
    before.end() == range.start()
}

// How many ranges from the first on are a chance for so many days.
fn count_from(ranges: &[Range], first: usize, days: u32) -> Option<usize>
    requires apart { IsApart ranges.now }
    requires within { first < length ranges.now }
    ensures chance { IfSome result (λ count. IsChance ranges.now days first count) }
    ensures none { IfNone result ((count : ℕ) → ¬ (IsChance ranges.now days first count)) }
{
    for place in first..ranges.len() {
        if days_between(ranges, place, place) >= days {
            return None;
        }
        if !goes_on(ranges, first, place) {
            return None;
        }
        if days_between(ranges, first, place) >= days {
            return Some(place + 1 - first);
        }
    }
    None
}

// The chance for so many days that starts first.
fn first_chance(ranges: &[Range], days: u32) -> Option<Run>
    requires { IsApart ranges.now }
    ensures chance { IfSome result (λ run. IsChance ranges.now days run.first run.count) }
    ensures earliest { IfSome result (λ run. (f c : ℕ) → f < run.first → ¬ (IsChance ranges.now days f c)) }
    ensures none { IfNone result ((f c : ℕ) → ¬ (IsChance ranges.now days f c)) }
{
    for first in 0..ranges.len() {
        if let Some(count) = count_from(ranges, first, days) {
            return Some(Run { first, count });
        }
    }
    None
}

/// The next ranges to be merged, by thresholds that rise.
pub(crate) fn next_run(ranges: &[Range], days: &[u32]) -> Option<Run>
    requires apart { IsApart ranges.now }
    requires rising { IsStrictlyIncreasing days.now }
    ensures next { IfSome result (λ run. IsNext days.now ranges.now run.first run.count) }
    ensures none { IfNone result (HasNoChance days.now ranges.now) }
{
    let count = days.len();
    for i in 0..count {
        if let Some(run) = first_chance(ranges, days[count - 1 - i]) {
            return Some(run);
        }
    }
    None
}
