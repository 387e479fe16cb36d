// Handles of ready sets.

ghost use Rattle.std.specs.Prelude.{◌≡◌};
ghost use Rattle.run_history.specs.Invariants.{ranges_of};
ghost use Rattle.run_state.specs.Numbered.{NumberedSet};

use range_list::RangeList;

/// A handle of a ready set.
pub trait ReadyHandle: Drop {
    // The segments, with what their rows come from, and the version.
    ghost ready_set: { Self → NumberedSet };

    /// The ranges of the segments, which rise.
    fn ranges(&self) -> &RangeList
        ensures { result.now ≡ ranges_of (ready_set self.now).segments };

    /// The version: how many swaps and drops made the set, since that of the start.
    fn version(&self) -> u32
        ensures { result ≡ (ready_set self.now).version };
}
