// The new numbers of all dictionaries of a part.

ghost use Rattle.std.specs.Prelude.{◌≡◌, ◌<◌, ◌^◌, ◌↔◌, [], IsTrue, Some, length, slice_get};

use dim_dictionary::Remap;
use std::marker::Model;

/// For each dictionary of a part of a merge the new numbers of its values, in the order of the dictionaries: those of the rowkey
/// columns, and then that of each COUNT_DISTINCT.
#[derive(Drop)]
pub struct RemapSet {
    remaps: Vec<Remap>,
}

impl Model for RemapSet {
    ghost use Rattle.std.specs.Prelude.{List, ℕ};

    ghost Value = { List (List ℕ) };

    ghost view = { λ set. set.remaps.items };
}

impl RemapSet {
    /// The list of these new numbers. It takes no memory.
    pub fn new(remaps: Vec<Remap>) -> RemapSet
        ensures { result ≡ remaps.items }
    {
        RemapSet { remaps }
    }

    /// How many dictionaries have new numbers.
    pub fn len(&self) -> usize
        ensures len { result ≡ length self.now }
        ensures small { result < 2 ^ 63 }
    {
        self.remaps.len()
    }

    /// Whether there is no dictionary.
    pub fn is_empty(&self) -> bool
        ensures { IsTrue result ↔ (self.now ≡ []) }
    {
        self.remaps.is_empty()
    }

    /// The new numbers of the dictionary at a place.
    pub fn get(&self, i: usize) -> &Remap
        requires { i < length self.now }
        ensures { slice_get self.now i ≡ Some result.now }
    {
        &self.remaps[i]
    }
}
