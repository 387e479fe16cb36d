// Lists of dictionaries, and of the new numbers of a dictionary's values.

ghost use Rattle.std.specs.Prelude.{◌≡◌, ◌<◌, ◌↔◌, [], IsTrue, Some, length, slice_get};
ghost use Rattle.std.specs.List.Sorted.{IsStrictlySortedBy};
ghost use Rattle.std.specs.Ordering.{nat_cmp};

use crate::dict::Dict;
use std::marker::Model;

/// A list of dictionaries, as those of the columns of a segment.
#[derive(Drop)]
pub struct DictSet {
    dicts: Vec<Dict>,
}

impl Model for DictSet {
    ghost use Rattle.std.specs.Prelude.{List};
    ghost use Rattle.cube_val.specs.declared.val.Val.{Val};

    ghost Value = { List (List Val) };

    ghost view = { λ set. set.dicts.items };
}

impl DictSet {
    /// The list of these dictionaries. It takes no memory.
    pub fn new(dicts: Vec<Dict>) -> DictSet
        ensures { result ≡ dicts.items }
    {
        DictSet { dicts }
    }

    /// How many dictionaries there are.
    pub fn len(&self) -> usize
        ensures { result ≡ length self.now }
    {
        self.dicts.len()
    }

    /// Whether there is no dictionary.
    pub fn is_empty(&self) -> bool
        ensures { IsTrue result ↔ (self.now ≡ []) }
    {
        self.dicts.is_empty()
    }

    /// The dictionary at a place.
    pub fn get(&self, i: usize) -> &Dict
        requires { i < length self.now }
        ensures { slice_get self.now i ≡ Some result.now }
    {
        &self.dicts[i]
    }
}

/// For each number of one dictionary the number of the same value in another, strictly rising.
#[derive(Drop)]
pub struct Remap {
    ids: Vec<u32>,
}

impl Model for Remap {
    ghost use Rattle.std.specs.Prelude.{List, ℕ};
    ghost use Rattle.std.specs.List.Sorted.{IsStrictlySortedBy};
    ghost use Rattle.std.specs.Ordering.{nat_cmp};

    ghost Value = { List ℕ };

    ghost view = { λ remap. remap.ids.items };

    ghost invariant = { λ remap. IsStrictlySortedBy nat_cmp remap.ids.items };
}

impl Remap {
    /// The new numbers, each at the place of its old one. It takes no memory.
    pub fn new(ids: Vec<u32>) -> Remap
        requires { IsStrictlySortedBy nat_cmp ids.items }
        ensures { result ≡ ids.items }
    {
        Remap { ids }
    }

    /// The new numbers, each at the place of its old one.
    pub fn ids(&self) -> &[u32]
        ensures ids { result.now ≡ self.now }
        ensures rising { IsStrictlySortedBy nat_cmp result.now }
    {
        &self.ids
    }
}
