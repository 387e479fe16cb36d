// Sets merged many at once.

ghost use Rattle.std.specs.Prelude.{◌≡◌, ◌≤◌, ◌+◌, [], IfOk, OnErr, OnOk};
ghost use Rattle.measure_laws.specs.Ids.{ids_of, merged_ids};
ghost use Rattle.measure_laws.specs.Measures.{most_items};

use crate::id_set::{IdSet, in_order};
use std::alloc::{AllocError, Global};
use std::marker::Model;

/// The set that many sets are merged into. Their ids are only gathered, and put in order once, when the set is taken out; so
/// many sets are merged in the time of one sort, where merging them one into another would go through the first ones again and again.
/// Contracts see it as that set.
#[derive(Drop)]
pub struct IdUnion {
    items: u64,
    ids: Vec<u32>,
}

impl Model for IdUnion {
    ghost use Rattle.measure_laws.specs.Ids.{Ids, IsCountOf, different, rises-different};
    ghost use Rattle.measure_laws.specs.IdFacts.{ids_code};

    ghost Value = { Ids };

    ghost coded = { ids_code };

    ghost view = { λ u. record { items = u.items; ids = different u.ids.items; rising = rises-different u.ids.items } };

    ghost invariant = { λ u. IsCountOf (different u.ids.items) u.items };
}

impl IdUnion {
    /// The union of no set.
    pub fn new(alloc: Global) -> IdUnion
        ensures { result ≡ ids_of [] }
    {
        IdUnion {
            items: 0,
            ids: Vec::new(alloc),
        }
    }

    /// Merges a set into it. After want of memory it is as before.
    pub fn merge(&mut self, set: &IdSet) -> Result<(), AllocError>
        requires { self.old.items + set.now.items ≤ most_items }
        ensures ok { OnOk result (self.new ≡ merged_ids self.old set.now) }
        ensures err { OnErr result (self.new ≡ self.old) }
    {
        self.ids.extend_from_slice(set.ids())?;
        self.items += set.items();
        Ok(())
    }

    /// The set of all sets that were merged. It keeps no more memory than the different ids need.
    pub fn into_set(self) -> Result<IdSet, AllocError>
        ensures { IfOk result (λ s. s ≡ self) }
    {
        let IdUnion { items, ids } = self;
        let ids = in_order(ids);
        let set = IdSet::of(*ids.allocator(), items, ids.as_slice())?;
        Ok(set)
    }
}
