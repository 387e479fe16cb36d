// The different items.

ghost use Rattle.std.specs.Prelude.{◌≡◌, ◌≤◌, ◌<◌, ◌+◌, ◌∷◌, ◌++◌, ◌↔◌, [], IfOk, OnErr, OnOk, length, vec_len};
ghost use Rattle.std.specs.BTreeSet.{insert_key};
ghost use Rattle.std.specs.List.Sorted.{IsStrictlySortedBy, IsStrictlySortedBy-prop};
ghost use Rattle.std.specs.Ordering.{nat_cmp};
ghost use Rattle.std.specs.Vec.{vec_capacity};
ghost use Rattle.measure_laws.specs.Ids.{IsCountOf, different, ids_of, merged_ids};
ghost use Rattle.measure_laws.specs.IdFacts.{ids_laws};
ghost use Rattle.measure_laws.specs.Measures.{most_items};

use crate::measure::Measure;
use std::alloc::{AllocError, Global};
use std::marker::Model;

/// The different items, which are numbers, and how many items there are.
#[derive(Drop)]
pub struct IdSet {
    items: u64,
    ids: Vec<u32>,
    ghost rising: { IsStrictlySortedBy nat_cmp ids.items } by { IsStrictlySortedBy-prop nat_cmp ids.items },
}

impl Model for IdSet {
    ghost use Rattle.measure_laws.specs.Ids.{Ids, IsCountOf};
    ghost use Rattle.measure_laws.specs.IdFacts.{ids_code};

    ghost Value = { Ids };

    ghost coded = { ids_code };

    ghost view = { λ s. record { items = s.items; ids = s.ids.items; rising = s.rising } };

    ghost invariant = { λ s. IsCountOf s.ids.items s.items };
}

// Puts a number in its place, unless it is there.
fn put(ids: &mut Vec<u32>, id: u32)
    requires rising { IsStrictlySortedBy nat_cmp ids.old.items }
    requires room { vec_len ids.old < vec_capacity ids.old }
    ensures items { ids.new.items ≡ insert_key nat_cmp ids.old.items id }
    ensures len { vec_len ids.new ≤ vec_len ids.old + 1 }
    ensures capacity { vec_capacity ids.old ≤ vec_capacity ids.new }
{
    match ids.binary_search(&id) {
        Ok(_place) => {}
        Err(place) => ids.insert(place, id).unwrap(),
    }
}

// The numbers of two sets together, in one pass over both.
fn union_of(alloc: Global, a: &[u32], b: &[u32]) -> Result<Vec<u32>, AllocError>
    requires first { IsStrictlySortedBy nat_cmp a.now }
    requires second { IsStrictlySortedBy nat_cmp b.now }
    ensures { IfOk result (λ union. union.items ≡ different (a.now ++ b.now)) }
{
    let mut union = Vec::with_capacity(alloc, a.len() + b.len())?;
    let mut i = 0;
    let mut j = 0;
    while i < a.len() && j < b.len() {
        let x = a[i];
        let y = b[j];
        union.push(x.min(y))?;
        if x <= y {
            i += 1;
        }
        if y <= x {
            j += 1;
        }
    }
    union.extend_from_slice(&a[i..])?;
    union.extend_from_slice(&b[j..])?;
    Ok(union)
}

/// The different numbers of a list, in order.
pub(crate) fn in_order(ids: Vec<u32>) -> Vec<u32>
    ensures { result.items ≡ different ids.items }
{
    let mut ids = ids;
    ids.sort_unstable();
    ids.dedup();
    ids
}

impl IdSet {
    /// The set of these different items, of so many items in all.
    pub fn of(alloc: Global, items: u64, ids: &[u32]) -> Result<IdSet, AllocError>
        requires rising { IsStrictlySortedBy nat_cmp ids.now }
        requires count { IsCountOf ids.now items }
        ensures items { IfOk result (λ s. s.items ≡ items) }
        ensures ids { IfOk result (λ s. s.ids ≡ ids.now) }
        ensures none { IfOk result (λ s. items ≡ 0 → s ≡ ids_of []) }
    {
        let ids = Vec::from_slice(alloc, ids)?;
        Ok(IdSet { items, ids })
    }

    /// The set of these items, by one sort. It keeps no more memory than the different ones need.
    pub fn from_items(ids: Vec<u32>) -> Result<IdSet, AllocError>
        requires { length ids.items ≤ most_items }
        ensures { IfOk result (λ s. s ≡ ids_of ids.items) }
    {
        let items = ids.len() as u64;
        let ids = in_order(ids);
        let set = IdSet::of(*ids.allocator(), items, ids.as_slice())?;
        Ok(set)
    }

    /// The different items, in order.
    pub fn ids(&self) -> &[u32]
        ensures ids { result.now ≡ self.now.ids }
        ensures rising { IsStrictlySortedBy nat_cmp result.now }
        ensures count { IsCountOf self.now.ids self.now.items }
    {
        &self.ids
    }

    /// How many items there are.
    pub fn items(&self) -> u64
        ensures items { result ≡ self.now.items }
        ensures bound { self.now.items ≤ most_items }
    {
        self.items
    }
}

impl Measure for IdSet {
    type Item = u32;

    ghost items = { λ s. s.items };

    ghost of_items = { ids_of };

    ghost merged = { merged_ids };

    ghost laws = { ids_laws };

    fn zero(alloc: Global) -> IdSet {
        IdSet {
            items: 0,
            ids: Vec::new(alloc),
        }
    }

    fn add(&mut self, v: u32) -> Result<(), AllocError> {
        self.ids.reserve(1)?;
        put(&mut self.ids, v);
        self.items += 1;
        Ok(())
    }

    fn merge(&mut self, o: &IdSet) -> Result<(), AllocError> {
        self.ids = union_of(*self.ids.allocator(), &self.ids, &o.ids)?;
        self.items += o.items;
        Ok(())
    }
}
