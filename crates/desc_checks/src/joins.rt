// The checks of joins and of the partition date.
#![tactic(auto, using(crate::proofs::FirstLemmas::first_append))]

ghost use Rattle.std.specs.Prelude.{◌≡◌, ℕ, List, [], ◌∷◌, ◌++◌, Option, zip};
ghost use Rattle.std.specs.List.{flat_map, list_all};
ghost use Rattle.std.specs.Option.{option_copied};
ghost use Rattle.desc_checks.specs.Firsts.{first, unless};
ghost use Rattle.desc_checks.specs.Joins.{is_join_kind, is_pair, are_pairs, is_join, bad_join, bad_joins, bad_partition};

use crate::check::{Check, first_in, place_unless};
use crate::limits::is_some_up_to;
use crate::tables::{fact_columns, lookup_columns};
use crate::types::{is_date_type, type_of};
use descriptor_json::{JsonPointer, RawColumn, RawDesc, RawJoin, RawLookup, RawName};

/// The most columns of a join's key.
const MOST_KEY: usize = 4;

fn is_join_kind(text: &[u8]) -> bool
    ensures { result ≡ is_join_kind text.now }
{
    text == b"inner".as_slice() || text == b"left".as_slice()
}

fn is_pair(lookup: &[RawColumn], fact: &[RawColumn], primary: &RawName, foreign: &RawName) -> bool
    ensures { result ≡ is_pair lookup.now fact.now (primary.now, foreign.now) }
{
    type_of(lookup, primary.text.bytes()) == type_of(fact, foreign.text.bytes())
}

fn all_pairs(
    lookup: &[RawColumn],
    fact: &[RawColumn],
    primary: &[RawName],
    foreign: &[RawName],
) -> bool
    ensures { result ≡ list_all (is_pair lookup.now fact.now) (zip primary.now foreign.now) }
{
    primary
        .iter()
        .zip(foreign.iter())
        .all(|(p, f)| is_pair(lookup, fact, p, f))
}

fn are_pairs(lookup: &[RawColumn], fact: &[RawColumn], join: &RawJoin) -> bool
    ensures { result ≡ are_pairs lookup.now fact.now join.now }
{
    let (primary, foreign) = (&join.primary, &join.foreign);
    is_some_up_to(MOST_KEY, primary.len())
        && primary.len() == foreign.len()
        && all_pairs(lookup, fact, primary.as_slice(), foreign.as_slice())
}

fn is_join(raw: &RawDesc, lookup: &RawLookup) -> bool
    ensures { result ≡ is_join raw.now lookup.now }
{
    let join = &lookup.join;
    let kind = &join.kind;
    is_join_kind(kind.text.bytes())
        && are_pairs(lookup_columns(raw, lookup), fact_columns(raw), join)
}

#[derive(Clone, Copy)]
pub(crate) struct BadJoin<'a> {
    pub(crate) raw: &'a RawDesc,
}

impl<'r> Check<RawLookup> for BadJoin<'r> {
    ghost failing = { λ s l. bad_join s.raw.now l };

    fn first<'a>(&self, lookup: &'a RawLookup) -> Option<&'a JsonPointer> {
        let join = &lookup.join;
        place_unless(is_join(self.raw, lookup), &join.place)
    }
}

pub(crate) fn bad_join_place(raw: &RawDesc) -> Option<&JsonPointer>
    ensures { option_copied result ≡ first (bad_joins raw.now) }
{
    let lookups = &raw.lookups;
    first_in(&BadJoin { raw }, lookups.items.as_slice())
}

pub(crate) fn bad_partition_place(raw: &RawDesc) -> Option<&JsonPointer>
    ensures { option_copied result ≡ first (bad_partition raw.now) }
{
    let partition = &raw.partition;
    place_unless(
        is_date_type(type_of(fact_columns(raw), partition.text.bytes())),
        &partition.place,
    )
}
