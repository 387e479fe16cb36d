// The check of how many there are.
#![tactic(auto, using(crate::proofs::FirstLemmas::first_append))]

ghost use Rattle.std.specs.Prelude.{◌≡◌, ℕ, List, [], ◌∷◌, ◌++◌, Option};
ghost use Rattle.std.specs.List.{flat_map};
ghost use Rattle.std.specs.Option.{option_copied, option_or};
ghost use Rattle.desc_checks.specs.Firsts.{first, unless};
ghost use Rattle.desc_checks.specs.Limits.{is_some_up_to, table_too_many, too_many};

use crate::check::{Check, first_in, or_first, place_unless};
use agg_group::MOST_DIMENSIONS;
use descriptor_json::{JsonPointer, RawDesc, RawTable};

/// The most columns of a table.
const MOST_COLUMNS: usize = 64;
/// The most lookups.
const MOST_LOOKUPS: usize = 8;
/// The most measures.
const MOST_MEASURES: usize = 16;
/// The most columns of a rowkey.
const MOST_ROWKEY: usize = MOST_DIMENSIONS as usize;
/// The most aggregation groups.
const MOST_GROUPS: usize = 8;

pub(crate) fn is_some_up_to(most: usize, n: usize) -> bool
    ensures { result ≡ is_some_up_to most n }
{
    0 < n && n <= most
}

pub(crate) struct TooMany;

impl Check<RawTable> for TooMany {
    ghost failing = { λ _ t. table_too_many t };

    fn first<'a>(&self, table: &'a RawTable) -> Option<&'a JsonPointer> {
        let columns = &table.columns;
        place_unless(
            is_some_up_to(MOST_COLUMNS, columns.items.len()),
            &columns.place,
        )
    }
}

pub(crate) fn too_many_place(raw: &RawDesc) -> Option<&JsonPointer>
    ensures { option_copied result ≡ first (too_many raw.now) }
{
    let (lookups, measures) = (&raw.lookups, &raw.measures);
    let (rowkey, groups) = (&raw.rowkey, &raw.groups);
    let tables = first_in(&TooMany, raw.tables.as_slice());
    let to_lookups = or_first(
        tables,
        place_unless(lookups.items.len() <= MOST_LOOKUPS, &lookups.place),
    );
    let to_measures = or_first(
        to_lookups,
        place_unless(measures.items.len() <= MOST_MEASURES, &measures.place),
    );
    let to_rowkey = or_first(
        to_measures,
        place_unless(
            is_some_up_to(MOST_ROWKEY, rowkey.items.len()),
            &rowkey.place,
        ),
    );
    or_first(
        to_rowkey,
        place_unless(groups.items.len() <= MOST_GROUPS, &groups.place),
    )
}
