// What a segment is made of.

use crate::snap::Snap;
use cell_store::CellTable;
use cube_val::Items;
use dim_dictionary::DictSet;
use lookup_snap::LookupSnap;
use plain_answer::Agg;
use range_list::Range;

/// The parts of a segment.
#[derive(Drop)]
pub struct SegmentParts {
    /// The days of its rows.
    pub range: Range,
    /// The number of the job that made it.
    pub job: u32,
    /// The sources of its rows, end to end.
    pub origin: Items<Snap>,
    /// The aggregates that cells keep, over the columns of joined rows, in the order of the cells.
    pub kept: Items<Agg>,
    /// The dictionaries: one for each rowkey column, and then one for each COUNT_DISTINCT.
    pub dicts: DictSet,
    /// The snapshot of each lookup, in the order of the joins.
    pub lookups: Items<LookupSnap>,
    /// The cell table of each cuboid, by rising masks.
    pub tables: Items<CellTable>,
}
