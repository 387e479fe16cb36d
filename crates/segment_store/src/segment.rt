// A segment.

ghost use Rattle.std.specs.Prelude.{◌≡◌, ◌<◌, ◌+◌, ◌==◌, find, length, option_copied, slice_index_or};
ghost use Rattle.range_list.specs.Ranges.{IsRange};
ghost use Rattle.segment_store.specs.Laws.{MeansRows};
ghost use Rattle.segment_store.specs.Segments.{IsOfSources, IsSegment, rows_from};
ghost use Rattle.segment_store.specs.Sources.{rows_in, source_at};

use crate::parts::SegmentParts;
use crate::snap::Snap;
use agg_group::Mask;
use cell_store::{CellTable, Steps};
use cube_val::Row;
use dim_dictionary::DictSet;
use lookup_snap::LookupSnap;
use outside::Honest;
use plain_answer::Agg;
use range_list::Range;
use std::marker::{Model, PhantomData};
use std::sync::ledger::Ledger;

/// What a finished job left, made by hands of the type `H`. Contracts see its parts.
#[derive(Drop)]
pub struct Segment<H: Honest> {
    parts: SegmentParts,
    of: PhantomData<H>,
}

impl<H: Honest> Model for Segment<H> {
    ghost use Rattle.segment_store.specs.declared.parts.SegmentParts.{SegmentParts};
    ghost use Rattle.segment_store.specs.contracts.parts.SegmentParts as parts_contract;
    ghost use Rattle.segment_store.specs.Segments.{IsOfSources, IsSegment};

    ghost Value = { SegmentParts };

    ghost coded = { parts_contract.the_row.coded };

    ghost view = { λ s. s.parts };

    ghost invariant = { λ s. IsSegment s.parts × (H.honest → IsOfSources s.parts) };
}

impl<H: Honest> Segment<H> {
    /// The segment of these parts. It takes no memory.
    pub fn seal(parts: SegmentParts) -> Segment<H>
        requires segment { IsSegment parts }
        requires honest { H.honest → IsOfSources parts }
        ensures { result ≡ parts }
    {
        Segment {
            parts,
            of: PhantomData,
        }
    }

    /// The days of its rows.
    pub fn range(&self) -> Range
        ensures value { result ≡ self.now.range }
        ensures range { IsRange result }
    {
        let _before = self.parts.range.end();
        self.parts.range
    }

    /// The number of the job that made it.
    pub fn job(&self) -> u32
        ensures { result ≡ self.now.job }
    {
        self.parts.job
    }

    /// The sources of its rows, end to end. They show no row.
    pub fn snaps(&self) -> &[Snap]
        ensures value { result.now ≡ self.now.origin }
        ensures segment { IsSegment self.now }
    {
        self.parts.origin.as_slice()
    }

    /// The aggregates that cells keep, in the order of the cells.
    pub fn kept(&self) -> &[Agg]
        ensures value { result.now ≡ self.now.kept }
        ensures segment { IsSegment self.now }
    {
        self.parts.kept.as_slice()
    }

    /// The dictionaries: one for each rowkey column, and then one for each COUNT_DISTINCT.
    pub fn dicts(&self) -> &DictSet
        ensures value { result.now ≡ self.now.dicts }
        ensures segment { IsSegment self.now }
        ensures honest { H.honest → IsOfSources self.now }
    {
        &self.parts.dicts
    }

    /// The snapshot of each lookup, in the order of the joins.
    pub fn lookups(&self) -> &[LookupSnap]
        ensures value { result.now ≡ self.now.lookups }
        ensures segment { IsSegment self.now }
    {
        self.parts.lookups.as_slice()
    }

    /// The cell table of each cuboid, by rising masks. Read over the dictionaries, each is the aggregate of the rows of all sources by its
    /// dimensions, in values, where hands are honest.
    pub fn tables(&self) -> &[CellTable]
        ensures value { result.now ≡ self.now.tables }
        ensures segment { IsSegment self.now }
        ensures honest { H.honest → IsOfSources self.now }
        ensures meaning { H.honest → MeansRows self.now (rows_from self.now.origin) }
    {
        self.parts.tables.as_slice()
    }

    /// The cell table of these dimensions; none exactly where no cuboid of them is built.
    pub fn table(&self, mask: Mask) -> Option<&CellTable>
        ensures { option_copied result ≡ find (λ table. table.mask.0 == mask.0) self.now.tables }
    {
        self.parts
            .tables
            .as_slice()
            .iter()
            .find(|table| table.mask().0 == mask.0)
    }

    /// A row of a table of one of the sources, which is one step.
    pub fn rows_at<L: Ledger>(
        &self,
        part: usize,
        table: usize,
        i: usize,
        steps: &mut Steps<L>,
    ) -> &Row
        requires part { part < length self.now.origin }
        requires table { table < length (source_at self.now.origin part).tables }
        requires row { i < length (rows_in (source_at self.now.origin part) table) }
        ensures row { result.now ≡ slice_index_or (rows_in (source_at self.now.origin part) table) i result.now }
        ensures step { steps.new ≡ steps.old + 1 }
    {
        steps.tick();
        source(self.parts.origin.as_slice(), part).row(table, i)
    }
}

// The source at a place.
fn source(sources: &[Snap], place: usize) -> &Snap
    requires { place < length sources.now }
    ensures { result.now ≡ source_at sources.now place }
{
    &sources[place]
}
