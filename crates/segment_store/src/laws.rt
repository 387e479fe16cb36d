// What holds of all segments.

ghost use Rattle.segment_store.specs.Laws.{SegmentsMeanRows};

/// A segment of joined rows means them: read over its dictionaries, each of its tables is the aggregate of the rows by the dimensions
/// of the table, in values. Where hands are honest every segment is one of its sources' joined rows.
pub fn segments_mean_rows()
    ensures { SegmentsMeanRows }
{}
