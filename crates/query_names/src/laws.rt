// What holds of all queries.

ghost use Rattle.query_names.specs.Laws.{AskedIsKept};

/// Where a query may ask for a measure of a column, the cuboids of the cube keep that measure of that column: of a measured column
/// also the count of its known values, which an average is worked out of.
pub fn what_is_asked_is_kept()
    ensures { AskedIsKept }
{}
