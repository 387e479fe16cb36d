// What a merge is of the rows.

ghost use Rattle.cell_merge.specs.Laws.{MergedIsCuboid, MergedMeansRows};

/// The merge of cuboids, each of its own rows over its own dictionaries, is the cuboid of all rows over the merged dictionaries. It
/// holds where each value that counts is in its part's dictionary, and each has in the merged one what it was at its new number.
/// Read over those dictionaries it is then the aggregate of all rows in values, which knows no dictionary.
pub fn merged_cuboids()
    ensures cuboid { MergedIsCuboid }
    ensures meaning { MergedMeansRows }
{}
