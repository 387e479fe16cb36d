// The laws of aggregation, over every key, part and measure.

ghost use Rattle.aggregation.specs.Laws.{GatherOfAggregate, GatherOfAggregates, IsExact, KeysRise};

use measure_laws::Measure;

/// Gathering the cells of aggregates by a part of their keys gives the aggregate of all their rows by that part.
/// So a smaller cuboid may be made from a larger one, and the cuboids of parts of the rows may be merged.
pub fn gathered_aggregates<K: Ord, P: Ord, R, M: Measure>()
    ensures one { IsExact K.cmp → IsExact P.cmp → GatherOfAggregate R K.cmp P.cmp M.of_items M.merged }
    ensures several { IsExact K.cmp → IsExact P.cmp → GatherOfAggregates R K.cmp P.cmp M.of_items M.merged }
{}

/// An aggregate has its keys in order, each once.
pub fn aggregate_keys_rise<K: Ord, R, M: Measure>()
    ensures { IsExact K.cmp → KeysRise R K.cmp M.of_items }
{}
