// A handful of rows, aggregated and gathered by the definitions.

ghost use Rattle.std.specs.Prelude.{◌≡◌, [], ◌∷◌};
ghost use Rattle.std.specs.Ordering.{nat_cmp};
ghost use Rattle.measure_laws.specs.Measures.{merged_sum, summed};
ghost use Rattle.aggregation.specs.Examples.{by_both, by_first, pair_cmp, rows};
ghost use Rattle.aggregation.specs.Groups.{aggregate, distinct, gather};

/// Four rows by both columns, and by the first of them.
pub fn worked_examples()
    ensures distinct { distinct nat_cmp (2 ∷ 1 ∷ 2 ∷ []) ≡ 1 ∷ 2 ∷ [] }
    ensures aggregate { aggregate pair_cmp (λ r. r.0) (λ r. r.1) summed rows ≡ by_both }
    ensures gather { gather nat_cmp (λ k. k.0) (summed []) merged_sum by_both ≡ by_first }
{}
