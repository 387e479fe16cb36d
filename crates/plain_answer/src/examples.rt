// Sales of two months, asked by the definitions.

ghost use Rattle.std.specs.Prelude.{◌≡◌, ◌++◌, [], ◌∷◌, pos, neg_ℤ, codes};
ghost use Rattle.cube_val.specs.declared.val.Val.TheVariants.{Text};
ghost use Rattle.plain_answer.specs.Answers.{plain_of};
ghost use Rattle.plain_answer.specs.Asks.{IsSound};
ghost use Rattle.plain_answer.specs.Examples.{average_price, best_region, by_region, count_of_rows, february, january, january_with_a_hole, january_with_two_holes, known_prices, no_dims, sellers, small_regions, total_price, totals};
ghost use Rattle.plain_answer.specs.Projections.{aggregate_by};
ghost use Rattle.plain_answer.specs.declared.answer.OutVal.TheVariants as out;

/// Averages are cut toward zero, HAVING comes before the limit, and over no rows there is one group. Over no rows there is no
/// projection.
pub fn worked_examples()
    ensures best { plain_of best_region (january ++ february) ≡ record { names = codes "REGION" ∷ codes "A" ∷ []; rows = (out.Text (codes "EU") ∷ out.Units (pos 44166) ∷ []) ∷ [] } }
    ensures small { (plain_of small_regions (january ++ february)).rows ≡ (out.Text (codes "US") ∷ out.Units (pos 10000) ∷ []) ∷ [] }
    ensures none { (plain_of totals []).rows ≡ (out.Whole (pos 0) ∷ out.Null ∷ out.Whole (pos 0) ∷ []) ∷ [] }
    ensures in_january { (plain_of totals january).rows ≡ (out.Whole (pos 3) ∷ out.Units (pos 165000) ∷ out.Whole (pos 2) ∷ []) ∷ [] }
    ensures in_february { (plain_of totals february).rows ≡ (out.Whole (pos 1) ∷ out.Units (neg_ℤ (pos 22500)) ∷ out.Whole (pos 1) ∷ []) ∷ [] }
    ensures in_both { (plain_of totals (january ++ february)).rows ≡ (out.Whole (pos 4) ∷ out.Units (pos 142500) ∷ out.Whole (pos 2) ∷ []) ∷ [] }
    ensures projections { aggregate_by by_region (average_price ∷ count_of_rows ∷ sellers ∷ []) (january ++ february) ≡ record { key = Text (codes "EU") ∷ []; values = out.Units (pos 44166) ∷ out.Whole (pos 3) ∷ out.Whole (pos 2) ∷ [] } ∷ record { key = Text (codes "US") ∷ []; values = out.Units (pos 10000) ∷ out.Whole (pos 1) ∷ out.Whole (pos 1) ∷ [] } ∷ [] }
    ensures one_projection { aggregate_by no_dims (count_of_rows ∷ []) january ≡ record { key = []; values = out.Whole (pos 3) ∷ [] } ∷ [] }
    ensures no_projection { aggregate_by no_dims (count_of_rows ∷ []) [] ≡ [] }
    ensures sound { IsSound small_regions }
{}

/// A price that is null is no price: it isn't counted as known, has no part in the sum, and the average is over the others.
/// Over no price at all both are null.
pub fn examples_with_nulls()
    ensures a_hole { aggregate_by by_region (count_of_rows ∷ known_prices ∷ total_price ∷ average_price ∷ []) january_with_a_hole ≡ record { key = Text (codes "EU") ∷ []; values = out.Whole (pos 2) ∷ out.Whole (pos 1) ∷ out.Units (pos 55000) ∷ out.Units (pos 55000) ∷ [] } ∷ record { key = Text (codes "US") ∷ []; values = out.Whole (pos 1) ∷ out.Whole (pos 1) ∷ out.Units (pos 10000) ∷ out.Units (pos 10000) ∷ [] } ∷ [] }
    ensures two_holes { aggregate_by by_region (count_of_rows ∷ known_prices ∷ total_price ∷ average_price ∷ sellers ∷ []) january_with_two_holes ≡ record { key = Text (codes "EU") ∷ []; values = out.Whole (pos 2) ∷ out.Whole (pos 0) ∷ out.Null ∷ out.Null ∷ out.Whole (pos 2) ∷ [] } ∷ record { key = Text (codes "US") ∷ []; values = out.Whole (pos 1) ∷ out.Whole (pos 1) ∷ out.Units (pos 10000) ∷ out.Units (pos 10000) ∷ out.Whole (pos 1) ∷ [] } ∷ [] }
{}
