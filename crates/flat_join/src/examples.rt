// Joined rows, and answers over them, computed from the definitions.

ghost use Rattle.std.specs.Prelude.{◌≡◌, ◌∷◌, [], Some, None, true, false, codes, pos};
ghost use Rattle.cube_val.specs.declared.val.Val.TheVariants.{Null, Int, Text};
ghost use Rattle.flat_join.specs.Examples.{by_city, by_other_city, inner_rows, left_rows};
ghost use Rattle.flat_join.specs.JoinExamples.{by_seller, plan_of, sale, sellers};
ghost use Rattle.flat_join.specs.Joins.{day_in, has_inner_matches, is_within, match_in, wide_row};
ghost use Rattle.plain_answer.specs.Answers.{plain_of};
ghost use Rattle.plain_answer.specs.declared.answer.OutVal.TheVariants as out;

/// A seller with and without a row in the lookup, and none; an inner join and a left one; ranges with their ends; the columns of a
/// joined row.
pub fn worked_joins()
    ensures found { match_in (sale [] (Int (pos 7))) (by_seller true) sellers ≡ Some (Int (pos 7) ∷ Text (codes "Lyon") ∷ []) }
    ensures not_found { match_in (sale [] (Int (pos 8))) (by_seller true) sellers ≡ None }
    ensures null_equals_nothing { match_in (sale [] Null) (by_seller true) sellers ≡ None }
    ensures inner_drops { has_inner_matches (by_seller true ∷ []) (None ∷ []) ≡ false }
    ensures left_keeps { has_inner_matches (by_seller false ∷ []) (None ∷ []) ≡ true }
    ensures start_is_within { is_within (record { start = 3; end = 5 }) (Some 3) ≡ true }
    ensures end_is_not { is_within (record { start = 3; end = 5 }) (Some 5) ≡ false }
    ensures no_date { is_within (record { start = 3; end = 5 }) (day_in Null) ≡ false }
    ensures row { wide_row (plan_of true).wide (sale (codes "d") (Int (pos 7))) (Some (Int (pos 7) ∷ Text (codes "Lyon") ∷ []) ∷ [])
        ≡ Int (pos 7) ∷ Text (codes "Lyon") ∷ Text (codes "d") ∷ [] }
    ensures unmatched_row { wide_row (plan_of false).wide (sale (codes "d") (Int (pos 8))) (None ∷ [])
        ≡ Int (pos 8) ∷ Null ∷ Text (codes "d") ∷ [] }
{}

/// A left join keeps the sales of a seller that the lookup hasn't, whose city is null, and an inner join drops them; a null is neither
/// equal to a text nor different from it.
pub fn worked_examples()
    ensures left { (plain_of by_city left_rows).rows ≡ (out.Null ∷ out.Whole (pos 2) ∷ []) ∷ (out.Text (codes "Lyon") ∷ out.Whole (pos 2) ∷ []) ∷ [] }
    ensures other { (plain_of by_other_city left_rows).rows ≡ [] }
    ensures inner { (plain_of by_city inner_rows).rows ≡ (out.Text (codes "Lyon") ∷ out.Whole (pos 2) ∷ []) ∷ [] }
{}
