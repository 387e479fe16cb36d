// The smallest measures, computed from their definitions.

ghost use Rattle.std.specs.Prelude.{◌≡◌, [], ◌∷◌, ◌++◌, None, Some, codes, false, length, pos, neg_ℤ, true};
ghost use Rattle.measure_laws.specs.Extremes.{greatest_of, least_of, merged_greatest, merged_least};
ghost use Rattle.measure_laws.specs.Ids.{different, ids_of, merged_ids};
ghost use Rattle.measure_laws.specs.Kinds.{counts_rows, dict_after, dict_count, form_of_word, same_form};
ghost use Rattle.measure_laws.specs.Measures.{int_sum, merged_sum, summed};

use crate::measure::MeasureForm;

/// The sums of the smallest lists.
pub fn worked_examples()
    ensures none { summed [] ≡ record { items = 0; total = pos 0 } }
    ensures three { summed (pos 1 ∷ pos 3 ∷ neg_ℤ (pos 6) ∷ []) ≡ record { items = 3; total = neg_ℤ (pos 2) } }
    ensures merged { merged_sum (summed (pos 1 ∷ pos 3 ∷ [])) (summed (neg_ℤ (pos 6) ∷ [])) ≡ record { items = 3; total = neg_ℤ (pos 2) } }
{}

/// The least and greatest items of the smallest lists, and their different items.
pub fn examples_of_extremes_and_sets()
    ensures no_least { least_of [] ≡ record { items = 0; value = None } }
    ensures least { least_of (pos 3 ∷ pos 1 ∷ pos 2 ∷ []) ≡ record { items = 3; value = Some (pos 1) } }
    ensures least_of_both { merged_least (least_of (pos 3 ∷ [])) (least_of (neg_ℤ (pos 6) ∷ pos 1 ∷ [])) ≡ record { items = 3; value = Some (neg_ℤ (pos 6)) } }
    ensures greatest_below_zero { greatest_of (neg_ℤ (pos 5) ∷ neg_ℤ (pos 7) ∷ []) ≡ record { items = 2; value = Some (neg_ℤ (pos 5)) } }
    ensures greatest_of_both { merged_greatest (greatest_of []) (greatest_of (pos 4 ∷ [])) ≡ record { items = 1; value = Some (pos 4) } }
    ensures different { different (5 ∷ 2 ∷ 5 ∷ 9 ∷ 2 ∷ []) ≡ 2 ∷ 5 ∷ 9 ∷ [] }
    ensures set_of_both { let both = merged_ids (ids_of (5 ∷ 2 ∷ 5 ∷ [])) (ids_of (3 ∷ 2 ∷ [])) in (both.items ≡ 5) × (both.ids ≡ 2 ∷ 3 ∷ 5 ∷ []) }
{}

/// What a few forms of measure are of, and their words.
pub fn examples_of_kinds()
    ensures rows { counts_rows MeasureForm.Count ≡ true }
    ensures values { counts_rows MeasureForm.Known ≡ false }
    ensures dictionaries { dict_count (MeasureForm.Count ∷ MeasureForm.Distinct ∷ MeasureForm.Sum ∷ MeasureForm.Distinct ∷ []) ≡ 2 }
    ensures no_dictionary { dict_after MeasureForm.Known 7 ≡ 7 }
    ensures word { form_of_word (codes "MIN") ≡ Some MeasureForm.Min }
    ensures no_word { form_of_word (codes "KNOWN") ≡ None }
    ensures other { same_form MeasureForm.Count MeasureForm.Known ≡ false }
{}
