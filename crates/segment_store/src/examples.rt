// Swaps of months, and the rows and dictionaries of small sources, computed from the definitions.

ghost use Rattle.std.specs.Prelude.{◌≡◌, [], ◌∷◌, codes, pos};
ghost use Rattle.cube_val.specs.declared.val.Val.{Val};
ghost use Rattle.plain_answer.specs.Examples.{count_of_rows, january as sold_in_january, sellers};
ghost use Rattle.range_list.specs.Examples.{february, january, march, quarter};
ghost use Rattle.segment_store.specs.Examples.{of_job, sale, source_of};
ghost use Rattle.segment_store.specs.ReadySets.{swapped_in};
ghost use Rattle.segment_store.specs.Segments.{dictionaries_of, dictionary_columns, rows_from};

/// A month comes into an empty set, between two others, and in place of itself; a quarter in place of two of its months. A sale without a date is in no joined
/// row. A dictionary for each rowkey column, and then one for a COUNT_DISTINCT.
pub fn worked_examples()
    ensures first { swapped_in (of_job 0 january) [] ≡ of_job 0 january ∷ [] }
    ensures between { swapped_in (of_job 2 february) (of_job 0 january ∷ of_job 1 march ∷ []) ≡ of_job 0 january ∷ of_job 2 february ∷ of_job 1 march ∷ [] }
    ensures again { swapped_in (of_job 2 march) (of_job 0 january ∷ of_job 1 march ∷ []) ≡ of_job 0 january ∷ of_job 2 march ∷ [] }
    ensures merged { swapped_in (of_job 2 quarter) (of_job 0 january ∷ of_job 1 march ∷ []) ≡ of_job 2 quarter ∷ [] }
    ensures no_rows { rows_from (source_of (sale Val.Null 7 ∷ []) ∷ source_of [] ∷ []) ≡ [] }
    ensures columns { dictionary_columns 2 (count_of_rows ∷ sellers ∷ []) ≡ 0 ∷ 1 ∷ 1 ∷ [] }
    ensures dictionaries { dictionaries_of 1 (count_of_rows ∷ sellers ∷ []) sold_in_january ≡ (Val.Text (codes "EU") ∷ Val.Text (codes "US") ∷ []) ∷ (Val.Int (pos 7) ∷ Val.Int (pos 8) ∷ []) ∷ [] }
{}
