ghost use Rattle.std.specs.Prelude.{◌≡◌, true, false, [], ◌∷◌, Some, None};
ghost use Rattle.job_list.specs.JobList.{has, without};
ghost use Rattle.job_list.specs.Links.{slot_in, last_in};

/// The definitions, computed on the list 4, 7, 2: a number leaves in the middle, first, last and alone, and the slots of the list
/// are the neighbours of its numbers.
pub fn worked_examples()
    ensures middle { without 7 (4 ∷ 7 ∷ 2 ∷ []) ≡ 4 ∷ 2 ∷ [] }
    ensures front { without 4 (4 ∷ 7 ∷ 2 ∷ []) ≡ 7 ∷ 2 ∷ [] }
    ensures back { without 2 (4 ∷ 7 ∷ 2 ∷ []) ≡ 4 ∷ 7 ∷ [] }
    ensures alone { without 4 (4 ∷ []) ≡ [] }
    ensures there { has (4 ∷ 7 ∷ 2 ∷ []) 7 ≡ true }
    ensures absent { has (4 ∷ 7 ∷ 2 ∷ []) 3 ≡ false }
    ensures neighbours { slot_in None (4 ∷ 7 ∷ 2 ∷ []) 7 ≡ Some (record { previous = Some 4; next = Some 2 }) }
    ensures first { slot_in None (4 ∷ 7 ∷ 2 ∷ []) 4 ≡ Some (record { previous = None; next = Some 7 }) }
    ensures last { slot_in None (4 ∷ 7 ∷ 2 ∷ []) 2 ≡ Some (record { previous = Some 7; next = None }) }
    ensures unlisted { slot_in None (4 ∷ 7 ∷ 2 ∷ []) 3 ≡ None }
    ensures tail { last_in None (4 ∷ 7 ∷ 2 ∷ []) ≡ Some 2 }
{}
