// The definitions, computed on small cases.

ghost use Rattle.std.specs.Prelude.{◌≡◌, ◌-◌, ◌^◌, [], ◌∷◌, Some, None};
ghost use Rattle.outside.specs.Counts.{Rose, raised};
ghost use Rattle.outside.specs.Examples.{second_fails, three_files, two_fails, two_hands};
ghost use Rattle.outside.specs.Hands.{call_of, fault_for};
ghost use Rattle.outside.specs.LyingHand.{without_last};
ghost use Rattle.outside.specs.MemoryFiles.{bytes_of};
ghost use Rattle.outside.specs.MemoryHand.{after_kill};
ghost use Rattle.outside.specs.Numbering.{NextFails, after_call};
ghost use Rattle.outside.specs.Rises.{entries_of};
ghost use Rattle.outside.specs.declared.fate.Fate.TheVariants as fate;
ghost use Rattle.outside.specs.declared.hand.HandFault.TheVariants as fault;

/// What the definitions say of small cases.
pub fn worked_examples()
    // A count rises by one, and stands still at its end.
    ensures rises { Rose 4 5 }
    ensures stays { ¬ Rose 4 4 }
    ensures end { raised (2 ^ 64 - 1) ≡ 2 ^ 64 - 1 }

    // Of two files with one path the first counts.
    ensures first_file { bytes_of three_files (102 ∷ []) ≡ Some (1 ∷ 2 ∷ []) }
    ensures empty_file { bytes_of three_files (103 ∷ []) ≡ Some [] }
    ensures no_file { bytes_of three_files [] ≡ None }

    // The first call has the number 1.
    ensures first_call { ¬ NextFails second_fails }
    ensures second_call { NextFails (after_call second_fails) }

    // Of two faults of one attempt the first counts.
    ensures first_fault { fault_for 1 2 two_fails ≡ Some fault.Killed }
    ensures no_fault { fault_for 2 1 two_fails ≡ None }

    // A kill leaves the first bytes, and a lie lacks the last ones.
    ensures killed { after_kill (Some (fate.Killed 2)) (7 ∷ 8 ∷ 9 ∷ []) [] ≡ (7 ∷ 8 ∷ []) ∷ [] }
    ensures lied { without_last 2 (7 ∷ 8 ∷ 9 ∷ []) ≡ 7 ∷ [] }

    ensures entries { entries_of (λ told. told) two_hands ≡ call_of 1 1 [] ∷ call_of 2 1 [] ∷ [] }
{}
