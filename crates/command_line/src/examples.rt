// Words and the commands that they say, from their definition.

ghost use Rattle.std.specs.Prelude.{◌∷◌, [], List, ℕ, None, Some, codes};
ghost use Rattle.command_line.specs.Words.{Say, cuboids, demo, fold, run, step};

/// What small lists of words say, and some that say no command of their name.
pub fn worked_examples()
    ensures run { Say (codes "run" ∷ codes "s" ∷ []) (run (codes "s") None) }
    ensures workers_last { Say (codes "run" ∷ codes "s" ∷ codes "--workers=8" ∷ []) (run (codes "s") (Some 8)) }
    ensures workers_first { Say (codes "run" ∷ codes "--workers=1" ∷ codes "s" ∷ []) (run (codes "s") (Some 1)) }
    ensures demo { Say (codes "demo" ∷ codes "007" ∷ codes "200000" ∷ []) (demo 7 200_000) }
    ensures fold { Say (codes "fold" ∷ codes "f" ∷ []) (fold (codes "f")) }
    ensures cuboids { Say (codes "cuboids" ∷ codes "c" ∷ []) (cuboids (codes "c")) }
    ensures step { Say (codes "step" ∷ codes "t" ∷ codes "p" ∷ codes "x" ∷ []) (step (codes "t") (codes "p") (codes "x")) }
    ensures dash { (path : List ℕ) → Say (codes "fold" ∷ codes "-x" ∷ []) (fold path) → ⊥ }
    ensures empty { (path : List ℕ) → Say (codes "fold" ∷ [] ∷ []) (fold path) → ⊥ }
    ensures no_rows { (number : ℕ) (rows : ℕ) → Say (codes "demo" ∷ codes "1" ∷ codes "0" ∷ []) (demo number rows) → ⊥ }
{}
