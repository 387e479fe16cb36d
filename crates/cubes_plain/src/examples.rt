// The smallest folds, computed from their definitions.

ghost use Rattle.std.specs.Prelude.{◌≡◌, ◌++◌, ◌∷◌, [], codes};
ghost use Rattle.cubes_plain.specs.Examples.{three_rows};
ghost use Rattle.cubes_plain.specs.Folds.{fold_text};

/// The texts of no row, and of three rows.
pub fn worked_examples()
    ensures none { fold_text [] ≡ codes "D1,COUNT(*),SUM(M)\n" }
    ensures three { fold_text three_rows ≡ codes "D1,COUNT(*),SUM(M)\na,2,4\nb,1,2\n" }
{}
