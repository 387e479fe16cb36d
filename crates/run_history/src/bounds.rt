// How large the numbers of a run get.

ghost use Rattle.std.specs.Prelude.{ℕ, List, length};
ghost use Rattle.run_history.specs.Bounds.{AreAtMost};
ghost use Rattle.run_history.specs.Commands.{Turn};
ghost use Rattle.run_history.specs.Cubes.{CubeSemantics};
ghost use Rattle.run_history.specs.Sets.{ReadySet};
ghost use Rattle.run_history.specs.Steps.{world};

/// Over every history there are no more jobs, attempts of a job, versions and accepted queries than turns.
pub fn numbers_are_small<Query, Answer>()
    ensures { (cube : CubeSemantics Query Answer) (workers : ℕ) (initial : ReadySet) (turns : List (Turn Query)) → AreAtMost (length turns) (world cube workers initial turns) }
{}
