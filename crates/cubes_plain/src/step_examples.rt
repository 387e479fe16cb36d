// The definitions of `step`, computed on small files.

ghost use Rattle.std.specs.Prelude.{◌≡◌, None, Some, codes, true, false};
ghost use Rattle.cubes_plain.specs.StepExamples.{IsWrapped, after_step, before_step, unwrapped};
ghost use Rattle.cubes_plain.specs.Steps.{NoTaskAt, ProducedAt, TaskAt, TellsTaskAt};
ghost use Rattle.fault_lines.specs.Files.{TellsNothingAt};
ghost use Rattle.outside.specs.Watches.{there_at};

/// What the definitions say of a task, of its product, and of files that are none.
pub fn worked_steps()
    ensures task { TellsTaskAt IsWrapped before_step (codes "t") }
    ensures empty { NoTaskAt IsWrapped before_step (codes "e") }
    ensures nothing { TellsNothingAt before_step (codes "p") }
    ensures produced { ProducedAt IsWrapped unwrapped before_step after_step (codes "t") (codes "p") }
    ensures not_yet { ProducedAt IsWrapped unwrapped before_step before_step (codes "t") (codes "p") → ⊥ }

    // Any file may be the stop file. Where files tell nothing, any path may be that of a task.
    ensures stop { there_at before_step (codes "e") ≡ Some true }
    ensures no_stop { there_at before_step (codes "p") ≡ Some false }
    ensures untold { TaskAt IsWrapped None (codes "p") }
{}
