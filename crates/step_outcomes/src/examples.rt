// The definitions of what a run says of its steps, computed on a small run.

ghost use Rattle.std.specs.Prelude.{◌≡◌, ⊤, [], All, None, Some};
ghost use Rattle.outside.specs.declared.hand.HandFault.TheVariants as fault;
ghost use Rattle.run_history.specs.declared.event.Event.TheVariants.{StepEnd};
ghost use Rattle.run_history.specs.declared.event.Outcome.TheVariants as outcome;
ghost use Rattle.run_transcript.specs.Examples.{history, small};
ghost use Rattle.step_outcomes.specs.Calls.{AreCallsOf, answered_ends, calls_of, ends_of};
ghost use Rattle.step_outcomes.specs.Ends.{IsUndamaged};
ghost use Rattle.step_outcomes.specs.Examples.{four_calls, killed_run, one_kill};
ghost use Rattle.step_outcomes.specs.Faults.{EndsBy, IsEndBy, StandsAmong};

/// A run whose second attempt is killed, and what its hand tells of it.
pub fn worked_ends()
    // Each end is by the one fault, or by none; a fault that isn't there stands among none, and Memory may stand in place of a fault.
    ensures by_fault { All (IsEndBy one_kill) history }
    ensures stand { All (StandsAmong one_kill) history }
    ensures not_done { ¬ IsEndBy one_kill (StepEnd 1 2 outcome.Done) }
    ensures not_told { ¬ IsEndBy [] (StepEnd 1 2 outcome.Killed) }
    ensures not_among { ¬ StandsAmong [] (StepEnd 1 2 outcome.Killed) }
    ensures no_memory { EndsBy (Some fault.Killed) outcome.Memory }
    ensures damaged { EndsBy None outcome.Damaged }
    ensures undamaged { All IsUndamaged history }
    ensures damage { ¬ IsUndamaged (StepEnd 1 2 outcome.Damaged) }
{}

/// The calls of that run.
pub fn worked_calls()
    ensures one_call { calls_of 1 2 four_calls ≡ 1 }
    ensures one_end { ends_of 1 2 killed_run ≡ 1 }
    ensures answered { answered_ends 1 2 killed_run ≡ 1 }
    ensures no_end { ends_of 1 5 killed_run ≡ 0 }
    ensures all { AreCallsOf small ⊤ 1 killed_run four_calls }
{}
