// The definitions, computed on small cases.

ghost use Rattle.std.specs.Prelude.{◌≡◌, ℕ, true, false, [], ◌∷◌, Some, None, Ok, Err};
ghost use Rattle.job_machine.specs.declared.state.JobState.TheVariants.{Finished, Pending, Running, Stopped};
ghost use Rattle.run_history.specs.declared.command.Control.TheVariants.{Discard, Pause, Resume};
ghost use Rattle.run_history.specs.declared.refused.Refused.TheVariants.{JobEnded, NoSuchJob, WrongState};
ghost use Rattle.run_state.specs.Answers.{steer_answer, steered_job};
ghost use Rattle.run_state.specs.Examples.{second_attempt, two_sessions};
ghost use Rattle.run_state.specs.Orderly.{AreListed, AreRising, has_session};
ghost use Rattle.run_state.specs.States.{answered_in, entry_at};

/// Lines that rise, sessions and their last answers, jobs by their numbers, and what commands on jobs are answered.
pub fn worked_examples()
    ensures rising { AreRising 0 5 (2 ∷ 5 ∷ []) }
    ensures repeated { AreRising 0 5 (2 ∷ 2 ∷ []) → ⊥ }
    ensures beyond { AreRising 0 5 (6 ∷ []) → ⊥ }
    ensures listed { AreListed two_sessions (7 ∷ 4 ∷ 7 ∷ []) }
    ensures unlisted { has_session two_sessions 5 ≡ false }
    ensures answered { answered_in two_sessions 4 ≡ 3 }
    ensures unanswered { answered_in two_sessions 5 ≡ 0 }
    ensures no_job { entry_at {X = ℕ} (8 ∷ 9 ∷ []) 0 ≡ None }
    ensures first_job { entry_at {X = ℕ} (8 ∷ 9 ∷ []) 1 ≡ Some 8 }
    ensures past_job { entry_at {X = ℕ} (8 ∷ 9 ∷ []) 3 ≡ None }
    ensures pause { steered_job Pause (second_attempt true Running) ≡ Ok (record { state = Stopped; stop = Some 2 }) }
    ensures resume { steered_job Resume (second_attempt false Stopped) ≡ Ok (record { state = Pending; stop = None }) }
    ensures wrong { steered_job Pause (second_attempt false Stopped) ≡ Err (WrongState Stopped) }
    ensures ended { steered_job Discard (second_attempt false Finished) ≡ Err (JobEnded Finished) }
    ensures absent { steer_answer Pause 9 None ≡ Err (NoSuchJob 9) }
{}
