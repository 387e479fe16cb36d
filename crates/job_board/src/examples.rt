// The definitions, computed on small cases.

ghost use Rattle.std.specs.Prelude.{◌≡◌, Some, None, option_map};
ghost use Rattle.job_machine.specs.declared.state.Ended.TheVariants as ended;
ghost use Rattle.run_history.specs.Commands.{event_of};
ghost use Rattle.run_history.specs.declared.event.Event.TheVariants as event;
ghost use Rattle.run_history.specs.declared.event.Outcome.TheVariants.{Done, Killed};
ghost use Rattle.job_board.specs.Examples.{first_in_flight, second_attempt, three_waiting};
ghost use Rattle.job_board.specs.BoardModel.{ended_of, next_query};
ghost use Rattle.job_board.specs.Turns.{turn_of};
ghost use Rattle.job_board.specs.declared.turn.BoardTurn.TheVariants as turn;

/// The query that is taken next, what the ends of attempts are to their job, and the event of a turn.
pub fn worked_examples()
    ensures first { option_map (λ q. q.line) (next_query three_waiting) ≡ Some 1 }
    ensures other_session { option_map (λ q. q.line) (next_query first_in_flight) ≡ Some 3 }
    ensures no_job { ended_of None 1 Done ≡ ended.Stale }
    ensures old_attempt { ended_of (Some (second_attempt 2)) 1 Done ≡ ended.Stale }
    ensures last_step { ended_of (Some (second_attempt 2)) 2 Done ≡ ended.Finished }
    ensures earlier_step { ended_of (Some (second_attempt 1)) 2 Done ≡ ended.Advanced }
    ensures killed { ended_of (Some (second_attempt 1)) 2 Killed ≡ ended.Failed }
    ensures query { event_of (turn_of (turn.Asks 3 4)) ≡ event.Command 3 }
    ensures claim { event_of (turn_of (turn.Claims 1 2)) ≡ event.Claim 1 2 }
{}
