// What holds of the ends of steps.

ghost use Rattle.std.specs.Prelude.{List};
ghost use Rattle.outside.specs.Hands.{Fail};
ghost use Rattle.run_history.specs.declared.event.Event.{Event};
ghost use Rattle.step_outcomes.specs.Faults.{IsEndBy, StandsAmong};

/// The end of a step that follows the faults of its attempts has its fault among them.
pub fn ends_stand()
    ensures { (fails : List Fail) (event : Event) → IsEndBy fails event → StandsAmong fails event }
{}
