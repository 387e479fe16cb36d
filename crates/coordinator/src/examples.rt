// The attempts that commands find in flight, computed on small runs.

ghost use Rattle.std.specs.Prelude.{◌≡◌, [], ◌∷◌};
ghost use Rattle.coordinator.specs.Examples.{steered};
ghost use Rattle.coordinator.specs.Stops.{stops_of};
ghost use Rattle.flight_laws.specs.Stops.{stops_along};
ghost use Rattle.outside.specs.Stoppers.{request_of};
ghost use Rattle.run_history.specs.World.{start};
ghost use Rattle.run_transcript.specs.Examples.{history, inputs, served, small};

/// The attempts that commands found in flight.
pub fn worked_stops()
    ensures found { stops_along small (start 2 1 []) steered ≡ request_of 1 1 ∷ request_of 2 1 ∷ [] }
    ensures none { stops_of served inputs history ≡ [] }
{}
