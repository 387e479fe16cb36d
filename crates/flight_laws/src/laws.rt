// What holds of pieces in flight.

ghost use Rattle.std.specs.Prelude.{◌≢◌, ℕ, AllPairs, List, length};
ghost use Rattle.flight_laws.specs.OpenLines.{AreOpenLines};
ghost use Rattle.flight_laws.specs.Stops.{stops_along};
ghost use Rattle.run_history.specs.Commands.{Turn};
ghost use Rattle.run_history.specs.Cubes.{CubeSemantics};
ghost use Rattle.run_history.specs.Histories.{IsLegal};
ghost use Rattle.run_history.specs.Sets.{ReadySet};
ghost use Rattle.run_history.specs.Steps.{world};
ghost use Rattle.run_history.specs.World.{start};

/// Over every legal history the queries without their end have lines of their own, and none has a line behind that of the last command.
pub fn lines_apart<Query, Answer>()
    ensures { (cube : CubeSemantics Query Answer) (workers : ℕ) (initial : ReadySet) (turns : List (Turn Query)) → IsLegal cube workers initial turns
        → AreOpenLines (world cube workers initial turns).line (world cube workers initial turns).waiting (world cube workers initial turns).asked }
{}

/// Over every history no attempt is stopped twice.
pub fn stops_apart<Query, Answer>()
    ensures { (cube : CubeSemantics Query Answer) (workers : ℕ) (initial : ReadySet) (turns : List (Turn Query))
        → AllPairs (λ request other. request ≢ other) (stops_along cube (start workers (length cube.tables) initial) turns) }
{}
