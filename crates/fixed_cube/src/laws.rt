// What holds of the fixed cube.

ghost use Rattle.fixed_cube.specs.Laws.{AnswersAreGathered, StepsBuild, TasksAreExact};

/// Tasks and cells are read exactly, and the products of a task are those that the function on bytes takes.
pub fn tasks_are_exact()
    ensures { TasksAreExact }
{}

/// The products of the three steps of a job over rows that fit are the base cuboid of its joined rows.
pub fn steps_build_the_base()
    ensures { StepsBuild }
{}

/// The answer from the base cuboids of segments is the plain answer over the joined rows of all of them.
pub fn answers_are_gathered()
    ensures { AnswersAreGathered }
{}
