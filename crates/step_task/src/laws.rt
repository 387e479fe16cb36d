// What holds of all steps.

ghost use Rattle.step_task.specs.Laws.{StepsMakeProducts, TextsAreOfTasks};

/// What a step makes of a valid task is a product of that task, so it is never refused as damaged.
pub fn steps_make_products()
    ensures { StepsMakeProducts }
{}

/// Bytes are one task at most, and what is made of them is the file of what its step makes.
pub fn texts_are_of_tasks()
    ensures { TextsAreOfTasks }
{}
