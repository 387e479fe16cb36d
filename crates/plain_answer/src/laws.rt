// What holds of all answers.

ghost use Rattle.plain_answer.specs.Laws.{GroupsAreGrouped};

/// The groups of an answer are the rows grouped by their keys, each with its aggregates. So the laws of aggregation hold
/// of them, and an answer may be put together from the groups of parts of the rows.
pub fn groups_are_grouped()
    ensures { GroupsAreGrouped }
{}
