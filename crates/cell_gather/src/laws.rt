// The law that all cuboids rest on.

ghost use Rattle.cell_gather.specs.Laws.{GatherOfCells};

/// Gathering the aggregates of lists of rows by a part of their keys gives the aggregate of all their rows by that part,
/// whatever a row is.
pub fn gathered_cells<R>()
    ensures { GatherOfCells R }
{}
