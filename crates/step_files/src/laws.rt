// What holds of all step files.

ghost use Rattle.step_files.specs.Laws.{BodiesAreExact, LayoutsHold};

/// The bodies of tasks, and for each valid task those of its products, are read exactly: what fits is read again from
/// what it is written as, whatever follows, and what is read was so written and fits.
pub fn bodies_are_exact()
    ensures { BodiesAreExact }
{}

/// The layout of a cube that bytes describe is one by which step files are read.
pub fn layouts_hold()
    ensures { LayoutsHold }
{}
