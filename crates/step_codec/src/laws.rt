// What holds of all bodies.

ghost use Rattle.step_codec.specs.Laws.{BodiesAreExact};

/// Each body is read exactly: what fits is read again from what it is written as, whatever follows, and what is read was
/// so written and fits.
pub fn bodies_are_exact()
    ensures { BodiesAreExact }
{}
