//! What holds of all fields and of all frames.

ghost use Rattle.byte_frame.specs.FrameLaws.{FramesAreExact};
ghost use Rattle.byte_frame.specs.Laws.{FieldsAreExact};

/// What is put is taken again, whatever follows, and what is taken was so put.
pub fn fields_are_exact()
    ensures { FieldsAreExact }
{}

/// The head and the body of a frame are taken again, bytes that are taken were so put, and a frame has 82 bytes more
/// than its body.
pub fn frames_are_exact()
    ensures { FramesAreExact }
{}
