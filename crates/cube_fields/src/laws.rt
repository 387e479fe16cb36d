// What holds of all these fields.

ghost use Rattle.cube_fields.specs.Laws.{FieldsAreExact};

/// Each field is read exactly: what fits is read again from what it is written as, whatever follows, and what is read
/// was so written and fits.
pub fn fields_are_exact()
    ensures { FieldsAreExact }
{}
