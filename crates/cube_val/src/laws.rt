//! What holds of all values: each is a law over the definitions, so it serves every call that is exact by them.

ghost use Rattle.std.specs.Cmp.{IsTotalOrder};
ghost use Rattle.cube_val.specs.Laws.{EqualityIsExact, OnlyEqualRowsTie, OnlyEqualTie, PrintedIsRead, TextsHaveOneValue};
ghost use Rattle.cube_val.specs.Order.{row_cmp, val_cmp};

/// The order of values is total, only equal values tie, and `==` says of two values that they are equal.
pub fn order_is_total()
    ensures total { IsTotalOrder val_cmp }
    ensures ties { OnlyEqualTie }
    ensures equality { EqualityIsExact }
{}

/// The order of rows is total, and only equal rows tie.
pub fn row_order_is_total()
    ensures total { IsTotalOrder row_cmp }
    ensures ties { OnlyEqualRowsTie }
{}

/// Bytes write at most one value in a column of a type.
pub fn texts_have_one_value()
    ensures { TextsHaveOneValue }
{}

/// What is printed of a value is read as that value, for every value that fits its column's type. The one exception
/// is the text `\N`, which is read as null.
pub fn printed_values_are_read()
    ensures { PrintedIsRead }
{}
