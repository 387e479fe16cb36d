//! The definitions on the smallest worked examples.

ghost use Rattle.std.specs.Prelude.{◌≡◌, pos, negsuc, codes};
ghost use Rattle.std.specs.declared.cmp.Ordering.TheVariants.{Less, Greater};
ghost use Rattle.cube_val.specs.declared.val.ColType.TheVariants as ty;
ghost use Rattle.cube_val.specs.declared.val.Val.TheVariants.{Null, Int, Text};
ghost use Rattle.cube_val.specs.Order.{val_cmp};
ghost use Rattle.cube_val.specs.Values.{Writes, text_of};

/// What a few texts write, what is printed of a few values, and how they are ordered.
pub fn worked_examples()
    ensures minus_zero { Writes ty.Int (codes "-0") (Int (pos 0)) }
    ensures zeros_past_the_fourth { Writes ty.Decimal (codes "10.50000") (Int (pos 105_000)) }
    ensures no_point { Writes ty.Decimal (codes "+3") (Int (pos 30_000)) }
    ensures null_text { text_of ty.Date Null ≡ codes "\\N" }
    ensures whole_printed { text_of ty.Int (Int (negsuc 11)) ≡ codes "-12" }
    ensures decimal_printed { text_of ty.Decimal (Int (pos 105_000)) ≡ codes "10.5000" }
    ensures below_zero { text_of ty.Decimal (Int (negsuc 4_999)) ≡ codes "-0.5000" }
    ensures null_first { val_cmp Null (Int (negsuc 4)) ≡ Less }
    ensures numbers_by_size { val_cmp (Int (negsuc 4)) (Int (pos 3)) ≡ Less }
    ensures numbers_before_texts { val_cmp (Text (codes "")) (Int (pos 3)) ≡ Greater }
    ensures texts_by_bytes { val_cmp (Text (codes "B")) (Text (codes "a")) ≡ Less }
{}
