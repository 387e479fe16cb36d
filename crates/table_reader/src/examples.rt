//! The definitions on the smallest worked examples.

ghost use Rattle.std.specs.Prelude.{◌≡◌, ◌∷◌, [], Some, None, true, false, codes, pos};
ghost use Rattle.cube_val.specs.declared.val.ColType.TheVariants as ty;
ghost use Rattle.cube_val.specs.declared.val.Val.TheVariants.{Null, Int, Text};
ghost use Rattle.table_reader.specs.declared.fault.TableKind.TheVariants as kind;
ghost use Rattle.table_reader.specs.Columns.{columns_of, header_fault, header_fault_at};
ghost use Rattle.table_reader.specs.Examples.{dated, header_of};
ghost use Rattle.table_reader.specs.Keys.{has_null, key_of};

/// The columns of a form in a header, in another order and case, beside a column that is passed over; the first fault of
/// headers; the key of a row.
pub fn worked_examples()
    ensures named { header_fault dated.cols (header_of (codes "m") (codes "X") (codes "Dt")) ≡ None }
    ensures places { columns_of dated (header_of (codes "m") (codes "X") (codes "Dt"))
        ≡ record { ty = ty.Date; no_null = false; place = 2 } ∷ record { ty = ty.Int; no_null = true; place = 0 } ∷ [] }
    ensures missing { header_fault dated.cols (header_of (codes "DT") (codes "X") (codes "MM")) ≡ Some (header_fault_at kind.MissingColumn 1) }
    ensures repeated { header_fault dated.cols (header_of (codes "DT") (codes "M") (codes "dt")) ≡ Some (header_fault_at kind.RepeatedColumn 0) }
    ensures missing_first { header_fault dated.cols (header_of (codes "DT") (codes "X") (codes "dt")) ≡ Some (header_fault_at kind.MissingColumn 1) }
    ensures key { key_of (1 ∷ 0 ∷ []) (Text (codes "a") ∷ Int (pos 3) ∷ []) ≡ Int (pos 3) ∷ Text (codes "a") ∷ [] }
    ensures null_in_key { has_null (Int (pos 3) ∷ Null ∷ []) ≡ true }
{}
