// The definitions on small values.

ghost use Rattle.std.specs.Prelude.{◌≡◌, [], Some, Ok, Err, codes};
ghost use Rattle.serde_json.specs.Data.{null};
ghost use Rattle.descriptor_json.specs.Places.{at_key, at_index};
ghost use Rattle.descriptor_json.specs.Readings.{name_at, optional_at};
ghost use Rattle.descriptor_json.specs.Walk.{column_at, dimension_at, rule_at, no_rule};
ghost use Rattle.descriptor_json.specs.declared.raw.RawNumber.TheVariants.{Whole, Other};
ghost use Rattle.descriptor_json.specs.Examples.{only_name, whole_column, two_kinds, null_joints, two_at_most, less_than_none, cap_in_words, empty};

/// What the definitions give for small values, as equations; the body does nothing.
pub fn worked_examples()
    ensures places { at_key (at_index (codes "/tables") 12) (codes "columns") ≡ codes "/tables/12/columns" }
    ensures whole { column_at (codes "/c") whole_column ≡ Ok record {
      place = codes "/c";
      name = record { text = codes "DT"; place = codes "/c/name" };
      kind = record { text = codes "Date"; place = codes "/c/type" };
    } }
    ensures missing { column_at (codes "/c") only_name ≡ Err (codes "/c/type") }
    ensures no_object { column_at (codes "/c") null ≡ Err (codes "/c") }
    ensures both_keys { dimension_at (codes "/d") two_kinds ≡ Err (codes "/d") }
    ensures neither_key { dimension_at (codes "/d") empty ≡ Err (codes "/d") }
    ensures absent { rule_at (codes "/r") empty ≡ Ok no_rule }
    ensures present { rule_at (codes "/r") null_joints ≡ Err (codes "/r/joint_dims") }
    ensures whole_cap { rule_at (codes "/r") two_at_most ≡ Ok record no_rule { cap = Some (Whole 2) } }
    ensures other_cap { rule_at (codes "/r") less_than_none ≡ Ok record no_rule { cap = Some Other } }
    ensures no_number { rule_at (codes "/r") cap_in_words ≡ Err (codes "/r/dim_cap") }
    ensures absent_list { optional_at name_at (codes "groups") [] empty ≡ Ok record { place = codes "/groups"; items = [] } }
{}
