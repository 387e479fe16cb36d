// What holds of all dictionaries: each is a law over the definitions, so it serves every call that is exact by them.

ghost use Rattle.dim_dictionary.specs.Laws.{DictionariesKeepValues, DictionariesRise, NumbersKeepOrder};

/// A smaller value has a smaller number, and an equal one the same.
pub fn numbers_keep_order()
    ensures { NumbersKeepOrder }
{}

/// A dictionary has the values that it is made of, each once, in order.
pub fn dictionaries_are_distinct_values()
    ensures rise { DictionariesRise }
    ensures keep { DictionariesKeepValues }
{}
