// What holds of every text: laws over the definitions.

ghost use Rattle.sql_reader.specs.Laws.{NotBoth, OneFault, OneQuery};

/// A text is one query, or has one first fault, and not both.
pub fn texts_have_one_answer()
    ensures query { OneQuery }
    ensures fault { OneFault }
    ensures either { NotBoth }
{}
