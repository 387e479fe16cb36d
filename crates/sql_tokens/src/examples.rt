// The definitions on the smallest worked examples.

ghost use Rattle.std.specs.Prelude.{◌≡◌, false, codes};
ghost use Rattle.sql_tokens.specs.declared.kind.Kind.TheVariants as k;
ghost use Rattle.query_faults.specs.declared.sql.SqlKind.TheVariants.{BadNumber, BadToken};
ghost use Rattle.sql_tokens.specs.declared.lexeme.Lexeme.TheVariants.{Bad, Token};
ghost use Rattle.sql_tokens.specs.declared.payload.Payload.TheVariants.{Name, Nothing, Rows, Units};
ghost use Rattle.sql_tokens.specs.Lexemes.{next_at};
ghost use Rattle.sql_tokens.specs.Quotes.{text_behind};

/// What stands in front of a few texts.
#[tactic(auto, unfolding(crate::specs::Lexemes::next_at, crate::specs::Numbers::number_at, crate::specs::Words::word_at, crate::specs::Words::keyword, crate::specs::Quotes::name_at, crate::specs::Quotes::text_at, crate::specs::Symbols::symbol_at))]
pub fn worked_examples()
    ensures one { next_at (codes "1and") ≡ Token k.One (Rows 1) 1 }
    ensures places { next_at (codes "10.5 ") ≡ Token k.Number (Units 105_000) 4 }
    ensures bare_point { next_at (codes "1.") ≡ Bad BadNumber }
    ensures keyword { next_at (codes "aNd b") ≡ Token k.And Nothing 3 }
    ensures name { next_at (codes "and_b") ≡ Token k.Name (Name (codes "AND_B")) 5 }
    ensures quoted_keyword { next_at (codes "\"and\"") ≡ Token k.Name (Name (codes "AND")) 5 }
    ensures not_equal { next_at (codes "!=1") ≡ Token k.NotEqual Nothing 2 }
    ensures less { next_at (codes "<'") ≡ Token k.Less Nothing 1 }
    ensures doubled_quote { text_behind false (codes "it''s'x") ≡ Some (codes "it's") }
    ensures open_quote { next_at (codes "'it''s") ≡ Bad BadToken }
{}
